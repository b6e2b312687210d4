// How fast a program's declarations are read, and the last name of its block found.

use anyhow::anyhow;
use pli_declaring::declare;
use pli_language::scope::Found;
use pli_language::stmt::Tree;
use pli_lex::tokens;
use pli_parse::parse;
use std::alloc::{AllocError, Global};
use std::time::Instant;

const HEAD: &[u8] = b"T: PROCEDURE OPTIONS(MAIN); DECLARE (NAAA";

const ATTRIBUTES: &[u8] = b") FIXED BINARY(31);\nEND T;\n";

const REFERENCES: u32 = 1_000;

// A name of four letters for each number below 17,576.
fn letters(number: u32) -> [u8; 4] {
    let letter = |digit: u32| b'A' + (digit % 26) as u8;
    [
        b'N',
        letter(number / 676),
        letter(number / 26),
        letter(number),
    ]
}

// A program that declares this many names, and no more.
fn program(alloc: Global, names: u32) -> Result<Vec<u8>, AllocError> {
    let mut source = Vec::from_slice(alloc, HEAD)?;
    for number in 1..names {
        source.push(b',')?;
        source.extend_from_slice(&letters(number))?;
    }
    source.extend_from_slice(ATTRIBUTES)?;
    Ok(source)
}

fn tree(alloc: Global, names: u32) -> anyhow::Result<Tree> {
    let source = program(alloc, names)?;
    let Ok(tokens) = tokens(alloc, &source) else {
        return Err(anyhow!("no tokens"));
    };
    match parse(alloc, &source, &tokens) {
        Ok(tree) => Ok(tree),
        Err(_) => Err(anyhow!("no program")),
    }
}

// How many references to the last name are found.
fn found(alloc: Global, tree: &Tree, names: u32) -> anyhow::Result<u32> {
    let Ok(scopes) = declare(alloc, tree) else {
        return Err(anyhow!("no scopes"));
    };
    let last = letters(names.saturating_sub(1));
    let mut found = 0;
    for _i in 0..REFERENCES {
        if let Found::One(_) = scopes.find(1, &[&last]) {
            found = u32::saturating_add(found, 1);
        }
    }
    Ok(found)
}

/// A block of this many names: their number and the references found, and the time where it is asked for.
pub fn block(rt: &HostRuntime, names: u32, long: bool) -> anyhow::Result<()> {
    let tree = tree(rt.alloc(), names)?;
    let start = Instant::now(rt)?;
    let count = found(rt.alloc(), &tree, names)?;
    let time = start.elapsed(rt)?.as_micros();
    println!(rt; "block: {names} names, {count} references to the last")?;
    if long {
        println!(rt; "block: declared and found in {time} microseconds")?;
    }
    Ok(())
}
