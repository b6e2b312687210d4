// How fast sources are read: many statements one after the other, many inside one another, a long comment, and a block of
// many names; for their results, or for the time with the argument `time`.
#![tactic(auto)]

mod names;

use anyhow::anyhow;
use pli_lex::tokens;
use pli_parse::parse;
use std::alloc::{AllocError, Global};
use std::env;
use std::time::Instant;

const HEAD: &[u8] = b"T: PROCEDURE OPTIONS(MAIN); DECLARE A FIXED BINARY(31);\n";

const STATEMENT: &[u8] = b"A = A + 12;\n";

const END: &[u8] = b"END T;\n";

const STATEMENTS: u32 = 1_660;

const FRONT: &[u8] = b"IF A = 1 THEN DO;\n";

const BACK: &[u8] = b"END;\n";

/// An IF and its group are two of the 64 statements that may be inside one another.
const DEPTH: u32 = 32;

const NESTS: u32 = 33;

const COMMENT: &[u8] = b"the quick brown fox\n";

const COMMENTS: u32 = 52_000;

const TURNS: u32 = 200;

fn flat(alloc: Global, statements: u32) -> Result<Vec<u8>, AllocError> {
    let mut source = Vec::from_slice(alloc, HEAD)?;
    for _i in 0..statements {
        source.extend_from_slice(STATEMENT)?;
    }
    source.extend_from_slice(END)?;
    Ok(source)
}

/// A statement as deep as one may stand, behind what the source holds.
fn nest(source: &mut Vec<u8>) -> Result<(), AllocError> {
    for _i in 0..DEPTH {
        source.extend_from_slice(FRONT)?;
    }
    source.extend_from_slice(STATEMENT)?;
    for _i in 0..DEPTH {
        source.extend_from_slice(BACK)?;
    }
    Ok(())
}

fn nested(alloc: Global, nests: u32) -> Result<Vec<u8>, AllocError> {
    let mut source = Vec::from_slice(alloc, HEAD)?;
    for _i in 0..nests {
        nest(&mut source)?;
    }
    source.extend_from_slice(END)?;
    Ok(source)
}

fn commented(alloc: Global) -> Result<Vec<u8>, AllocError> {
    let mut source = Vec::from_slice(alloc, HEAD)?;
    source.extend_from_slice(b"/*")?;
    for _i in 0..COMMENTS {
        source.extend_from_slice(COMMENT)?;
    }
    source.extend_from_slice(b"*/")?;
    source.extend_from_slice(END)?;
    Ok(source)
}

// The number of tokens of a source that is a program.
fn read(alloc: Global, source: &[u8]) -> anyhow::Result<usize> {
    let Ok(tokens) = tokens(alloc, source) else {
        return Err(anyhow!("no tokens"));
    };
    let count = tokens.len();
    match parse(alloc, source, &tokens) {
        Ok(_) => Ok(count),
        Err(_) => Err(anyhow!("no program")),
    }
}

fn timed(rt: &HostRuntime, name: &str, source: &[u8]) -> anyhow::Result<()> {
    let start = Instant::now(rt)?;
    for _i in 0..TURNS {
        if tokens(rt.alloc(), source).is_err() {
            return Err(anyhow!("no tokens"));
        }
    }
    let lexed = start.elapsed(rt)?.as_micros();
    let start = Instant::now(rt)?;
    for _i in 0..TURNS {
        read(rt.alloc(), source)?;
    }
    let both = start.elapsed(rt)?.as_micros();
    println!(rt; "{name}: {TURNS} times, tokens {lexed} microseconds, with the tree {both}")?;
    Ok(())
}

fn main(rt: HostRuntime) -> anyhow::Result<()> {
    let alloc = rt.alloc();
    let long = env::args(&rt)?.count() > 1;
    for (name, source) in [
        ("half", flat(alloc, STATEMENTS / 2)?),
        ("statements", flat(alloc, STATEMENTS)?),
        ("half nested", nested(alloc, NESTS / 2)?),
        ("nested", nested(alloc, NESTS)?),
        ("comments", commented(alloc)?),
    ] {
        let count = read(alloc, &source)?;
        println!(rt; "{name}: {} bytes, {count} tokens", source.len())?;
        if long {
            timed(&rt, name, &source)?;
        }
    }
    names::block(&rt, 1_000, long)?;
    names::block(&rt, 2_000, long)
}
