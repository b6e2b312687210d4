// The tokens of a source and its tree, or the refusal in the place of what isn't there.
#![tactic(auto)]

use pli_lex::tokens;
use pli_parse::parse;
use std::io;
use std::io::Read;

/// The tokens, one a line, and then the tree.
fn dump(rt: &HostRuntime, source: &[u8]) -> io::Result<()> {
    let list = match tokens(rt.alloc(), source) {
        Ok(list) => list,
        Err(fault) => return println!(rt; "{fault}"),
    };
    for token in &list {
        println!(rt; "{token:?}")?;
    }
    match parse(rt.alloc(), source, &list) {
        Ok(tree) => println!(rt; "{tree:?}"),
        Err(fault) => println!(rt; "{fault}"),
    }
}

fn main(rt: HostRuntime) -> io::Result<()> {
    let mut source = Vec::new(rt.alloc());
    rt.reader().read_to_end(&mut source)?;
    dump(&rt, &source)
}
