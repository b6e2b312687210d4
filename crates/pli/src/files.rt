// What the program reads.

use crate::margins::margins_of;
use clap::ArgMatches;
use std::fs::File;
use std::io;
use std::io::Read;

/// How many bytes of a source are read at most: one more than a source may have, which tells that it is too long.
const MOST_OF_A_SOURCE: u64 = 1_048_577;

/// A source as far as it stands in the margins that the words ask for. No more of it is read than tells that it is too
/// long.
pub fn source_of(rt: &HostRuntime, matches: &ArgMatches<'_>, name: &str) -> io::Result<Vec<u8>> {
    let mut bytes = Vec::new(rt.alloc());
    File::open(rt, name)?
        .take(MOST_OF_A_SOURCE)
        .read_to_end(&mut bytes)?;
    if let Some(margins) = margins_of(matches) {
        margins.blank_outside(&mut bytes);
    }
    Ok(bytes)
}
