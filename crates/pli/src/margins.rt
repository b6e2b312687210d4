// Sources of which only some columns count.

ghost use Rattle.std.specs.Prelude.{◌≡◌, ◌+◌, ◌^◌, ◌<◌, ◌≤◌, MatchOption};
ghost use Rattle.pli.specs.Margins.{between, blanked, column_behind};

use crate::command;
use clap::ArgMatches;

/// The first and the last column of a source that count, from 1 in bytes.
#[derive(Clone, Copy, Debug)]
pub struct Margins {
    pub first: usize,
    pub last: usize,
}

impl Margins {
    /// The margins that two columns are; nothing where the first is behind the last.
    pub fn new(first: usize, last: usize) -> Option<Margins>
        ensures { MatchOption result (last < first)
            (λ m. (first ≤ last) × (m ≡ record { first = first; last = last })) }
    {
        (first <= last).then_some(Margins { first, last })
    }

    // A byte of a column, or a blank.
    fn blanked(self, column: usize, byte: u8) -> u8
        ensures { result ≡ blanked self.first self.last column byte }
    {
        if byte == b'\r' || byte == b'\n' || (self.first <= column && column <= self.last) {
            byte
        } else {
            b' '
        }
    }

    /// Makes a blank of each byte outside the margins. Line ends stay, so each byte keeps its line and column.
    #[tactic(auto, using(crate::proofs::Blanks::blanked_more))]
    pub fn blank_outside(self, source: &mut [u8])
        ensures { source.new ≡ between self.first self.last 1 source.old }
    {
        let mut column: usize = 1;
        for byte in source.iter_mut() {
            let read = *byte;
            *byte = self.blanked(column, read);
            column = column_behind(column, read);
        }
    }
}

fn column_behind(column: usize, byte: u8) -> usize
    requires { column + 1 < 2 ^ 64 }
    ensures { result ≡ column_behind column byte }
{
    if byte == b'\n' { 1 } else { column + 1 }
}

/// The margins that the words ask for; nothing where they ask for none, or for columns that are none.
pub fn margins_of(matches: &ArgMatches<'_>) -> Option<Margins> {
    match matches.get_strs(command::MARGINS)? {
        [first, last] => Margins::new(first.parse().ok()?, last.parse().ok()?),
        _ => None,
    }
}
