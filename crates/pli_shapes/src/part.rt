// The parts of an aggregate.

ghost use Rattle.std.specs.Prelude.{◌≡◌, ◌+◌, ◌≤◌, MatchOption, ⊤};
ghost use Rattle.pli_shapes.specs.Reading.{part_at};
ghost use Rattle.pli_values.specs.Calls.{call_of};

use pli_values::source::Source;
use pli_values::word::word_at;

/// The bytes of a part in memory.
pub const PART_BYTES: usize = 12;

/// A structure, an array or a leaf: the dimensions that it declares itself, and how many of the parts that follow are inside.
#[derive(Clone, Copy, PartialEq, Eq, Debug)]
pub struct Part {
    pub dimensions: u32,
    pub inside: u32,
}

/// The part at an address, with the number of those that stand directly in it. None where that isn't data.
pub fn part_at(source: &Source, at: usize) -> Option<Part>
    ensures part { result ≡ part_at (call_of source.now) at }
    ensures within { MatchOption result ⊤ (λ _. at + 12 ≤ source.now.layout.end) }
{
    if !source.layout.is_data(at, PART_BYTES) {
        return None;
    }
    Some(Part {
        dimensions: word_at(source.memory, at),
        inside: word_at(source.memory, at + 4),
    })
}
