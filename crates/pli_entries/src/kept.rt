// Aggregates by their places among the entries.

ghost use Rattle.std.specs.Prelude.{◌≡◌, reverse};
ghost use Rattle.pli_entries.specs.Kept.{placed_below};

use crate::taken::TakenLeaf;

/// The leaves of an aggregate, and how many entries stand below it.
#[derive(Drop)]
pub struct Aggregate {
    pub place: usize,
    pub leaves: Vec<TakenLeaf>,
}

/// Only those below a height stay. The newest stand last.
pub fn keep_below(aggregates: &mut Vec<Aggregate>, height: usize)
    ensures { reverse aggregates.new.items ≡ placed_below height (reverse aggregates.old.items) }
{
    let mut left = aggregates.len();
    while left > 0 && aggregates[left - 1].place >= height {
        left -= 1;
    }
    aggregates.truncate(left);
}
