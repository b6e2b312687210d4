// How many elements there are in parts, counted from the last to the first.

ghost use Rattle.std.specs.Prelude.{◌≡◌, IfOk, length, map, slice_index_or};
ghost use Rattle.pli_typing.specs.Signatures.{capped};
ghost use Rattle.pli_signatures.specs.View.{leaf_in_force};
ghost use Rattle.pli_order.specs.Counted.{beside_by, count_of, counted, each_by, rows_of};

use crate::note::Note;
use crate::rows::{bounds_of, row_count};
use pli_shapes::part::Part;
use pli_signatures::element::LeafInForce;
use std::alloc::{AllocError, Global};

/// The count at a place, 0 behind the last.
#[tactic(auto, using(crate::proofs::Counting::count_past))]
fn count_at(counts: &[u64], place: usize) -> u64
    ensures { result ≡ slice_index_or counts.now place 0 }
{
    if place < counts.len() {
        counts[place]
    } else {
        0
    }
}

/// The rows of a part.
pub fn rows(leaves: &[LeafInForce], note: Note) -> u64
    ensures { result ≡ capped (rows_of note (map leaf_in_force leaves.now)) }
{
    row_count(
        bounds_of(leaves, note.leaf),
        note.before,
        note.part.dimensions,
    )
}

/// The elements in one row of a part, by the counts of the parts behind it.
#[tactic(auto, using(crate::proofs::Counting::one_each, crate::proofs::Counting::some_each))]
pub fn each(behind: &[u64], part: Part) -> u64
    ensures { result ≡ each_by part.inside behind.now }
{
    if part.inside == 0 {
        return 1;
    }
    count_at(behind, 0)
}

/// The elements of the parts that stand behind a part beside it.
#[tactic(auto, using(crate::proofs::Counting::some_beside, crate::proofs::Counting::none_beside))]
fn beside(behind: &[u64], note: Note) -> u64
    ensures { result ≡ beside_by note behind.now }
{
    let inside = note.part.inside as usize;
    if inside + 1 < note.size {
        count_at(behind, inside)
    } else {
        0
    }
}

/// The elements of a part and of those that stand behind it beside it.
fn count(behind: &[u64], note: Note, leaves: &[LeafInForce]) -> u64
    ensures { result ≡ count_of note (map leaf_in_force leaves.now) behind.now }
{
    let own = rows(leaves, note).saturating_mul(each(behind, note.part));
    own.saturating_add(beside(behind, note))
}

/// Puts in the counts of all parts.
fn put_counts(counts: &mut [u64], notes: &[Note], leaves: &[LeafInForce])
    requires { length counts.old ≡ length notes.now }
    ensures { counts.new ≡ counted notes.now (map leaf_in_force leaves.now) }
{
    let mut left = notes.len();
    while left > 0 {
        left -= 1;
        let here = count(&counts[left + 1..], notes[left], leaves);
        counts[left] = here;
    }
}

/// For each part, the elements of it and of those that stand behind it beside it; `u64::MAX` where there are more. The leaves are those
/// of the shape.
pub fn counts(alloc: Global, notes: &[Note], leaves: &[LeafInForce]) -> Result<Vec<u64>, AllocError>
    ensures { IfOk result (λ counts. counts.items ≡ counted notes.now (map leaf_in_force leaves.now)) }
{
    let mut counts = vec![in alloc; 0; notes.len()]?;
    put_counts(&mut counts, notes, leaves);
    Ok(counts)
}
