// The parts of a shape, noted from the first to the last.

ghost use Rattle.std.specs.Prelude.{◌≡◌, ◌+◌, ◌^◌, ◌<◌, IfOk, reverse};
ghost use Rattle.pli_order.specs.Notes.{IsNext, leaf_behind, opened};
ghost use Rattle.pli_order.specs.Orders.{IsOrder};

use crate::note::Note;
use pli_shapes::part::Part;
use std::alloc::{AllocError, Global};

/// So many parts that are still to come, with those inside, and how many subscripts stand before theirs.
#[derive(Clone, Copy, PartialEq, Eq, Debug)]
struct Range {
    size: usize,
    before: usize,
}

/// The parts of a shape with where they stand, and how many of them are leaves.
#[derive(Drop)]
pub struct Order {
    pub notes: Vec<Note>,
    pub leaves: usize,
}

/// Puts a range before those that are still to come, the first of which stands last, unless it is empty.
#[tactic(auto, using(crate::proofs::Noting::none_opened, crate::proofs::Noting::one_opened))]
fn open(ranges: &mut Vec<Range>, size: usize, before: usize) -> Result<(), AllocError>
    ensures { IfOk result (λ _. reverse ranges.new.items ≡ opened size before (reverse ranges.old.items)) }
{
    if size == 0 {
        return Ok(());
    }
    ranges.push(Range { size, before })?;
    Ok(())
}

/// How many subscripts stand behind those of so many dimensions.
fn behind(before: usize, dimensions: u32) -> Result<usize, AllocError>
    ensures { IfOk result (λ sum. sum ≡ dimensions + before) }
{
    match before.checked_add(dimensions as usize) {
        Some(sum) => Ok(sum),
        None => Err(AllocError),
    }
}

/// The note of the part that comes next. Refused where it doesn't fit the parts around it, as parts of shapes do.
fn next_note(ranges: &mut Vec<Range>, part: Part, leaf: usize) -> Result<Note, AllocError>
    ensures { IfOk result (λ n. IsNext part leaf (reverse ranges.old.items) (reverse ranges.new.items) n) }
{
    let Some(range) = ranges.pop() else {
        return Err(AllocError);
    };
    let inside = part.inside as usize;
    if inside >= range.size {
        return Err(AllocError);
    }
    let own = behind(range.before, part.dimensions)?;
    open(ranges, range.size - 1 - inside, range.before)?;
    open(ranges, inside, own)?;
    Ok(Note {
        part,
        size: range.size,
        before: range.before,
        leaf,
    })
}

/// The number of the next leaf behind a part.
#[tactic(auto, using(crate::proofs::Noting::one_leaf, crate::proofs::Noting::no_leaf))]
fn leaf_behind(part: Part, leaf: usize) -> usize
    requires { leaf + 1 < 2 ^ 64 }
    ensures { result ≡ leaf_behind part.inside leaf }
{
    if part.inside == 0 {
        return leaf + 1;
    }
    leaf
}

/// The parts of a shape with where they stand, behind so many subscripts that are given. Refused also where parts don't stand in one
/// another, as all of a shape do.
pub fn order_of(alloc: Global, parts: &[Part], given: usize) -> Result<Order, AllocError>
    ensures { IfOk result (λ o. IsOrder parts.now given o) }
{
    let mut ranges = Vec::new(alloc);
    open(&mut ranges, parts.len(), given)?;
    let mut notes = Vec::new(alloc);
    let mut leaves = 0;
    for part in parts {
        let note = next_note(&mut ranges, *part, leaves)?;
        notes.push(note)?;
        leaves = leaf_behind(*part, leaves);
    }
    if !ranges.is_empty() {
        return Err(AllocError);
    }
    Ok(Order { notes, leaves })
}
