// Shapes of items.

ghost use Rattle.std.specs.Prelude.{◌≡◌, ◌+◌, ◌*◌, ◌≤◌, ◌<◌, ◌^◌, IfOk, MatchOption, Some, length, option_map, ⊤};
ghost use Rattle.pli_serving.specs.ElementService.{item_shape_at};
ghost use Rattle.pli_shapes.specs.Members.{one_leaf, shape_of};
ghost use Rattle.pli_shapes.specs.Reading.{parts_at};
ghost use Rattle.pli_values.specs.Calls.{call_of};

use crate::part::{PART_BYTES, Part, part_at};
use crate::sizes::put_sizes;
use pli_values::source::Source;
use pli_values::word::word_at;
use std::alloc::{AllocError, Global};

/// An item of GET or PUT: the number of the subscripts given, its first leaf, and its parts, each before those inside.
#[derive(Drop)]
pub struct ItemShape {
    pub given: u32,
    pub first: u32,
    pub parts: Vec<Part>,
}

/// An item that is one leaf: the number of the subscripts given, the dimensions that these leave, and the leaf.
#[derive(Clone, Copy, PartialEq, Eq, Debug)]
pub struct LeafShape {
    pub given: u32,
    pub dimensions: u32,
    pub leaf: u32,
}

/// Where memory ends.
fn end_of(source: &Source) -> u32
    ensures { result ≡ source.now.layout.end }
{
    source.layout.end
}

/// So many parts from an address on, with those inside, each with the number of those directly in it. None where not all is data.
fn parts_at(
    alloc: Global,
    source: &Source,
    count: u32,
    at: usize,
) -> Result<Option<Vec<Part>>, AllocError>
    ensures parts { IfOk result (λ o. option_map (λ parts. parts.items) o ≡ parts_at source.now.layout.end (call_of source.now) count at) }
    ensures within { IfOk result (λ o. MatchOption o ⊤ (λ parts. 12 * length parts.items ≤ source.now.layout.end)) }
    ensures few { IfOk result (λ o. MatchOption o ⊤ (λ parts. length parts.items < 2 ^ 32)) }
{
    let most = end_of(source);
    let mut parts = Vec::new(alloc);
    let mut left = u64::from(count);
    let mut here = at;
    while left > 0 {
        let Some(part) = part_at(source, here) else {
            return Ok(None);
        };
        parts.push(part)?;
        left = left - 1 + u64::from(part.inside);
        here += PART_BYTES;
    }
    Ok(Some(parts))
}

/// The shape at an address, none where it isn't one. Nothing is read twice.
pub fn item_shape(
    alloc: Global,
    source: &Source,
    at: usize,
) -> Result<Option<ItemShape>, AllocError>
    ensures shape { IfOk result (λ o. option_map shape_of o ≡ item_shape_at (call_of source.now) at) }
    ensures few { IfOk result (λ o. MatchOption o ⊤ (λ shape. 12 * length shape.parts.items ≤ source.now.layout.end)) }
{
    if !source.layout.is_data(at, 16) {
        return Ok(None);
    }
    let Some(mut parts) = parts_at(alloc, source, 1, at + 4)? else {
        return Ok(None);
    };
    put_sizes(&mut parts);
    Ok(Some(ItemShape {
        given: word_at(source.memory, at),
        first: word_at(source.memory, at + 12),
        parts,
    }))
}

/// The shape at an address, where that is one leaf; none where it is more, and where no shape stands there.
pub fn leaf_shape(source: &Source, at: usize) -> Option<LeafShape>
    ensures { MatchOption result ⊤ (λ leaf. Some (one_leaf leaf) ≡ item_shape_at (call_of source.now) at) }
{
    if !source.layout.is_data(at, 16) {
        return None;
    }
    let Some(part) = part_at(source, at + 4) else {
        return None;
    };
    if part.inside != 0 {
        return None;
    }
    Some(LeafShape {
        given: word_at(source.memory, at),
        dimensions: part.dimensions,
        leaf: word_at(source.memory, at + 12),
    })
}
