// The rows of parts, and their subscripts.

ghost use Rattle.std.specs.Prelude.{◌≡◌, ◌<◌, ◌≤◌, ◌++◌, IfOk, MatchOption, drop, length, map, option_map, slice_get, take};
ghost use Rattle.pli_typing.specs.Signatures.{capped};
ghost use Rattle.pli_types.specs.View.{pair_of};
ghost use Rattle.pli_meaning.specs.StreamOrder.{bounds_of_leaf, with_more};
ghost use Rattle.pli_signatures.specs.View.{leaf_in_force};
ghost use Rattle.pli_order.specs.Counts.{row_count};

use pli_signatures::element::{LeafInForce, element_count};
use pli_types::signature::Bounds;
use pli_values::subscripts::subscripts_at;
use smallvec::SmallVec;
use std::alloc::{AllocError, Global};

/// The bounds of a leaf, none where it isn't there.
pub fn bounds_of<'a>(leaves: &'a [LeafInForce], leaf: usize) -> &'a [Bounds]
    ensures { map pair_of result.now ≡ bounds_of_leaf (map leaf_in_force leaves.now) leaf }
{
    match leaves.get(leaf) {
        Some(found) => found.bounds.as_slice(),
        None => &[],
    }
}

/// The bounds behind so many, none where there aren't more.
#[tactic(auto, using(crate::proofs::Bounding::none_behind))]
fn behind<'a>(bounds: &'a [Bounds], count: usize) -> &'a [Bounds]
    ensures { result.now ≡ drop count bounds.now }
{
    if count > bounds.len() {
        return &[];
    }
    &bounds[count..]
}

/// The first bounds of so many dimensions, none where there are fewer.
fn first<'a>(bounds: &'a [Bounds], dimensions: u32) -> Option<&'a [Bounds]>
    ensures { MatchOption result (length bounds.now < dimensions) (λ own. (dimensions ≤ length bounds.now) × (own.now ≡ take dimensions bounds.now)) }
{
    if dimensions as usize > bounds.len() {
        return None;
    }
    Some(&bounds[..dimensions as usize])
}

/// The rows of so many dimensions behind others, none where there are fewer; `u64::MAX` where there are more.
#[tactic(auto, using(crate::proofs::Bounding::rows_counted, crate::proofs::Bounding::rows_missing))]
pub fn row_count(bounds: &[Bounds], before: usize, dimensions: u32) -> u64
    ensures { result ≡ capped (row_count dimensions (map pair_of bounds.now) before) }
{
    match first(behind(bounds, before), dimensions) {
        Some(own) => element_count(own),
        None => 0,
    }
}

/// Subscripts behind those that are given.
fn joined(alloc: Global, given: &[i32], more: &[i32]) -> Result<SmallVec<i32, 8>, AllocError>
    ensures { IfOk result (λ all. all.items ≡ given.now ++ more.now) }
{
    let mut all = SmallVec::from_slice(alloc, given)?;
    all.extend_from_slice(more)?;
    Ok(all)
}

/// The subscripts of a row of so many dimensions, by its number, behind those that are given. None where there are fewer rows.
pub fn row_at(
    alloc: Global,
    bounds: &[Bounds],
    given: &[i32],
    dimensions: u32,
    row: u64,
) -> Result<Option<SmallVec<i32, 8>>, AllocError>
    ensures { IfOk result (λ o. option_map (λ subscripts. subscripts.items) o ≡ slice_get (with_more dimensions (map pair_of bounds.now) given.now) row) }
{
    let Some(own) = first(behind(bounds, given.len()), dimensions) else {
        return Ok(None);
    };
    let Some(more) = subscripts_at(alloc, own, row)? else {
        return Ok(None);
    };
    let all = joined(alloc, given, more.as_slice())?;
    Ok(Some(all))
}
