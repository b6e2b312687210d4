// Leaves of an aggregate, from one on.

ghost use Rattle.std.specs.Prelude.{◌≡◌, ◌+◌, ◌<◌, ◌≤◌, Some, None, IfOk, MatchOption, length, option_map};
ghost use Rattle.pli_serving.specs.Templates.{shape_at};
ghost use Rattle.pli_signatures.specs.View.{leaf_in_force};
ghost use Rattle.pli_signatures.specs.Whole.{leaf_in};
ghost use Rattle.pli_elements.specs.Items.{AreLeaves, IsMissing};

use pli_aggregates::record::Aggregate;
use pli_signatures::element::LeafInForce;
use pli_storage::held::Held;
use std::alloc::{AllocError, Global};

/// A leaf of a whole signature with an extent, none where it isn't there.
pub fn leaf_with(
    alloc: Global,
    held: &Held,
    signature: u32,
    leaf: u32,
    extent: i32,
) -> Result<Option<LeafInForce>, AllocError>
    ensures { IfOk result (λ o. option_map leaf_in_force o ≡ leaf_in (shape_at held.now.signatures signature) leaf extent) }
{
    held.signatures.leaf(alloc, signature, leaf, extent)
}

/// A leaf of an aggregate, none where it isn't there.
pub fn leaf_at(
    alloc: Global,
    held: &Held,
    aggregate: Aggregate,
    leaf: u32,
) -> Result<Option<LeafInForce>, AllocError>
    ensures { IfOk result (λ o. option_map leaf_in_force o ≡ leaf_in (shape_at held.now.signatures aggregate.signature) leaf aggregate.extent) }
{
    leaf_with(alloc, held, aggregate.signature, leaf, aggregate.extent)
}

/// The leaf that stands so many behind another. Refused where no register has its number.
fn nth_leaf(
    alloc: Global,
    held: &Held,
    aggregate: Aggregate,
    first: u32,
    number: u32,
) -> Result<Option<LeafInForce>, AllocError>
    ensures { IfOk result (λ o. option_map leaf_in_force o ≡ leaf_in (shape_at held.now.signatures aggregate.signature) (first + number) aggregate.extent) }
{
    match first.checked_add(number) {
        Some(leaf) => leaf_at(alloc, held, aggregate, leaf),
        None => Err(AllocError),
    }
}

/// So many leaves from one on, none where not all are there.
pub fn leaves_from(
    alloc: Global,
    held: &Held,
    aggregate: Aggregate,
    first: u32,
    count: u32,
) -> Result<Option<Vec<LeafInForce>>, AllocError>
    ensures leaves { IfOk result (λ o. MatchOption o (IsMissing (shape_at held.now.signatures aggregate.signature) aggregate.extent first count) (λ leaves. AreLeaves (shape_at held.now.signatures aggregate.signature) aggregate.extent first leaves.items)) }
    ensures many { IfOk result (λ o. MatchOption o (0 ≤ count) (λ leaves. length leaves.items ≡ count)) }
{
    let mut leaves = Vec::new(alloc);
    for number in 0..count {
        let found = nth_leaf(alloc, held, aggregate, first, number)?;
        match found {
            Some(next) => leaves.push(next)?,
            None => return Ok(None),
        }
    }
    Ok(Some(leaves))
}
