// Leaves of generations that were found, and the elements that they have.

ghost use Rattle.std.specs.Prelude.{◌≡◌, ◌+◌, ℕ, drop, MatchOption, ⊤};
ghost use Rattle.pli_typing.specs.Signatures.{capped};
ghost use Rattle.pli_meaning.specs.Streaming as streaming;
ghost use Rattle.pli_serving.specs.Templates.{shape_at};
ghost use Rattle.pli_signatures.specs.View.{kind_of};
ghost use Rattle.pli_storage.specs.Findings.{found_of};
ghost use Rattle.pli_aggregates.specs.Parts.{IsPlaced};

use crate::elements::LeafPlace;
use crate::record::Aggregate;
use pli_answering::reply::Refusal;
use pli_signatures::element::{ElementKind, LeafInForce};
use pli_storage::finding::Found;
use pli_storage::held::Held;
use pli_types::signature::Bounds;
use std::alloc::Global;

/// A leaf of a generation: as it is in force, and where it was placed.
#[derive(Drop)]
pub struct PlacedLeaf {
    pub in_force: LeafInForce,
    pub place: LeafPlace,
}

/// The sum of an address and a distance, where it is in memory.
fn base_of(at: usize, behind: u64, end: u32) -> Option<usize>
    ensures { (real : ℕ) → behind ≡ capped real → MatchOption result ⊤ (λ base. base ≡ at + real) }
{
    let base = (at as u64).checked_add(behind)?;
    if base > u64::from(end) {
        return None;
    }
    Some(base as usize)
}

/// Whether an element of a kind that was allocated holds the values of the kind in force.
pub fn kind_holds(allocated: ElementKind, in_force: ElementKind) -> bool
    ensures { result ≡ streaming.kind_holds (kind_of allocated) (kind_of in_force) }
{
    match allocated {
        ElementKind::Character { length: most } => match in_force {
            ElementKind::Character { length } => length <= most,
            _ => true,
        },
        _ => true,
    }
}

/// A leaf of an aggregate's generation, none where it has no such leaf. `Memory` where it doesn't begin in memory.
pub fn placed_leaf(
    alloc: Global,
    held: &Held,
    aggregate: Aggregate,
    found: Found,
    leaf: u32,
) -> Result<Option<PlacedLeaf>, Refusal>
    ensures { IsPlaced (shape_at held.now.signatures aggregate.signature) aggregate.extent leaf (found_of found) held.now.layout.end result }
{
    let signatures = &held.signatures;
    let Some(behind) = signatures.leaf_place(aggregate.signature, leaf) else {
        return Ok(None);
    };
    let Some(in_force) = signatures.leaf(alloc, aggregate.signature, leaf, aggregate.extent)? else {
        return Ok(None);
    };
    let Some(allocated) = signatures.leaf(alloc, aggregate.signature, leaf, found.extent)? else {
        return Ok(None);
    };
    let Some(base) = base_of(found.at, behind, held.layout.end) else {
        return Err(Refusal::Memory);
    };
    let bytes = in_force.kind.value_bytes();
    let place = LeafPlace {
        base,
        allocated,
        bytes,
        end: held.layout.end,
    };
    Ok(Some(PlacedLeaf { in_force, place }))
}

/// The bounds behind so many, none where there aren't more.
#[tactic(auto, using(crate::proofs::Running::shorter))]
pub fn behind<'a>(bounds: &'a [Bounds], count: usize) -> &'a [Bounds]
    ensures { result.now ≡ drop count bounds.now }
{
    &bounds[count.min(bounds.len())..]
}
