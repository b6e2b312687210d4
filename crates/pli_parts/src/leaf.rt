// Leaves of a part of a generation, with their elements.

ghost use Rattle.std.specs.Prelude.{◌≡◌, Ok, Some, drop, length, map, IfOk, MatchOption};
ghost use Rattle.pli_meaning.specs.Contents.{Shape};
ghost use Rattle.pli_serving.specs.Templates.{shape_at};
ghost use Rattle.pli_signatures.specs.View.{leaf_in_force};
ghost use Rattle.pli_storage.specs.Findings.{found_of};
ghost use Rattle.pli_types.specs.View.{pair_of};
ghost use Rattle.pli_parts.specs.Leaves.{IsHeldIf, IsLeafFound};

use pli_aggregates::part::{PlacedLeaf, behind, placed_leaf};
use pli_aggregates::record::Aggregate;
use pli_aggregates::runs::Run;
use pli_answering::reply::Refusal;
use pli_signatures::element::ElementKind;
use pli_storage::finding::Found;
use pli_storage::held::Held;
use pli_types::signature::Bounds;
use smallvec::SmallVec;
use std::alloc::{AllocError, Global};

/// A leaf of a part: its kind in force, the bounds behind the subscripts given, and where its elements stand.
#[derive(Drop)]
pub struct PartLeaf {
    pub kind: ElementKind,
    pub bounds: SmallVec<Bounds, 8>,
    pub run: Run,
}

/// A leaf that was placed, with the bounds that are left, and these elements.
fn leaf_with(
    alloc: Global,
    placed: &PlacedLeaf,
    given: &[i32],
    run: Run,
) -> Result<PartLeaf, AllocError>
    ensures kind { IfOk result (λ leaf. leaf.kind ≡ placed.now.in_force.kind) }
    ensures bounds { IfOk result (λ leaf. map pair_of leaf.bounds.items ≡ drop (length given.now) (leaf_in_force placed.now.in_force).bounds) }
    ensures run { IfOk result (λ leaf. leaf.run ≡ run) }
{
    let left = behind(placed.in_force.bounds.as_slice(), given.len());
    let bounds = SmallVec::from_slice(alloc, left)?;
    Ok(PartLeaf {
        kind: placed.in_force.kind,
        bounds,
        run,
    })
}

/// What a placed leaf has behind the subscripts given, none where it hasn't all of its elements in full.
fn leaf_held(alloc: Global, placed: &PlacedLeaf, given: &[i32]) -> Result<Option<PartLeaf>, Refusal>
    ensures { IsHeldIf placed.now given.now result }
{
    let found = placed.run(given)?;
    match found {
        Some(run) => {
            let leaf = leaf_with(alloc, placed, given, run)?;
            Ok(Some(leaf))
        }
        None => Ok(None),
    }
}

/// The same of a leaf that may not be there.
fn leaf_if(
    alloc: Global,
    placed: Option<PlacedLeaf>,
    given: &[i32],
) -> Result<Option<PartLeaf>, Refusal>
    ensures { MatchOption placed (result ≡ Ok None) (λ p. IsHeldIf p given.now result) }
{
    match placed {
        Some(placed) => leaf_held(alloc, &placed, given),
        None => Ok(None),
    }
}

/// A leaf of an aggregate's generation with its elements behind the subscripts given. None where there is no such leaf, or it hasn't all
/// of these in full. `Memory` where they aren't in memory.
pub fn part_leaf(
    alloc: Global,
    held: &Held,
    aggregate: Aggregate,
    found: Found,
    leaf: u32,
    given: &[i32],
) -> Result<Option<PartLeaf>, Refusal>
    ensures { (s : Shape) → shape_at held.now.signatures aggregate.signature ≡ Some s → IsLeafFound s aggregate.extent (found_of found) given.now held.now.layout.end leaf result }
{
    match placed_leaf(alloc, held, aggregate, found, leaf) {
        Ok(placed) => leaf_if(alloc, placed, given),
        Err(_) => Err(Refusal::Memory),
    }
}
