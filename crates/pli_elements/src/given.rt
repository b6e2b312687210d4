// The subscripts that are given of an aggregate.

ghost use Rattle.std.specs.Prelude.{◌≡◌, Some, IfOk, map, option_map};
ghost use Rattle.pli_meaning.specs.Contents.{Shape};
ghost use Rattle.pli_serving.specs.Aggregates.{subscripts_given};
ghost use Rattle.pli_serving.specs.Templates.{shape_at};
ghost use Rattle.pli_types.specs.View.{pair_of};
ghost use Rattle.pli_aggregates.specs.Records.{record_shown};
ghost use Rattle.pli_elements.specs.Items.{given_by};

use pli_aggregates::record::Aggregate;
use pli_storage::held::Held;
use pli_types::signature::Bounds;
use pli_values::subscripts::subscripts_at;
use smallvec::SmallVec;
use std::alloc::{AllocError, Global};

/// The subscripts at a place among those of so many first dimensions, row by row. None where there are fewer dimensions; none are given
/// whatever the place.
#[tactic(auto, using(crate::proofs::Giving::none_given, crate::proofs::Giving::given_none, crate::proofs::Giving::given_some))]
pub fn subscripts_in(
    alloc: Global,
    bounds: &[Bounds],
    given: u32,
    place: u32,
) -> Result<Option<SmallVec<i32, 8>>, AllocError>
    ensures { IfOk result (λ o. option_map (λ subscripts. subscripts.items) o ≡ given_by (map pair_of bounds.now) place given) }
{
    if given as usize > bounds.len() {
        return Ok(None);
    }
    if given == 0 {
        return Ok(Some(SmallVec::new(alloc)));
    }
    subscripts_at(alloc, &bounds[..given as usize], u64::from(place))
}

/// So many subscripts as they are given to a leaf of an aggregate. One that isn't there has no dimensions.
#[tactic(auto, using(crate::proofs::Giving::given_nothing))]
pub fn subscripts_of(
    alloc: Global,
    held: &Held,
    aggregate: Aggregate,
    leaf: u32,
    given: u32,
) -> Result<Option<SmallVec<i32, 8>>, AllocError>
    ensures { (s : Shape) → shape_at held.now.signatures aggregate.signature ≡ Some s → IfOk result (λ o. option_map (λ subscripts. subscripts.items) o ≡ subscripts_given (record_shown aggregate s) leaf given) }
{
    if given == 0 {
        return Ok(Some(SmallVec::new(alloc)));
    }
    let signatures = &held.signatures;
    let found = signatures.leaf(alloc, aggregate.signature, leaf, aggregate.extent)?;
    match found {
        Some(found) => subscripts_in(alloc, found.bounds.as_slice(), given, aggregate.place),
        None => subscripts_in(alloc, &[], given, aggregate.place),
    }
}
