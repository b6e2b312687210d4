// The elements that a shape has in an aggregate.

ghost use Rattle.std.specs.Prelude.{◌≡◌, Some, IfOk};
ghost use Rattle.pli_meaning.specs.Contents.{Shape};
ghost use Rattle.pli_serving.specs.ElementService.{elements_by};
ghost use Rattle.pli_serving.specs.Finding.{Call};
ghost use Rattle.pli_serving.specs.Templates.{shape_at};
ghost use Rattle.pli_shapes.specs.Members.{shape_of};
ghost use Rattle.pli_aggregates.specs.Records.{record_shown};
ghost use Rattle.pli_elements.specs.Items.{IsItemIf, IsLeavesIf};

use crate::given::subscripts_of;
use crate::leaves::leaves_from;
use pli_aggregates::record::Aggregate;
use pli_answering::reply::Refusal;
use pli_order::notes::{Order, order_of};
use pli_shapes::shape::ItemShape;
use pli_signatures::element::LeafInForce;
use pli_storage::held::Held;
use smallvec::SmallVec;
use std::alloc::{AllocError, Global};

/// Elements of an aggregate: the subscripts given, the order of the parts, and the leaves of these, from the first one on.
#[derive(Drop)]
pub struct Item {
    pub first: u32,
    pub given: SmallVec<i32, 8>,
    pub order: Order,
    pub leaves: Vec<LeafInForce>,
}

/// The leaves of a shape's parts, none where not all are there. Refused where there is none, as in no shape.
fn leaves_of(
    alloc: Global,
    held: &Held,
    aggregate: Aggregate,
    first: u32,
    count: usize,
) -> Result<Option<Vec<LeafInForce>>, AllocError>
    ensures { IfOk result (λ o. IsLeavesIf (shape_at held.now.signatures aggregate.signature) aggregate.extent first count o) }
{
    if count == 0 || count > u32::MAX as usize {
        return Err(AllocError);
    }
    leaves_from(alloc, held, aggregate, first, count as u32)
}

/// The elements that a shape has in an aggregate, none where a leaf or a dimension isn't there.
pub fn item_of(
    alloc: Global,
    held: &Held,
    aggregate: Aggregate,
    shape: &ItemShape,
) -> Result<Option<Item>, Refusal>
    ensures { (c : Call) → (s : Shape) → shape_at held.now.signatures aggregate.signature ≡ Some s →
        IsItemIf (elements_by c (record_shown aggregate s) (shape_of shape.now)) shape.now.parts.items result }
{
    let Some(given) = subscripts_of(alloc, held, aggregate, shape.first, shape.given)? else {
        return Ok(None);
    };
    let order = order_of(alloc, shape.parts.as_slice(), given.len())?;
    let Some(leaves) = leaves_of(alloc, held, aggregate, shape.first, order.leaves)? else {
        return Ok(None);
    };
    Ok(Some(Item {
        first: shape.first,
        given,
        order,
        leaves,
    }))
}
