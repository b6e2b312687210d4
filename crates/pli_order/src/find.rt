// The element of a shape that has a number.

ghost use Rattle.std.specs.Prelude.{◌≡◌, List, IfOk, length, map, option_map, slice_get};
ghost use Rattle.pli_meaning.specs.StreamOrder.{elements_inside};
ghost use Rattle.pli_shapes.specs.Nests.{nest_in};
ghost use Rattle.pli_shapes.specs.declared.part.Part.{Part};
ghost use Rattle.pli_signatures.specs.View.{leaf_in_force};
ghost use Rattle.pli_order.specs.Orders.{IsOrder, element_shown};

use crate::counts::counts;
use crate::notes::Order;
use crate::walk::{Element, Step, Walk};
use pli_signatures::element::LeafInForce;
use smallvec::SmallVec;
use std::alloc::{AllocError, Global};

/// A walk before all parts.
fn begun(alloc: Global, given: &[i32], left: usize, number: u64) -> Result<Walk, AllocError>
    ensures place { IfOk result (λ walk. walk.place ≡ 0) }
    ensures left { IfOk result (λ walk. walk.left ≡ left) }
    ensures number { IfOk result (λ walk. walk.number ≡ number) }
    ensures subscripts { IfOk result (λ walk. walk.subscripts.items ≡ given.now) }
{
    let subscripts = SmallVec::from_slice(alloc, given)?;
    Ok(Walk {
        place: 0,
        left,
        number,
        subscripts,
    })
}

/// The element of a number, counted from 0, behind the subscripts given; none where there are fewer. The leaves are those of the shape.
/// No element before it is looked at. The greatest number is want of memory, since as many elements aren't told from more.
pub fn element_at(
    alloc: Global,
    order: &Order,
    leaves: &[LeafInForce],
    given: &[i32],
    number: u64,
) -> Result<Option<Element>, AllocError>
    ensures { (parts : List Part) → IsOrder parts (length given.now) order.now →
        IfOk result (λ o. option_map element_shown o ≡ slice_get (elements_inside (nest_in parts) 0 (map leaf_in_force leaves.now) given.now) number) }
{
    if number == u64::MAX {
        return Err(AllocError);
    }
    let notes = order.notes.as_slice();
    let counts = counts(alloc, notes, leaves)?;
    let mut walk = begun(alloc, given, notes.len(), number)?;
    'parts: loop {
        match walk.step(alloc, notes, counts.as_slice(), leaves)? {
            Step::On => {}
            Step::Found(element) => return Ok(Some(element)),
            Step::Nothing => return Ok(None),
        }
    }
}
