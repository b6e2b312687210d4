// The subscripts of an element, by its place among all.

ghost use Rattle.std.specs.Prelude.{◌≡◌, ◌<◌, ◌+ℤ◌, IfOk, map, option_map, pos, slice_get};
ghost use Rattle.pli_typing.specs.Signatures.{span};
ghost use Rattle.pli_types.specs.View.{pair_of};
ghost use Rattle.pli_serving.specs.Values.{all_subscripts};

use pli_signatures::element::span;
use pli_types::signature::Bounds;
use smallvec::SmallVec;
use std::alloc::{AllocError, Global};

/// The subscript that stands so far behind the lower bound.
fn subscript_behind(bounds: Bounds, distance: u64) -> i32
    requires { distance < span (pair_of bounds) }
    ensures { result ≡ (pair_of bounds).lower +ℤ pos distance }
{
    (i64::from(bounds.lower) + distance as i64) as i32
}

/// The subscripts at a place, counted from 0, among those of all elements, row by row. `None` where there are not so many elements.
pub fn subscripts_at(
    alloc: Global,
    dimensions: &[Bounds],
    place: u64,
) -> Result<Option<SmallVec<i32, 8>>, AllocError>
    ensures { IfOk result (λ o. option_map (λ subscripts. subscripts.items) o ≡ slice_get (all_subscripts (map pair_of dimensions.now)) place) }
{
    let mut subscripts = SmallVec::new(alloc);
    let mut rows = place;
    let mut left = dimensions.len();
    while left > 0 {
        left -= 1;
        let bounds = dimensions[left];
        let elements = span(bounds);
        if elements == 0 {
            return Ok(None);
        }
        subscripts.push(subscript_behind(bounds, rows % elements))?;
        rows /= elements;
    }
    if rows > 0 {
        return Ok(None);
    }
    subscripts.reverse();
    Ok(Some(subscripts))
}
