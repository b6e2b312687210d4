// What extents may be.

ghost use Rattle.std.specs.Prelude.{◌≡◌, map, Bool, ℤ, Option, pos};
ghost use Rattle.std.specs.List.{flat_map};
ghost use Rattle.pli_language.specs.Declaring.{may_be_star, may_be_open, refer_is_bad_extent, use_of, is_below, is_outside, extent_is_bad, pair_is_bad, bound_faults, longest_text, size_faults, is_negative, attribute_extent_faults, extent_faults};
ghost use Rattle.pli_language.specs.Refusals.{soonest};
ghost use Rattle.pli_language.specs.View.{attribute_of, bound_of, extent_of, name_of, option_of, size_of};
ghost use Rattle.pli_declare.specs.Shown.{held_of};
ghost use Rattle.pli_declaring.specs.Shown.{use_shown};

use crate::attribute::{Row, has};
use crate::constant::{constant, place_of};
use crate::held::{class_attributes, is_parameter, own_attributes};
use crate::least::noted;
use pli_declare::scope::Held;
use pli_language::declaration::{Attribute, Bound, Extent, Size};
use pli_language::expr::Name;
use pli_language::fault::{SourceFault, SourceKind};

/// What an extent is for: what a parameter is passed, what is evaluated at entry or ALLOCATE, what STATIC or BASED keeps,
/// what is returned.
#[derive(Clone, Copy)]
pub enum Use {
    Passed,
    Evaluated,
    Kept,
    Returned,
}

fn may_be_star(way: Use) -> bool
    ensures { result ≡ may_be_star (use_shown way) }
{
    matches!(way, Use::Passed)
}

fn may_be_open(way: Use) -> bool
    ensures { result ≡ may_be_open (use_shown way) }
{
    matches!(way, Use::Evaluated)
}

/// REFER is judged by a rule of its own where a generation keeps the extent.
fn refer_is_bad_extent(way: Use) -> bool
    ensures { result ≡ refer_is_bad_extent (use_shown way) }
{
    matches!(way, Use::Passed | Use::Returned)
}

/// What the extents of a variable are for.
pub fn use_of(parameters: &[Name], held: &Held) -> Use
    ensures { use_shown result ≡ use_of (map name_of parameters.now) (held_of held.now) }
{
    let class = class_attributes(held);
    if is_parameter(parameters, held) {
        Use::Passed
    } else if has(Row::Static, class) || has(Row::Based, class) {
        Use::Kept
    } else {
        Use::Evaluated
    }
}

/// An extent that must be constant isn't, or must have no REFER.
fn extent_is_bad(way: Use, extent: &Extent) -> bool
    ensures { result ≡ extent_is_bad (use_shown way) (extent_of extent.now) }
{
    if extent.refer.is_some() {
        return refer_is_bad_extent(way);
    }
    !may_be_open(way) && constant(&extent.value).is_none()
}

/// A constant upper bound stands below the lower one.
fn pair_is_bad(lower: Option<i128>, upper: Option<i128>) -> bool
    ensures { result ≡ pair_is_bad lower upper }
{
    match (lower, upper) {
        (Some(low), Some(high)) => high < low,
        _ => false,
    }
}

/// What a dimension breaks.
#[tactic(auto, using(crate::proofs::Faults::faults))]
fn noted_bound(found: Option<SourceFault>, way: Use, bound: &Bound) -> Option<SourceFault>
    ensures { result ≡ soonest found (bound_faults (use_shown way) (bound_of bound.now)) }
{
    match bound {
        Bound::Star { place } => noted(found, !may_be_star(way), *place, SourceKind::BadExtent),
        Bound::Upper(upper) => {
            let broken = extent_is_bad(way, upper) || pair_is_bad(Some(1), constant(&upper.value));
            noted(found, broken, place_of(&upper.value), SourceKind::BadExtent)
        }
        Bound::Both { lower, upper } => {
            let place = place_of(&lower.value);
            let found = noted(
                found,
                extent_is_bad(way, lower),
                place,
                SourceKind::BadExtent,
            );
            let pair = pair_is_bad(constant(&lower.value), constant(&upper.value));
            let broken = extent_is_bad(way, upper) || pair;
            noted(found, broken, place_of(&upper.value), SourceKind::BadExtent)
        }
    }
}

/// What dimensions break.
#[tactic(auto, using(crate::proofs::Faults::steps))]
fn noted_bounds(found: Option<SourceFault>, way: Use, bounds: &[Bound]) -> Option<SourceFault>
    ensures { result ≡ soonest found (flat_map (bound_faults (use_shown way)) (map bound_of bounds.now)) }
{
    let mut found = found;
    for bound in bounds {
        found = noted_bound(found, way, bound);
    }
    found
}

/// A constant length is below 0 or too long.
fn is_outside(length: Option<i128>) -> bool
    ensures { result ≡ is_outside (pos 0) longest_text length }
{
    match length {
        Some(length) => length < 0 || 1024 < length,
        None => false,
    }
}

/// A constant size is below 0.
fn is_negative(size: Option<i128>) -> bool
    ensures { result ≡ is_negative size }
{
    match size {
        Some(size) => size < 0,
        None => false,
    }
}

/// What a text's length breaks.
#[tactic(auto, using(crate::proofs::Faults::faults))]
fn noted_length(found: Option<SourceFault>, way: Use, size: &Option<Size>) -> Option<SourceFault>
    ensures { result ≡ soonest found (size_faults (use_shown way) (is_outside (pos 0) longest_text) (option_of size_of size.now)) }
{
    match size {
        None => found,
        Some(Size::Star { place }) => noted(
            found,
            !may_be_star(way),
            *place,
            SourceKind::BadExtent,
        ),
        Some(Size::Given(extent)) => {
            let broken = extent_is_bad(way, extent) || is_outside(constant(&extent.value));
            noted(
                found,
                broken,
                place_of(&extent.value),
                SourceKind::BadExtent,
            )
        }
    }
}

/// What an area's size breaks.
#[tactic(auto, using(crate::proofs::Faults::faults))]
fn noted_size(found: Option<SourceFault>, way: Use, size: &Option<Size>) -> Option<SourceFault>
    ensures { result ≡ soonest found (size_faults (use_shown way) is_negative (option_of size_of size.now)) }
{
    match size {
        None => found,
        Some(Size::Star { place }) => noted(
            found,
            !may_be_star(way),
            *place,
            SourceKind::BadExtent,
        ),
        Some(Size::Given(extent)) => {
            let broken = extent_is_bad(way, extent) || is_negative(constant(&extent.value));
            noted(
                found,
                broken,
                place_of(&extent.value),
                SourceKind::BadExtent,
            )
        }
    }
}

/// What the extent of an attribute breaks.
#[tactic(auto, using(crate::proofs::Faults::faults))]
fn noted_attribute(
    found: Option<SourceFault>,
    way: Use,
    attribute: &Attribute,
) -> Option<SourceFault>
    ensures { result ≡ soonest found (attribute_extent_faults (use_shown way) (attribute_of attribute.now)) }
{
    match attribute {
        Attribute::Character(size) => noted_length(found, way, size),
        Attribute::Area(size) => noted_size(found, way, size),
        _ => found,
    }
}

/// What the extents of attributes break.
#[tactic(auto, using(crate::proofs::Faults::steps))]
pub fn noted_attributes(
    found: Option<SourceFault>,
    way: Use,
    attributes: &[Attribute],
) -> Option<SourceFault>
    ensures { result ≡ soonest found (flat_map (attribute_extent_faults (use_shown way)) (map attribute_of attributes.now)) }
{
    let mut found = found;
    for attribute in attributes {
        found = noted_attribute(found, way, attribute);
    }
    found
}

/// What the extents of a variable break.
#[tactic(auto, using(crate::proofs::Faults::faults))]
pub fn noted_extents(
    found: Option<SourceFault>,
    parameters: &[Name],
    held: &Held,
) -> Option<SourceFault>
    ensures { result ≡ soonest found (extent_faults (map name_of parameters.now) (held_of held.now)) }
{
    let way = use_of(parameters, held);
    let found = noted_bounds(found, way, &held.variable.declared.dimensions);
    let found = noted_bounds(found, way, &held.variable.item.dimensions);
    noted_attributes(found, way, own_attributes(held))
}
