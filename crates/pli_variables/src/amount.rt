// What is found in the place of an extent: a constant, or one of what is evaluated.

ghost use Rattle.std.specs.Prelude.{◌≡◌, length, map};
ghost use Rattle.pli_typing.specs.TypedStatementView.{check_of as check_typed};
ghost use Rattle.pli_typing.specs.TypedView.{bounds_of as bounds_typed, extent_of as extent_typed};
ghost use Rattle.pli_typing.specs.Variables.{amount_of, bounds_of, check_of, extent_of, index_where, size_of_area, size_of_text};
ghost use Rattle.pli_language.specs.View.{attribute_of, bound_of, option_of, size_of};
ghost use Rattle.pli_language.specs.View.{extent_of as extent_written};
ghost use Rattle.pli_variables.specs.Written.{all_shown, area_size, check_shown, given_size, stands_at, text_size};

use crate::extent::{WrittenCheck, WrittenExtent, stands_at};
use pli_declaring::constant::{constant, place_of};
use pli_language::declaration::{Attribute, Bound, Extent as Written, Size};
use pli_language::expr::Place;
use pli_typing::typed::{Bounds, Check, Extent};

/// Which of these extents is written at a place, or how many they are.
#[tactic(auto, using(crate::proofs::Amounts::found))]
fn index_of(place: Place, written: &[WrittenExtent]) -> usize
    ensures { result ≡ index_where (stands_at place) (all_shown written.now) }
{
    for (i, extent) in written.iter().enumerate() {
        if stands_at(place, extent) {
            return i;
        }
    }
    written.len()
}

/// What an extent is, without what keeps it.
pub fn amount_of(written: &[WrittenExtent], extent: &Written) -> Extent
    ensures { extent_typed result ≡ amount_of (all_shown written.now) (extent_written extent.now) }
{
    match constant(&extent.value) {
        Some(value) => Extent::Constant(value),
        None => Extent::Evaluated(index_of(place_of(&extent.value), written)),
    }
}

/// What an extent is, or that a member of the generation tells it.
fn extent_of(written: &[WrittenExtent], extent: &Written) -> Extent
    ensures { extent_typed result ≡ extent_of (all_shown written.now) (extent_written extent.now) }
{
    if extent.refer.is_some() {
        Extent::Refer
    } else {
        amount_of(written, extent)
    }
}

/// The bounds of a dimension.
pub fn bounds_of(written: &[WrittenExtent], bound: &Bound) -> Bounds
    ensures { bounds_typed result ≡ bounds_of (extent_of (all_shown written.now)) (bound_of bound.now) }
{
    match bound {
        Bound::Star { .. } => Bounds {
            lower: Extent::Star,
            upper: Extent::Star,
        },
        Bound::Upper(upper) => Bounds {
            lower: Extent::Constant(1),
            upper: extent_of(written, upper),
        },
        Bound::Both { lower, upper } => Bounds {
            lower: extent_of(written, lower),
            upper: extent_of(written, upper),
        },
    }
}

/// The bounds of a dimension, without what keeps them.
fn amounts_of(written: &[WrittenExtent], bound: &Bound) -> Bounds
    ensures { bounds_typed result ≡ bounds_of (amount_of (all_shown written.now)) (bound_of bound.now) }
{
    match bound {
        Bound::Star { .. } => Bounds {
            lower: Extent::Star,
            upper: Extent::Star,
        },
        Bound::Upper(upper) => Bounds {
            lower: Extent::Constant(1),
            upper: amount_of(written, upper),
        },
        Bound::Both { lower, upper } => Bounds {
            lower: amount_of(written, lower),
            upper: amount_of(written, upper),
        },
    }
}

/// What is checked behind an extent.
pub fn check_of(written: &[WrittenExtent], check: &WrittenCheck) -> Check
    ensures { check_typed result ≡ check_of (all_shown written.now) (check_shown check.now) }
{
    match check {
        WrittenCheck::Nothing => Check::None,
        WrittenCheck::Length => Check::Length,
        WrittenCheck::Size => Check::Size,
        WrittenCheck::Bounds(bound) => Check::Bounds(amounts_of(written, bound)),
    }
}

/// What a length or a size is, where one is written.
fn given_size(written: &[WrittenExtent], size: &Option<Size>) -> Option<Extent>
    ensures { option_of extent_typed result ≡ given_size (all_shown written.now) (option_of size_of size.now) }
{
    match size {
        Some(Size::Given(extent)) => Some(extent_of(written, extent)),
        Some(Size::Star { .. }) => Some(Extent::Star),
        None => None,
    }
}

/// The length that an attribute gives a text.
fn text_size(written: &[WrittenExtent], attribute: &Attribute) -> Option<Extent>
    ensures { option_of extent_typed result ≡ text_size (all_shown written.now) (attribute_of attribute.now) }
{
    match attribute {
        Attribute::Character(size) => given_size(written, size),
        _ => None,
    }
}

/// The size that an attribute gives an area.
fn area_size(written: &[WrittenExtent], attribute: &Attribute) -> Option<Extent>
    ensures { option_of extent_typed result ≡ area_size (all_shown written.now) (attribute_of attribute.now) }
{
    match attribute {
        Attribute::Area(size) => given_size(written, size),
        _ => None,
    }
}

/// The length of a text, which is 1 where none is written.
#[tactic(auto, using(crate::proofs::Amounts::sizes))]
pub fn size_of_text(written: &[WrittenExtent], attributes: &[Attribute]) -> Extent
    ensures { extent_typed result ≡ size_of_text (all_shown written.now) (map attribute_of attributes.now) }
{
    for attribute in attributes {
        if let Some(size) = text_size(written, attribute) {
            return size;
        }
    }
    Extent::Constant(1)
}

/// The size of an area, which is 1000 where none is written.
#[tactic(auto, using(crate::proofs::Amounts::sizes))]
pub fn size_of_area(written: &[WrittenExtent], attributes: &[Attribute]) -> Extent
    ensures { extent_typed result ≡ size_of_area (all_shown written.now) (map attribute_of attributes.now) }
{
    for attribute in attributes {
        if let Some(size) = area_size(written, attribute) {
            return size;
        }
    }
    Extent::Constant(1000)
}
