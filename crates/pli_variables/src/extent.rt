// Extents as they are written in declarations, and what is found in their place.

ghost use Rattle.std.specs.Prelude.{◌≡◌, ◌++◌, ◌≤◌, length, map, IfOk, IfSome, OnOk};
ghost use Rattle.std.specs.List.{flat_map};
ghost use Rattle.pli_typing.specs.Variables.{if_open, in_order, is_open, open_in, open_in_attribute, open_in_bound, open_in_size, with_extent, written_extents};
ghost use Rattle.pli_language.specs.View.{attribute_of, bound_of, expr_of, option_of, size_of};
ghost use Rattle.pli_declare.specs.Shown.{held_of, variable_of};
ghost use Rattle.pli_language.specs.Declarations.{dimensions_of};
ghost use Rattle.pli_variables.specs.Written.{all_shown, check_behind, check_shown, extent_shown, goes_before, put_at, stands_at};

use pli_declare::scope::{Held, Variable};
use pli_declaring::constant::{constant, place_of};
use pli_language::declaration;
use pli_language::declaration::{Attribute, Bound, Size};
use pli_language::expr::{Expr, Place};
use pli_typing::typed::Bounds;
use std::alloc::{AllocError, Global};

/// What is checked behind an extent: a length, a size, or the bounds of a dimension where the last open one of them is known.
#[derive(Clone, Copy)]
pub enum WrittenCheck<'a> {
    Nothing,
    Length,
    Size,
    Bounds(&'a Bound),
}

/// An extent that isn't constant, with its check.
#[derive(Clone, Copy)]
pub struct WrittenExtent<'a> {
    pub value: &'a Expr,
    pub check: WrittenCheck<'a>,
}

/// The expression isn't constant.
fn is_open(expression: &Expr) -> bool
    ensures { result ≡ is_open (expr_of expression.now) }
{
    constant(expression).is_none()
}

/// An extent with its check, where it isn't constant.
fn put_open<'a>(
    out: &mut Vec<WrittenExtent<'a>>,
    value: &'a Expr,
    check: WrittenCheck<'a>,
) -> Result<(), AllocError>
    ensures { OnOk result (all_shown out.new.items ≡ all_shown out.old.items ++ if_open (expr_of value.now) (check_shown check.entry)) }
{
    if is_open(value) {
        out.push(WrittenExtent { value, check })?;
    }
    Ok(())
}

/// What is checked behind a lower bound, where this is the upper one.
fn check_behind<'a>(bound: &'a Bound, upper: &Expr) -> WrittenCheck<'a>
    ensures { check_shown result ≡ check_behind (bound_of bound.now) (expr_of upper.now) }
{
    if is_open(upper) {
        WrittenCheck::Nothing
    } else {
        WrittenCheck::Bounds(bound)
    }
}

/// The open extents of a dimension.
fn put_open_in_bound<'a>(
    out: &mut Vec<WrittenExtent<'a>>,
    bound: &'a Bound,
) -> Result<(), AllocError>
    ensures { OnOk result (all_shown out.new.items ≡ all_shown out.old.items ++ open_in_bound (bound_of bound.now)) }
{
    match bound {
        Bound::Star { .. } => Ok(()),
        Bound::Upper(upper) => put_open(out, &upper.value, WrittenCheck::Bounds(bound)),
        Bound::Both { lower, upper } => {
            let check = check_behind(bound, &upper.value);
            put_open(out, &lower.value, check)?;
            put_open(out, &upper.value, WrittenCheck::Bounds(bound))
        }
    }
}

/// The open extents of these dimensions.
#[tactic(auto, using(crate::proofs::Extents::gathered))]
fn put_open_in_bounds<'a>(
    out: &mut Vec<WrittenExtent<'a>>,
    bounds: &'a [Bound],
) -> Result<(), AllocError>
    ensures { OnOk result (all_shown out.new.items ≡ all_shown out.old.items ++ flat_map open_in_bound (map bound_of bounds.now)) }
{
    for bound in bounds {
        put_open_in_bound(out, bound)?;
    }
    Ok(())
}

/// The open extent of a length or a size.
fn put_open_in_size<'a>(
    out: &mut Vec<WrittenExtent<'a>>,
    check: WrittenCheck<'a>,
    size: &'a Option<Size>,
) -> Result<(), AllocError>
    ensures { OnOk result (all_shown out.new.items ≡ all_shown out.old.items ++ open_in_size (check_shown check.entry) (option_of size_of size.now)) }
{
    match size {
        Some(Size::Given(extent)) => put_open(out, &extent.value, check),
        Some(Size::Star { .. }) => Ok(()),
        None => Ok(()),
    }
}

/// The open extent of an attribute.
fn put_open_in_attribute<'a>(
    out: &mut Vec<WrittenExtent<'a>>,
    attribute: &'a Attribute,
) -> Result<(), AllocError>
    ensures { OnOk result (all_shown out.new.items ≡ all_shown out.old.items ++ open_in_attribute (attribute_of attribute.now)) }
{
    match attribute {
        Attribute::Character(size) => put_open_in_size(out, WrittenCheck::Length, size),
        Attribute::Area(size) => put_open_in_size(out, WrittenCheck::Size, size),
        _ => Ok(()),
    }
}

/// The open extents of these attributes.
#[tactic(auto, using(crate::proofs::Extents::gathered))]
fn put_open_in_attributes<'a>(
    out: &mut Vec<WrittenExtent<'a>>,
    attributes: &'a [Attribute],
) -> Result<(), AllocError>
    ensures { OnOk result (all_shown out.new.items ≡ all_shown out.old.items ++ flat_map open_in_attribute (map attribute_of attributes.now)) }
{
    for attribute in attributes {
        put_open_in_attribute(out, attribute)?;
    }
    Ok(())
}

/// The open extents of a variable's own dimensions.
#[tactic(auto, using(crate::proofs::Extents::gathered))]
fn put_open_in_dimensions<'a>(
    out: &mut Vec<WrittenExtent<'a>>,
    variable: Variable<'a>,
) -> Result<(), AllocError>
    ensures { OnOk result (all_shown out.new.items ≡ all_shown out.old.items ++ flat_map open_in_bound (dimensions_of (variable_of variable.entry))) }
{
    put_open_in_bounds(out, &variable.declared.dimensions)?;
    put_open_in_bounds(out, &variable.item.dimensions)
}

/// The open extents of a variable.
#[tactic(auto, using(crate::proofs::Extents::gathered))]
fn put_open_in<'a>(out: &mut Vec<WrittenExtent<'a>>, held: &Held<'a>) -> Result<(), AllocError>
    ensures { OnOk result (all_shown out.new.items ≡ all_shown out.old.items ++ open_in (held_of held.now)) }
{
    put_open_in_dimensions(out, held.variable)?;
    put_open_in_attributes(out, &held.variable.item.attributes)
}

/// The open extents of these variables, as they come.
#[tactic(auto, using(crate::proofs::Extents::gathered))]
fn open_in_all<'a>(alloc: Global, all: &[Held<'a>]) -> Result<Vec<WrittenExtent<'a>>, AllocError>
    ensures { IfOk result (λ v. all_shown v.items ≡ flat_map open_in (map held_of all.now)) }
{
    let mut out = Vec::new(alloc);
    for held in all {
        put_open_in(&mut out, held)?;
    }
    Ok(out)
}

/// The first is written before the second.
fn goes_before(first: &WrittenExtent, second: &WrittenExtent) -> bool
    ensures { result ≡ goes_before (extent_shown first.now) (extent_shown second.now) }
{
    let place = place_of(first.value);
    let next = place_of(second.value);
    if place.line == next.line {
        place.column < next.column
    } else {
        place.line < next.line
    }
}

/// The extent is written at this place.
pub fn stands_at(place: Place, written: &WrittenExtent) -> bool
    ensures { result ≡ stands_at place (extent_shown written.now) }
{
    place_of(written.value) == place
}

/// Where an extent goes among these, each once in source order: nowhere where one of them is written at its place.
#[tactic(auto, using(crate::proofs::Extents::order))]
fn place_among(written: &WrittenExtent, ordered: &[WrittenExtent]) -> Option<usize>
    ensures value { put_at result (extent_shown written.now) (all_shown ordered.now) ≡ with_extent (extent_shown written.now) (all_shown ordered.now) }
    ensures within { IfSome result (λ i. i ≤ length ordered.now) }
{
    for (i, other) in ordered.iter().enumerate() {
        if goes_before(written, other) {
            return Some(i);
        }
        if stands_at(place_of(other.value), written) {
            return None;
        }
    }
    Some(ordered.len())
}

/// An extent put among these, each once in source order.
#[tactic(auto, using(crate::proofs::Extents::order))]
fn put_in_order<'a>(
    ordered: &mut Vec<WrittenExtent<'a>>,
    written: WrittenExtent<'a>,
) -> Result<(), AllocError>
    ensures { OnOk result (all_shown ordered.new.items ≡ with_extent (extent_shown written.entry) (all_shown ordered.old.items)) }
{
    match place_among(&written, ordered) {
        Some(i) => Ok(ordered.insert(i, written)?),
        None => Ok(()),
    }
}

/// These, each once in source order.
#[tactic(auto, using(crate::proofs::Extents::order))]
fn in_order<'a>(
    alloc: Global,
    extents: Vec<WrittenExtent<'a>>,
) -> Result<Vec<WrittenExtent<'a>>, AllocError>
    ensures { IfOk result (λ v. all_shown v.items ≡ in_order (all_shown extents.entry.items)) }
{
    let mut ordered = Vec::new(alloc);
    let mut left = extents;
    while let Some(last) = left.pop() {
        put_in_order(&mut ordered, last)?;
    }
    Ok(ordered)
}

/// The open extents of a variable with its members, each once in source order.
pub fn written_extents<'a>(
    alloc: Global,
    all: &[Held<'a>],
) -> Result<Vec<WrittenExtent<'a>>, AllocError>
    ensures { IfOk result (λ v. all_shown v.items ≡ written_extents (map held_of all.now)) }
{
    let extents = open_in_all(alloc, all)?;
    in_order(alloc, extents)
}
