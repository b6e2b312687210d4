// What STATIC data takes.

ghost use Rattle.std.specs.Prelude.{◌≡◌, ◌*◌, ◌+◌, ◌/◌, ◌≤ℤ◌, ◌++◌, neg_ℤ, pos, Some, List, map, OnOk};
ghost use Rattle.std.specs.List.{flat_map, sum_by};
ghost use Rattle.pli_language.specs.Declarations.{dimensions_of};
ghost use Rattle.pli_language.specs.Declaring.{attribute_bytes, bound_span, data_of_members, elements_above, footprint_of, leaf_bytes, own_data, positive, size_value, span_of, spans, up_to};
ghost use Rattle.pli_language.specs.View.{attribute_of, bound_of, option_of, size_of};
ghost use Rattle.pli_declare.specs.Shown.{above_of, declaration_of, held_of, levels_of, variable_of};
ghost use Rattle.pli_declaring.specs.Bytes.{capped};

use crate::attribute::{Row, has, is_number, precision_of};
use crate::constant::constant;
use crate::held::{dimensions_of, has_members, own_attributes};
use pli_declare::above::{Above, Levels};
use pli_declare::scope::{Declaration, Held, Variable};
use pli_language::declaration::{Attribute, Bound, Size};

/// What is more takes no more: it is past what STATIC data may take.
const MOST: u64 = 2_097_152;

/// The product, as far as it matters.
fn times(a: u64, b: u64) -> u64
    ensures { result ≡ capped (a * b) }
{
    a.saturating_mul(b).min(MOST)
}

/// The sum, as far as it matters.
pub fn plus(a: u64, b: u64) -> u64
    ensures { result ≡ capped (a + b) }
{
    a.saturating_add(b).min(MOST)
}

/// A number that isn't below 0, as far as it matters, and else 0.
fn positive(value: i128) -> u64
    ensures { result ≡ capped (positive (Some value)) }
{
    if value < 0 {
        return 0;
    }
    if value > 2_097_152 {
        return MOST;
    }
    value as u64
}

/// How many elements stand between two bounds.
fn span(low: i128, high: i128) -> u64
    requires low_from { neg_ℤ (pos 18446744073709551616) ≤ℤ low }
    requires low_to { low ≤ℤ pos 18446744073709551616 }
    requires high_from { neg_ℤ (pos 18446744073709551616) ≤ℤ high }
    requires high_to { high ≤ℤ pos 18446744073709551616 }
    ensures { result ≡ capped (span_of (Some low) (Some high)) }
{
    if high < low {
        return 0;
    }
    positive(high - low + 1)
}

/// How many elements a dimension has.
fn bound_span(bound: &Bound) -> u64
    ensures { result ≡ capped (bound_span (bound_of bound.now)) }
{
    match bound {
        Bound::Star { .. } => 0,
        Bound::Upper(upper) => match constant(&upper.value) {
            Some(high) => span(1, high),
            None => 0,
        },
        Bound::Both { lower, upper } => match (constant(&lower.value), constant(&upper.value)) {
            (Some(low), Some(high)) => span(low, high),
            _ => 0,
        },
    }
}

/// How many elements dimensions have together.
#[tactic(auto, using(crate::proofs::Bytes::steps))]
fn spans(bounds: &[Bound]) -> u64
    ensures { result ≡ capped (spans (map bound_of bounds.now)) }
{
    let mut elements = 1;
    for bound in bounds {
        elements = times(elements, bound_span(bound));
    }
    elements
}

/// How many elements a variable has for each one of what holds it.
fn variable_spans(variable: Variable) -> u64
    ensures { result ≡ capped (spans (dimensions_of (variable_of variable.entry))) }
{
    times(
        spans(&variable.declared.dimensions),
        spans(&variable.item.dimensions),
    )
}

/// How many elements these structures have, each in the one before.
#[tactic(auto, using(crate::proofs::Bytes::steps))]
fn elements_inside(first: Variable, levels: &Levels) -> u64
    ensures { result ≡ capped (elements_above (levels_of (variable_of first.entry) levels.now)) }
{
    let mut elements = 1;
    let mut rest = levels;
    while let Levels::Inside {
        structure,
        above,
        ..
    } = rest
    {
        elements = times(elements, variable_spans(*structure));
        rest = above;
    }
    times(elements, variable_spans(first))
}

/// How many elements the structures have that hold a variable. Mostly the outermost alone has dimensions: then the others aren't
/// looked through.
fn elements_above(above: &Above) -> u64
    ensures { result ≡ capped (elements_above (above_of above.now)) }
{
    let Some(first) = above.outermost else {
        return 1;
    };
    if above.dimensions() == dimensions_of(first) {
        return variable_spans(first);
    }
    elements_inside(first, &above.levels)
}

/// The constant that a size is.
fn size_value(default: u64, size: &Option<Size>) -> u64
    ensures { result ≡ capped (size_value default (option_of size_of size.now)) }
{
    match size {
        Some(Size::Given(extent)) => match constant(&extent.value) {
            Some(value) => positive(value),
            None => 0,
        },
        Some(Size::Star { .. }) => 0,
        None => default.min(MOST),
    }
}

/// Rounded up to whole words.
fn in_words(bytes: u64) -> u64
    ensures { result ≡ capped (up_to 4 bytes) }
{
    (bytes.min(MOST) + 3) / 4 * 4
}

/// What a generation of this much data takes.
pub fn footprint(bytes: u64) -> u64
    ensures { result ≡ capped (footprint_of bytes) }
{
    ((bytes.min(MOST) + 15) / 16 * 16 + 16).min(MOST)
}

/// The bytes of a kind.
fn attribute_bytes(attributes: &[Attribute], attribute: &Attribute) -> u64
    ensures { result ≡ capped (attribute_bytes (map attribute_of attributes.now) (attribute_of attribute.now)) }
{
    match attribute {
        Attribute::Character(size) => {
            let length = if has(Row::Varying, attributes) { 2 } else { 0 };
            plus(size_value(1, size), length)
        }
        Attribute::Bit => 1,
        Attribute::Pointer => 16,
        Attribute::Offset(_) => 4,
        Attribute::Area(size) => size_value(1000, size) / 16 * 16,
        _ => 0,
    }
}

/// The bytes of all kinds that these name.
#[tactic(auto, using(crate::proofs::Bytes::steps))]
fn kind_bytes(attributes: &[Attribute]) -> u64
    ensures { result ≡ capped (sum_by (attribute_bytes (map attribute_of attributes.now)) (map attribute_of attributes.now)) }
{
    let mut bytes = 0;
    for attribute in attributes {
        bytes = plus(bytes, attribute_bytes(attributes, attribute));
    }
    bytes
}

/// The bytes of a leaf.
fn leaf_bytes(attributes: &[Attribute]) -> u64
    ensures { result ≡ capped (leaf_bytes (map attribute_of attributes.now)) }
{
    if !is_number(attributes) {
        return kind_bytes(attributes);
    }
    if precision_of(attributes) <= 15 { 2 } else { 4 }
}

/// The data of a leaf: its bytes in whole words, for each element.
pub fn own_data(held: &Held, after: &[Declaration]) -> u64
    ensures { result ≡ capped (own_data (held_of held.now) (map declaration_of after.now)) }
{
    if has_members(held, after) {
        return 0;
    }
    let elements = times(elements_above(&held.above), variable_spans(held.variable));
    times(in_words(leaf_bytes(own_attributes(held))), elements)
}
