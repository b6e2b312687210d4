// The kind that attributes say.

ghost use Rattle.std.specs.Prelude.{◌≡◌, map};
ghost use Rattle.pli_typing.specs.TypedView.{area_of, leaf_type_of};
ghost use Rattle.pli_typing.specs.Variables.{area_name};
ghost use Rattle.pli_language.specs.View.{attribute_of, name_of, option_of};
ghost use Rattle.pli_variables.specs.Written.{all_shown, offset_in, text_type, type_with};

use crate::amount::{size_of_area, size_of_text};
use crate::extent::WrittenExtent;
use pli_declaring::attribute::{Row, has, precision_of};
use pli_language::declaration::Attribute;
use pli_language::expr::Name;
use pli_typing::typed::{LeafType, Variable};

/// What an attribute that is OFFSET names.
fn offset_in(attribute: &Attribute) -> Option<Option<&Name>>
    ensures { option_of (λ o. option_of (λ n. name_of n.now) o) result ≡ offset_in (attribute_of attribute.now) }
{
    match attribute {
        Attribute::Offset(Some(name)) => Some(Some(name)),
        Attribute::Offset(None) => Some(None),
        _ => None,
    }
}

/// The name in OFFSET(name).
#[tactic(auto, using(crate::proofs::Amounts::names))]
pub fn area_name(attributes: &[Attribute]) -> Option<&Name>
    ensures { option_of (λ n. name_of n.now) result ≡ area_name (map attribute_of attributes.now) }
{
    for attribute in attributes {
        if let Some(name) = offset_in(attribute) {
            return name;
        }
    }
    None
}

/// The kind of a text.
fn text_type(written: &[WrittenExtent], attributes: &[Attribute]) -> LeafType
    ensures { leaf_type_of result ≡ text_type (all_shown written.now) (map attribute_of attributes.now) }
{
    let size = size_of_text(written, attributes);
    if has(Row::Varying, attributes) {
        LeafType::Varying(size)
    } else {
        LeafType::Character(size)
    }
}

/// The kind that attributes say, where an OFFSET is one of this area, or of none; FIXED where they say none.
pub fn type_with(
    written: &[WrittenExtent],
    attributes: &[Attribute],
    area: Option<Variable>,
) -> LeafType
    ensures { leaf_type_of result ≡ type_with (all_shown written.now) (map attribute_of attributes.now) (area_of area) }
{
    if has(Row::Character, attributes) {
        text_type(written, attributes)
    } else if has(Row::Bit, attributes) {
        LeafType::Bit
    } else if has(Row::Pointer, attributes) {
        LeafType::Pointer
    } else if has(Row::Offset, attributes) {
        LeafType::Offset(area)
    } else if has(Row::Area, attributes) {
        LeafType::Area(size_of_area(written, attributes))
    } else {
        LeafType::Fixed(precision_of(attributes))
    }
}
