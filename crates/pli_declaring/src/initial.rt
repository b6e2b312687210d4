// What INITIAL may give.

ghost use Rattle.std.specs.Prelude.{◌≡◌, ◌<◌, map};
ghost use Rattle.pli_language.specs.Declaring.{fits_digits, value_fits, initial_fits};
ghost use Rattle.pli_language.specs.View.{attribute_of, initial_value_of};
ghost use Rattle.pli_declaring.specs.Shown.{magnitude};

use crate::attribute::{Row, has, is_number, precision_of};
use pli_language::declaration::{Attribute, InitialValue};

/// The number, or its distance from -1 where it is below 0.
fn magnitude(number: i64) -> u64
    ensures value { result ≡ magnitude number }
    ensures below { result < 9223372036854775808 }
{
    if number < 0 {
        (-(number + 1)) as u64
    } else {
        number as u64
    }
}

/// The number has at most so many binary digits.
#[tactic(auto, using(crate::proofs::Powers::fits_by))]
fn fits_digits(digits: u64, number: i64) -> bool
    ensures { result ≡ fits_digits digits number }
{
    let magnitude = magnitude(number);
    if digits >= 63 {
        return true;
    }
    magnitude < 1 << digits
}

/// The value is of the kind that these name, and a number fits it.
fn value_fits(attributes: &[Attribute], value: &InitialValue) -> bool
    ensures { result ≡ value_fits (map attribute_of attributes.now) (initial_value_of value.now) }
{
    match value {
        InitialValue::Skip => true,
        InitialValue::Number(number) => {
            is_number(attributes) && fits_digits(precision_of(attributes), *number)
        }
        InitialValue::Text(_) => has(Row::Character, attributes),
        InitialValue::Bit(_) => has(Row::Bit, attributes),
        InitialValue::Null => has(Row::Pointer, attributes) || has(Row::Offset, attributes),
        InitialValue::Empty => has(Row::Area, attributes),
    }
}

/// INITIAL, if it is that, gives values of the kind that these name.
pub fn initial_fits(attributes: &[Attribute], attribute: &Attribute) -> bool
    ensures { result ≡ initial_fits (map attribute_of attributes.now) (attribute_of attribute.now) }
{
    match attribute {
        Attribute::Initial(items) => !items.iter().any(|i| !value_fits(attributes, &i.value)),
        _ => true,
    }
}
