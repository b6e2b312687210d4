// INITIAL values in memory.

ghost use Rattle.std.specs.Prelude.{◌≡◌, ◌+◌, ◌≤◌, is_some};
ghost use Rattle.rv_meaning.specs.Words.{signed};
ghost use Rattle.pli_language.specs.View.{option_of};
ghost use Rattle.pli_meaning.specs.Numbers.{is_of_precision};
ghost use Rattle.pli_serving.specs.Bytes as D;
ghost use Rattle.pli_serving.specs.InitialValues.{initial_null, initial_number, initial_text, initial_value, item_at, item_size, items_from};
ghost use Rattle.pli_signatures.specs.View.{kind_of};
ghost use Rattle.pli_values.specs.Calls.{call_of};
ghost use Rattle.pli_values.specs.View.{initial_of, item_of};

use crate::source::Source;
use crate::word::word_at;
use pli_signatures::element::ElementKind;

/// What INITIAL gives an element.
#[derive(Clone, Copy)]
pub enum Initial<'a> {
    Skip,
    Number(i32),
    Bit(bool),
    Text(&'a [u8]),
    Null,
}

/// A value of INITIAL for so many elements.
#[derive(Clone, Copy)]
pub struct Item<'a> {
    pub repetition: u32,
    pub value: Initial<'a>,
}

/// Whether a number has at most so many bits beside its sign.
fn has_precision(precision: u8, number: u32) -> bool
    ensures { result ≡ is_of_precision precision (signed number) }
{
    let magnitude = if number < 1 << 31 {
        number
    } else {
        u32::MAX - number
    };
    precision >= 31 || magnitude < 1 << precision
}

fn number_value<'a>(kind: ElementKind, number: u32) -> Option<Initial<'a>>
    ensures { option_of initial_of result ≡ initial_number (kind_of kind) number }
{
    match kind {
        ElementKind::Fixed { precision } if has_precision(precision, number) => {
            Some(Initial::Number(number.cast_signed()))
        }
        ElementKind::Bit if number <= 1 => Some(Initial::Bit(number == 1)),
        _ => None,
    }
}

fn text_value(kind: ElementKind, text: &[u8]) -> Option<Initial<'_>>
    ensures { option_of initial_of result ≡ initial_text (kind_of kind) text.now }
{
    match kind {
        ElementKind::Character { .. } => Some(Initial::Text(text)),
        ElementKind::Varying { .. } => Some(Initial::Text(text)),
        _ => None,
    }
}

fn null_value<'a>(kind: ElementKind) -> Option<Initial<'a>>
    ensures { option_of initial_of result ≡ initial_null (kind_of kind) }
{
    match kind {
        ElementKind::Pointer => Some(Initial::Null),
        ElementKind::Offset => Some(Initial::Null),
        _ => None,
    }
}

/// The value that a word says with a number, the text at an address where it is one.
fn value_read<'a>(
    source: &Source<'a>,
    kind: ElementKind,
    what: u32,
    number: u32,
    at: usize,
) -> Option<Initial<'a>>
    ensures { option_of initial_of result ≡ initial_value (call_of source.now) (kind_of kind) what number at }
{
    match what {
        0 => Some(Initial::Skip),
        1 => number_value(kind, number),
        2 => {
            let bytes = number as usize;
            if !source.layout.is_data(at, bytes) {
                return None;
            }
            text_value(kind, &source.memory[at..at + bytes])
        }
        3 => null_value(kind),
        _ => None,
    }
}

/// An item that a leaf of this kind can have, where one stands at an address.
pub fn item_read<'a>(source: &Source<'a>, kind: ElementKind, at: usize) -> Option<Item<'a>>
    ensures { option_of item_of result ≡ item_at (call_of source.now) (kind_of kind) at }
{
    if !source.layout.is_data(at, 12) {
        return None;
    }
    let repetition = word_at(source.memory, at);
    let what = word_at(source.memory, at + 4);
    let number = word_at(source.memory, at + 8);
    let value = value_read(source, kind, what, number, at + 12)?;
    Some(Item { repetition, value })
}

/// The address behind an item.
pub fn behind_item(source: &Source, at: usize) -> usize
    requires { at + 12 ≤ source.now.layout.end }
    ensures { result ≡ at + item_size (D.word_at (at + 4) source.now.memory.now) (D.word_at (at + 8) source.now.memory.now) }
{
    let what = word_at(source.memory, at + 4);
    let number = word_at(source.memory, at + 8) as usize;
    let text = if what == 2 { number } else { 0 };
    at + 12 + text.next_multiple_of(4)
}

/// Whether so many items that a leaf of this kind can have stand from an address on. Each takes 12 bytes at least, so that no more
/// are looked at than the memory has room for.
pub fn are_items(source: &Source, kind: ElementKind, count: u32, at: usize) -> bool
    ensures { result ≡ is_some (items_from (call_of source.now) (kind_of kind) count at) }
{
    let mut at = at;
    let mut left = count;
    while left > 0 {
        if item_read(source, kind, at).is_none() {
            return false;
        }
        at = behind_item(source, at);
        left -= 1;
    }
    true
}
