// Elements: the values that stand in them, and what a store writes.

ghost use Rattle.std.specs.Prelude.{◌≡◌, ◌+◌, ◌≤◌, length};
ghost use Rattle.rv_meaning.specs.Memory.{load};
ghost use Rattle.pli_typing.specs.Signatures as S;
ghost use Rattle.pli_meaning.specs.BasicValues as B;
ghost use Rattle.pli_meaning.specs.Texts.{fitted};
ghost use Rattle.pli_meaning.specs.Contents.{bit_in, name_in, number_in, offset_in, text_in};
ghost use Rattle.pli_serving.specs.Bytes.{bytes_at, with_bytes};
ghost use Rattle.pli_serving.specs.Stored.{kept_bytes, kept_value};
ghost use Rattle.pli_serving.specs.Values.{element_bytes, element_size, value_at};
ghost use Rattle.pli_signatures.specs.View.{kind_of};
ghost use Rattle.pli_values.specs.Sizes.{stored_size, written_size};
ghost use Rattle.pli_values.specs.View.{name_of, value_of};

use crate::name::{Name, name_at, offset_of, offset_word, put_name};
use crate::word::{fill, half_at, put_bytes, put_half, put_word, word_at};
use pli_signatures::element::ElementKind;

/// The value of an element.
#[derive(Clone, Copy)]
pub enum Value<'a> {
    Number(i32),
    Text(&'a [u8]),
    Bit(bool),
    Pointer(Name),
    Offset(Option<u32>),
}

/// The bytes of a value of this kind.
fn value_bytes(kind: ElementKind) -> usize
    ensures { result ≡ S.leaf_bytes (kind_of kind) }
{
    kind.value_bytes() as usize
}

/// The bytes of an element: those of its value rounded up to 4.
pub fn element_size(kind: ElementKind) -> usize
    ensures { result ≡ element_size (kind_of kind) }
{
    kind.size() as usize
}

/// The bytes that a store writes: none for an area.
fn stored_bytes(kind: ElementKind) -> usize
    ensures { result ≡ stored_size (kind_of kind) }
{
    match kind {
        ElementKind::Area { .. } => 0,
        kind => value_bytes(kind),
    }
}

impl<'a> Value<'a> {
    /// 0 where it is no number.
    fn number(self) -> i32
        ensures { result ≡ number_in (value_of self.entry) }
    {
        match self {
            Value::Number(number) => number,
            _ => 0,
        }
    }

    /// Empty where it is no text.
    fn text(self) -> &'a [u8]
        ensures { result.now ≡ text_in (value_of self.entry) }
    {
        match self {
            Value::Text(text) => text,
            _ => &[],
        }
    }

    /// '0'B where it is no bit.
    fn bit(self) -> bool
        ensures { result ≡ bit_in (value_of self.entry) }
    {
        match self {
            Value::Bit(bit) => bit,
            _ => false,
        }
    }

    /// The null name where it is none.
    fn name(self) -> Name
        ensures { name_of result ≡ name_in (value_of self.entry) }
    {
        match self {
            Value::Pointer(name) => name,
            _ => Name::Null,
        }
    }

    /// `None` where it is no offset.
    fn offset(self) -> Option<u32>
        ensures { result ≡ offset_in (value_of self.entry) }
    {
        match self {
            Value::Offset(offset) => offset,
            _ => None,
        }
    }
}

/// Writes a number, in 2 bytes up to precision 15, else in 4.
fn put_number(memory: &mut [u8], at: usize, precision: u8, number: i32)
    requires { at + S.leaf_bytes (S.Fixed precision) ≤ length memory.old }
    ensures { memory.new ≡ with_bytes (kept_bytes (S.Fixed precision) (B.BasicNumber number)) at memory.old }
{
    let word = number.cast_unsigned();
    if precision <= 15 {
        put_half(memory, at, (word & 0xffff) as u16);
    } else {
        put_word(memory, at, word);
    }
}

/// Writes a text with blanks behind it up to so many bytes, or as much of it as they hold.
fn put_fitted(memory: &mut [u8], at: usize, most: u32, text: &[u8])
    requires { at + most ≤ length memory.old }
    ensures { memory.new ≡ with_bytes (fitted most text.now) at memory.old }
{
    let most = most as usize;
    let kept = text.len().min(most);
    put_bytes(memory, at, &text[..kept]);
    fill(memory, at + kept, most - kept, b' ');
}

/// Writes a text of CHARACTER.
#[tactic(auto, using(crate::proofs::Texts::character_kept))]
fn put_character(memory: &mut [u8], at: usize, most: u32, text: &[u8])
    requires { at + most ≤ length memory.old }
    ensures { memory.new ≡ with_bytes (kept_bytes (S.Character most) (B.BasicText text.now)) at memory.old }
{
    put_fitted(memory, at, most, text);
}

/// Writes a text of CHARACTER VARYING behind its length in 2 bytes.
fn put_varying(memory: &mut [u8], at: usize, most: u16, text: &[u8])
    requires { at + S.leaf_bytes (S.Varying most) ≤ length memory.old }
    ensures { memory.new ≡ with_bytes (kept_bytes (S.Varying most) (B.BasicText text.now)) at memory.old }
{
    let kept = text.len().min(usize::from(most));
    put_half(memory, at, kept as u16);
    put_fitted(memory, at + 2, u32::from(most), &text[..kept]);
}

/// Writes a value as an element of a kind keeps it: a text padded or cut. Of a value of another kind, what `Value` reads of it.
/// An area has no value: nothing is written.
pub fn put_value(memory: &mut [u8], at: usize, kind: ElementKind, value: Value)
    requires { at + S.leaf_bytes (kind_of kind) ≤ length memory.old }
    ensures { memory.new ≡ with_bytes (kept_bytes (kind_of kind) (value_of value.entry)) at memory.old }
{
    match kind {
        ElementKind::Fixed { precision } => put_number(memory, at, precision, value.number()),
        ElementKind::Character { length } => put_character(memory, at, length, value.text()),
        ElementKind::Varying { length } => put_varying(memory, at, length, value.text()),
        ElementKind::Bit => put_bytes(memory, at, &[u8::from(value.bit())]),
        ElementKind::Pointer => put_name(memory, at, value.name()),
        ElementKind::Offset => put_word(memory, at, offset_word(value.offset())),
        ElementKind::Area { .. } => {}
    }
}

/// Writes a whole element, a value as the element keeps it and zeros up to the element's end, and gives the place behind what was
/// written. Of an area, which has no value, only the zeros are written.
pub fn put_element(memory: &mut [u8], at: usize, kind: ElementKind, value: Value) -> usize
    requires { at + element_size (kind_of kind) ≤ length memory.old }
    ensures written { memory.new ≡ with_bytes (element_bytes (kind_of kind) (kept_value (kind_of kind) (value_of value.entry))) at memory.old }
    ensures behind { result ≡ at + written_size (kind_of kind) }
{
    put_value(memory, at, kind, value);
    let end = at + stored_bytes(kind);
    let zeros = element_size(kind) - value_bytes(kind);
    fill(memory, end, zeros, 0);
    end + zeros
}

/// The text of CHARACTER VARYING behind its length in 2 bytes, up to the end of memory at most.
fn varying_at(memory: &[u8], at: usize) -> &[u8]
    requires { at + 2 ≤ length memory.now }
    ensures { result.now ≡ bytes_at (load 2 memory.now at) (at + 2) memory.now }
{
    let behind = &memory[at + 2..];
    let length = usize::from(half_at(memory, at));
    &behind[..length.min(behind.len())]
}

/// The number of FIXED in 2 or 4 bytes.
fn number_at(memory: &[u8], at: usize, precision: u8) -> i32
    requires { at + S.leaf_bytes (S.Fixed precision) ≤ length memory.now }
    ensures { B.BasicNumber result ≡ value_at (S.Fixed precision) at memory.now }
{
    if precision <= 15 {
        i32::from(half_at(memory, at).cast_signed())
    } else {
        word_at(memory, at).cast_signed()
    }
}

/// The value of an element. A locator of no kind is the null one. An area has no value: it reads as 0.
pub fn value_at(memory: &[u8], at: usize, kind: ElementKind) -> Value<'_>
    requires { at + S.leaf_bytes (kind_of kind) ≤ length memory.now }
    ensures { value_of result ≡ value_at (kind_of kind) at memory.now }
{
    match kind {
        ElementKind::Fixed { precision } => Value::Number(number_at(memory, at, precision)),
        ElementKind::Character { length } => Value::Text(&memory[at..at + length as usize]),
        ElementKind::Varying { .. } => Value::Text(varying_at(memory, at)),
        ElementKind::Bit => Value::Bit(memory[at] == 1),
        ElementKind::Pointer => Value::Pointer(name_at(memory, at).unwrap_or(Name::Null)),
        ElementKind::Offset => Value::Offset(offset_of(word_at(memory, at))),
        ElementKind::Area { .. } => Value::Number(0),
    }
}
