// Values where a kind is wanted.

ghost use Rattle.std.specs.Prelude.{◌≡◌, Some, None, IfOk, OnOk, false, []};
ghost use Rattle.pli_typing.specs.Converting as C;
ghost use Rattle.pli_language.specs.Refusals.{fault};
ghost use Rattle.pli_typing.specs.TypedTree as Y;
ghost use Rattle.pli_typing.specs.TypedView.{area_of, bit_of, number_of, offset_of, pointer_of, text_of, value_of};
ghost use Rattle.pli_language.specs.View.{option_of};
ghost use Rattle.pli_operand.specs.Notes.{noted, with_fault};
ghost use Rattle.pli_operand.specs.Shown.{notes_of};

use crate::notes::Notes;
use pli_language::expr::Place;
use pli_language::fault::SourceKind;
use pli_typing::typed::{Bit, Number, Offset, Pointer, Text, Value, Variable};

#[tactic(auto, unfolding(pli_typing::specs::TypedView::number_of))]
fn number_of_text<'a>(text: Box<Text<'a>>) -> Number<'a>
    ensures { Some (number_of result) ≡ C.number_of (Y.TextValue (text_of text.entry.value)) }
{
    Number::OfText(text)
}

#[tactic(auto, unfolding(pli_typing::specs::TypedView::number_of))]
fn number_of_bit<'a>(bit: Box<Bit<'a>>) -> Number<'a>
    ensures { Some (number_of result) ≡ C.number_of (Y.BitValue (bit_of bit.entry.value)) }
{
    Number::OfBit(bit)
}

/// A value as a number, where it converts to one.
pub fn number_of<'a>(value: Value<'a>) -> Option<Number<'a>>
    ensures { option_of number_of result ≡ C.number_of (value_of value.entry) }
{
    match value {
        Value::Number { value, .. } => Some(Box::into_inner(value)),
        Value::Text(text) => Some(number_of_text(text)),
        Value::Bit(bit) => Some(number_of_bit(bit)),
        Value::Pointer(_) | Value::Offset { .. } | Value::Null => None,
    }
}

#[tactic(auto, unfolding(pli_typing::specs::TypedView::text_of))]
fn text_of_number<'a>(precision: u64, number: Box<Number<'a>>) -> Text<'a>
    ensures { Some (text_of result) ≡ C.text_of (Y.NumberValue precision (number_of number.entry.value)) }
{
    Text::OfNumber { precision, number }
}

#[tactic(auto, unfolding(pli_typing::specs::TypedView::text_of))]
fn text_of_bit<'a>(bit: Box<Bit<'a>>) -> Text<'a>
    ensures { Some (text_of result) ≡ C.text_of (Y.BitValue (bit_of bit.entry.value)) }
{
    Text::OfBit(bit)
}

/// A value as a text, where it converts to one.
pub fn text_of<'a>(value: Value<'a>) -> Option<Text<'a>>
    ensures { option_of text_of result ≡ C.text_of (value_of value.entry) }
{
    match value {
        Value::Number { precision, value } => Some(text_of_number(precision, value)),
        Value::Text(text) => Some(Box::into_inner(text)),
        Value::Bit(bit) => Some(text_of_bit(bit)),
        Value::Pointer(_) | Value::Offset { .. } | Value::Null => None,
    }
}

#[tactic(auto, unfolding(pli_typing::specs::TypedView::bit_of))]
fn bit_of_text<'a>(text: Box<Text<'a>>) -> Bit<'a>
    ensures { Some (bit_of result) ≡ C.bit_of (Y.TextValue (text_of text.entry.value)) }
{
    Bit::OfText(text)
}

/// A value as a bit, where it converts to one.
pub fn bit_of<'a>(value: Value<'a>) -> Option<Bit<'a>>
    ensures { option_of bit_of result ≡ C.bit_of (value_of value.entry) }
{
    match value {
        Value::Bit(bit) => Some(Box::into_inner(bit)),
        Value::Text(text) => Some(bit_of_text(text)),
        Value::Number { .. } | Value::Pointer(_) | Value::Offset { .. } | Value::Null => None,
    }
}

/// A value that is a bit: IF, WHILE and the operators of bits convert nothing.
pub fn only_bit<'a>(value: Value<'a>) -> Option<Bit<'a>>
    ensures { option_of bit_of result ≡ C.only_bit (value_of value.entry) }
{
    match value {
        Value::Bit(bit) => Some(Box::into_inner(bit)),
        Value::Number { .. }
        | Value::Text(_)
        | Value::Pointer(_)
        | Value::Offset { .. }
        | Value::Null => None,
    }
}

#[tactic(auto, unfolding(pli_typing::specs::TypedView::pointer_of))]
fn pointer_into<'a>(area: Variable, offset: Box<Offset<'a>>) -> Pointer<'a>
    ensures { Some (pointer_of result) ≡ C.pointer_of (Y.OffsetValue (area_of (Some area)) (offset_of offset.entry.value)) }
{
    Pointer::Into { offset, area }
}

fn pointer_of_offset<'a>(area: Option<Variable>, offset: Box<Offset<'a>>) -> Option<Pointer<'a>>
    ensures { option_of pointer_of result ≡ C.pointer_of (Y.OffsetValue (area_of area) (offset_of offset.entry.value)) }
{
    match area {
        Some(area) => Some(pointer_into(area, offset)),
        None => None,
    }
}

/// A value as a POINTER, where it converts to one.
#[tactic(auto, unfolding(pli_typing::specs::TypedView::pointer_of))]
pub fn pointer_of<'a>(value: Value<'a>) -> Option<Pointer<'a>>
    ensures { option_of pointer_of result ≡ C.pointer_of (value_of value.entry) }
{
    match value {
        Value::Pointer(pointer) => Some(Box::into_inner(pointer)),
        Value::Offset { area, value } => pointer_of_offset(area, value),
        Value::Null => Some(Pointer::Null),
        Value::Number { .. } | Value::Text(_) | Value::Bit(_) => None,
    }
}

#[tactic(auto, unfolding(pli_typing::specs::TypedView::offset_of))]
fn offset_into<'a>(area: Variable, pointer: Box<Pointer<'a>>) -> Offset<'a>
    ensures { Some (offset_of result) ≡ C.offset_of (area_of (Some area)) (Y.PointerValue (pointer_of pointer.entry.value)) }
{
    Offset::Into { pointer, area }
}

fn offset_of_pointer<'a>(area: Option<Variable>, pointer: Box<Pointer<'a>>) -> Option<Offset<'a>>
    ensures { option_of offset_of result ≡ C.offset_of (area_of area) (Y.PointerValue (pointer_of pointer.entry.value)) }
{
    match area {
        Some(area) => Some(offset_into(area, pointer)),
        None => None,
    }
}

/// A value as an OFFSET that is declared with this area, where it converts to one.
#[tactic(auto, unfolding(pli_typing::specs::TypedView::offset_of))]
pub fn offset_of<'a>(area: Option<Variable>, value: Value<'a>) -> Option<Offset<'a>>
    ensures { option_of offset_of result ≡ C.offset_of (area_of area) (value_of value.entry) }
{
    match value {
        Value::Offset { value, .. } => Some(Box::into_inner(value)),
        Value::Null => Some(Offset::Null),
        Value::Pointer(pointer) => offset_of_pointer(area, pointer),
        Value::Number { .. } | Value::Text(_) | Value::Bit(_) => None,
    }
}

/// The value, or where there is none a mismatch at its place and what stands in for it.
#[tactic(auto, using(crate::proofs::Noting::noting), unfolding(pli_typing::specs::TypedView::number_of))]
pub fn number_or_mismatch<'a>(
    notes: &mut Notes,
    place: Place,
    value: Option<Number<'a>>,
) -> Number<'a>
    ensures noted { notes_of notes.new ≡ noted (notes_of notes.old) (C.converted_or (Y.NumberConstant 0) place (option_of number_of value.entry)) }
    ensures value { number_of result ≡ (C.converted_or (Y.NumberConstant 0) place (option_of number_of value.entry)).value }
{
    match value {
        Some(value) => value,
        None => {
            notes.broken(place, SourceKind::TypeMismatch);
            Number::Constant(0)
        }
    }
}

/// The value, or where there is none a mismatch at its place and what stands in for it.
#[tactic(auto, using(crate::proofs::Noting::noting), unfolding(pli_typing::specs::TypedView::text_of))]
pub fn text_or_mismatch<'a>(notes: &mut Notes, place: Place, value: Option<Text<'a>>) -> Text<'a>
    ensures noted { notes_of notes.new ≡ noted (notes_of notes.old) (C.converted_or (Y.TextConstant []) place (option_of text_of value.entry)) }
    ensures value { text_of result ≡ (C.converted_or (Y.TextConstant []) place (option_of text_of value.entry)).value }
{
    match value {
        Some(value) => value,
        None => {
            notes.broken(place, SourceKind::TypeMismatch);
            Text::Constant(&[])
        }
    }
}

/// The value, or where there is none a mismatch at its place and what stands in for it.
#[tactic(auto, using(crate::proofs::Noting::noting), unfolding(pli_typing::specs::TypedView::bit_of))]
pub fn bit_or_mismatch<'a>(notes: &mut Notes, place: Place, value: Option<Bit<'a>>) -> Bit<'a>
    ensures noted { notes_of notes.new ≡ noted (notes_of notes.old) (C.converted_or (Y.BitConstant false) place (option_of bit_of value.entry)) }
    ensures value { bit_of result ≡ (C.converted_or (Y.BitConstant false) place (option_of bit_of value.entry)).value }
{
    match value {
        Some(value) => value,
        None => {
            notes.broken(place, SourceKind::TypeMismatch);
            Bit::Constant(false)
        }
    }
}

/// The value, or where there is none a mismatch at its place and what stands in for it.
#[tactic(auto, using(crate::proofs::Noting::noting), unfolding(pli_typing::specs::TypedView::pointer_of))]
pub fn pointer_or_mismatch<'a>(
    notes: &mut Notes,
    place: Place,
    value: Option<Pointer<'a>>,
) -> Pointer<'a>
    ensures noted { notes_of notes.new ≡ noted (notes_of notes.old) (C.converted_or (Y.NullPointer) place (option_of pointer_of value.entry)) }
    ensures value { pointer_of result ≡ (C.converted_or (Y.NullPointer) place (option_of pointer_of value.entry)).value }
{
    match value {
        Some(value) => value,
        None => {
            notes.broken(place, SourceKind::TypeMismatch);
            Pointer::Null
        }
    }
}

/// The value, or where there is none a mismatch at its place and what stands in for it.
#[tactic(auto, using(crate::proofs::Noting::noting), unfolding(pli_typing::specs::TypedView::offset_of))]
pub fn offset_or_mismatch<'a>(
    notes: &mut Notes,
    place: Place,
    value: Option<Offset<'a>>,
) -> Offset<'a>
    ensures noted { notes_of notes.new ≡ noted (notes_of notes.old) (C.converted_or (Y.NullOffset) place (option_of offset_of value.entry)) }
    ensures value { offset_of result ≡ (C.converted_or (Y.NullOffset) place (option_of offset_of value.entry)).value }
{
    match value {
        Some(value) => value,
        None => {
            notes.broken(place, SourceKind::TypeMismatch);
            Offset::Null
        }
    }
}

/// A number where one is wanted.
#[tactic(auto, using(crate::proofs::Noting::noting), unfolding(pli_typing::specs::TypedView::number_of))]
pub fn number_wanted<'a>(notes: &mut Notes, place: Place, value: Option<Value<'a>>) -> Number<'a>
    ensures noted { notes_of notes.new ≡ noted (notes_of notes.old) (C.number_wanted place (option_of value_of value.entry)) }
    ensures value { number_of result ≡ (C.number_wanted place (option_of value_of value.entry)).value }
{
    match value {
        None => Number::Constant(0),
        Some(value) => number_or_mismatch(notes, place, number_of(value)),
    }
}

/// A text where one is wanted.
#[tactic(auto, using(crate::proofs::Noting::noting), unfolding(pli_typing::specs::TypedView::text_of))]
pub fn text_wanted<'a>(notes: &mut Notes, place: Place, value: Option<Value<'a>>) -> Text<'a>
    ensures noted { notes_of notes.new ≡ noted (notes_of notes.old) (C.text_wanted place (option_of value_of value.entry)) }
    ensures value { text_of result ≡ (C.text_wanted place (option_of value_of value.entry)).value }
{
    match value {
        None => Text::Constant(&[]),
        Some(value) => text_or_mismatch(notes, place, text_of(value)),
    }
}

/// A bit where one is wanted.
#[tactic(auto, using(crate::proofs::Noting::noting), unfolding(pli_typing::specs::TypedView::bit_of))]
pub fn bit_wanted<'a>(notes: &mut Notes, place: Place, value: Option<Value<'a>>) -> Bit<'a>
    ensures noted { notes_of notes.new ≡ noted (notes_of notes.old) (C.bit_wanted place (option_of value_of value.entry)) }
    ensures value { bit_of result ≡ (C.bit_wanted place (option_of value_of value.entry)).value }
{
    match value {
        None => Bit::Constant(false),
        Some(value) => bit_or_mismatch(notes, place, bit_of(value)),
    }
}

/// A bit where one is wanted and nothing is converted.
#[tactic(auto, using(crate::proofs::Noting::noting), unfolding(pli_typing::specs::TypedView::bit_of))]
pub fn own_bit_wanted<'a>(notes: &mut Notes, place: Place, value: Option<Value<'a>>) -> Bit<'a>
    ensures noted { notes_of notes.new ≡ noted (notes_of notes.old) (C.own_bit_wanted place (option_of value_of value.entry)) }
    ensures value { bit_of result ≡ (C.own_bit_wanted place (option_of value_of value.entry)).value }
{
    match value {
        None => Bit::Constant(false),
        Some(value) => bit_or_mismatch(notes, place, only_bit(value)),
    }
}

/// An OFFSET becomes a POINTER by its area, which so is used.
#[tactic(auto, using(crate::proofs::Noting::noting))]
fn area_mentioned(notes: &mut Notes, value: &Option<Value>)
    ensures { notes_of notes.new ≡ noted (notes_of notes.old) (C.area_mentioned (option_of value_of value.now)) }
{
    if let Some(
        Value::Offset {
            area: Some(area),
            ..
        },
    ) = value
    {
        notes.mention(*area);
    }
}

#[tactic(auto, using(crate::proofs::Noting::noting), unfolding(pli_typing::specs::TypedView::pointer_of))]
fn pointer_converted<'a>(notes: &mut Notes, place: Place, value: Option<Value<'a>>) -> Pointer<'a>
    ensures noted { notes_of notes.new ≡ noted (notes_of notes.old) (C.wanted C.pointer_of Y.NullPointer place (option_of value_of value.entry)) }
    ensures value { pointer_of result ≡ (C.wanted C.pointer_of Y.NullPointer place (option_of value_of value.entry)).value }
{
    match value {
        None => Pointer::Null,
        Some(value) => pointer_or_mismatch(notes, place, pointer_of(value)),
    }
}

/// A POINTER where one is wanted.
#[tactic(auto, using(crate::proofs::Noting::noting))]
pub fn pointer_wanted<'a>(notes: &mut Notes, place: Place, value: Option<Value<'a>>) -> Pointer<'a>
    ensures noted { notes_of notes.new ≡ noted (notes_of notes.old) (C.pointer_wanted place (option_of value_of value.entry)) }
    ensures value { pointer_of result ≡ (C.pointer_wanted place (option_of value_of value.entry)).value }
{
    area_mentioned(notes, &value);
    pointer_converted(notes, place, value)
}

/// An OFFSET that is declared with this area, where one is wanted.
#[tactic(auto, using(crate::proofs::Noting::noting), unfolding(pli_typing::specs::TypedView::offset_of))]
pub fn offset_wanted<'a>(
    notes: &mut Notes,
    area: Option<Variable>,
    place: Place,
    value: Option<Value<'a>>,
) -> Offset<'a>
    ensures noted { notes_of notes.new ≡ noted (notes_of notes.old) (C.offset_wanted (area_of area) place (option_of value_of value.entry)) }
    ensures value { offset_of result ≡ (C.offset_wanted (area_of area) place (option_of value_of value.entry)).value }
{
    match value {
        None => Offset::Null,
        Some(value) => offset_or_mismatch(notes, place, offset_of(area, value)),
    }
}
