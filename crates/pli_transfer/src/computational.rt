// Numbers, texts and bits, which each convert to numbers and to texts.

ghost use Rattle.std.specs.Prelude.{◌≡◌, Some, IfOk, OnOk};
ghost use Rattle.pli_language.specs.declared.fault.SourceKind.TheVariants.{TypeMismatch};
ghost use Rattle.pli_typing.specs.Assigning as A;
ghost use Rattle.pli_language.specs.Refusals.{fault};
ghost use Rattle.pli_typing.specs.TypedView.{value_of};
ghost use Rattle.pli_language.specs.View.{option_of};
ghost use Rattle.pli_operand.specs.Notes.{noted, with_fault};
ghost use Rattle.pli_operand.specs.Shown.{notes_of, operand_of};

use pli_language::expr::Place;
use pli_language::fault::SourceKind;
use pli_operand::notes::Notes;
use pli_operand::operand::Operand;
use pli_operand::value::operand_value;
use pli_typing::typed::Value;
use std::alloc::{AllocError, Global};

/// A value that converts to no number and no text.
#[tactic(auto, using(pli_operand::proofs::Noting::noting))]
fn mismatched<'a>(notes: &mut Notes, place: Place, value: Value<'a>) -> Value<'a>
    ensures noted { notes_of notes.new ≡ with_fault (notes_of notes.old) (fault place TypeMismatch) }
    ensures value { value_of result ≡ value_of value.entry }
{
    notes.broken(place, SourceKind::TypeMismatch);
    value
}

/// A value of a kind: a number, a text or a bit.
#[tactic(auto, using(pli_operand::proofs::Noting::noting))]
fn computational_value<'a>(notes: &mut Notes, place: Place, value: Value<'a>) -> Value<'a>
    ensures noted { notes_of notes.new ≡ noted (notes_of notes.old) (A.computational place (Some (value_of value.entry))) }
    ensures value { value_of result ≡ (A.computational place (Some (value_of value.entry))).value }
{
    match value {
        Value::Number { precision, value } => Value::Number { precision, value },
        Value::Text(text) => Value::Text(text),
        Value::Bit(bit) => Value::Bit(bit),
        Value::Pointer(pointer) => mismatched(notes, place, Value::Pointer(pointer)),
        Value::Offset { area, value } => mismatched(notes, place, Value::Offset { area, value }),
        Value::Null => mismatched(notes, place, Value::Null),
    }
}

/// A number, a text or a bit; nothing is wrong with what isn't known.
#[tactic(auto, using(pli_operand::proofs::Noting::noting))]
pub fn computational<'a>(notes: &mut Notes, place: Place, value: Option<Value<'a>>) -> Value<'a>
    ensures noted { notes_of notes.new ≡ noted (notes_of notes.old) (A.computational place (option_of value_of value.entry)) }
    ensures value { value_of result ≡ (A.computational place (option_of value_of value.entry)).value }
{
    match value {
        Some(value) => computational_value(notes, place, value),
        None => Value::Null,
    }
}

/// An operand that is a number, a text or a bit.
#[tactic(auto, using(pli_operand::proofs::Noting::noting))]
pub fn computational_operand<'a>(
    alloc: Global,
    notes: &mut Notes,
    operand: Operand<'_, 'a>,
) -> Result<Value<'a>, AllocError>
    ensures noted { OnOk result (notes_of notes.new ≡ noted (notes_of notes.old) (A.computational_operand (operand_of operand.entry))) }
    ensures value { IfOk result (λ v. value_of v ≡ (A.computational_operand (operand_of operand.entry)).value) }
{
    let place = operand.place;
    let value = operand_value(alloc, notes, operand)?;
    Ok(computational(notes, place, value))
}
