// The built-in functions POINTER and OFFSET.

ghost use Rattle.std.specs.Prelude.{◌≡◌, None, [], ◌∷◌, map, IfOk, OnOk};
ghost use Rattle.pli_typing.specs.Builtins as B;
ghost use Rattle.pli_typing.specs.Converting as C;
ghost use Rattle.pli_typing.specs.TypedTree as Y;
ghost use Rattle.pli_typing.specs.TypedView.{offset_of, pointer_of, value_of};
ghost use Rattle.pli_language.specs.View.{option_of};
ghost use Rattle.pli_operand.specs.Notes.{noted};
ghost use Rattle.pli_operand.specs.Shown.{notes_of, operand_of, referent_of};
ghost use Rattle.pli_builtin.specs.Parts.{offset_operand};

use crate::argument::{Pair, bad_pointer, two};
use crate::node;
use crate::operator::pointer_answer;
use pli_language::expr::Place;
use pli_language::fault::SourceKind;
use pli_operand::notes::Notes;
use pli_operand::operand::{Operand, Referent};
use pli_operand::stored::area_operand;
use pli_operand::value::{operand_value, pointer_operand};
use pli_operand::wanted::offset_or_mismatch;
use pli_typing::typed::{Offset, Pointer, Value};
use std::alloc::{AllocError, Global};

/// An OFFSET, whatever its area, or NULL.
#[tactic(auto, unfolding(pli_typing::specs::TypedView::offset_of))]
fn own_offset<'a>(value: Value<'a>) -> Option<Offset<'a>>
    ensures { option_of offset_of result ≡ B.own_offset (value_of value.entry) }
{
    match value {
        Value::Offset { value, .. } => Some(Box::into_inner(value)),
        Value::Null => Some(Offset::Null),
        Value::Number { .. } | Value::Text(_) | Value::Bit(_) | Value::Pointer(_) => None,
    }
}

#[tactic(auto, using(pli_operand::proofs::Noting::noting), unfolding(pli_typing::specs::TypedView::offset_of))]
fn own_offset_wanted<'a>(notes: &mut Notes, place: Place, value: Option<Value<'a>>) -> Offset<'a>
    ensures noted { notes_of notes.new ≡ noted (notes_of notes.old) (C.wanted B.own_offset Y.NullOffset place (option_of value_of value.entry)) }
    ensures value { offset_of result ≡ (C.wanted B.own_offset Y.NullOffset place (option_of value_of value.entry)).value }
{
    match value {
        None => Offset::Null,
        Some(value) => offset_or_mismatch(notes, place, own_offset(value)),
    }
}

/// An operand that is an OFFSET or NULL.
#[tactic(auto, using(pli_operand::proofs::Noting::noting))]
fn offset_operand<'a>(
    alloc: Global,
    notes: &mut Notes,
    operand: Operand<'_, 'a>,
) -> Result<Offset<'a>, AllocError>
    ensures noted { OnOk result (notes_of notes.new ≡ noted (notes_of notes.old) (offset_operand (operand_of operand.entry))) }
    ensures value { IfOk result (λ o. offset_of o ≡ (offset_operand (operand_of operand.entry)).value) }
{
    let place = operand.place;
    let value = operand_value(alloc, notes, operand)?;
    Ok(own_offset_wanted(notes, place, value))
}

#[tactic(auto, using(pli_operand::proofs::Noting::noting))]
fn pointer_of_offset<'t, 'a>(
    alloc: Global,
    notes: &mut Notes,
    place: Place,
    offset: Operand<'t, 'a>,
    area: Operand<'t, 'a>,
) -> Result<Referent<'t, 'a>, AllocError>
    ensures noted { OnOk result (notes_of notes.new ≡ noted (notes_of notes.old) (B.pointer_given (B.pointer_into place (operand_of offset.entry ∷ operand_of area.entry ∷ [])))) }
    ensures value { IfOk result (λ r. referent_of r ≡ (B.pointer_given (B.pointer_into place (operand_of offset.entry ∷ operand_of area.entry ∷ []))).value) }
{
    let offset = offset_operand(alloc, notes, offset)?;
    let area = area_operand(notes, &area);
    pointer_answer(alloc, node::pointer_into(alloc, offset, area)?)
}

/// POINTER.
#[tactic(auto, using(pli_operand::proofs::Noting::noting, crate::proofs::Counted::bad_pointer_into))]
pub fn pointer_into<'t, 'a>(
    alloc: Global,
    notes: &mut Notes,
    place: Place,
    operands: Vec<Operand<'t, 'a>>,
) -> Result<Referent<'t, 'a>, AllocError>
    ensures noted { OnOk result (notes_of notes.new ≡ noted (notes_of notes.old) (B.pointer_given (B.pointer_into place (map operand_of operands.entry.items)))) }
    ensures value { IfOk result (λ r. referent_of r ≡ (B.pointer_given (B.pointer_into place (map operand_of operands.entry.items))).value) }
{
    match two(operands.into_iter()) {
        Some(
            Pair {
                first: offset,
                second: area,
            },
        ) => pointer_of_offset(alloc, notes, place, offset, area),
        None => Ok(bad_pointer(alloc, notes, place)?),
    }
}

fn offset_answer<'t, 'a>(alloc: Global, offset: Offset<'a>) -> Result<Referent<'t, 'a>, AllocError>
    ensures { IfOk result (λ r. referent_of r ≡ C.Gives (Y.OffsetValue None (offset_of offset.entry))) }
{
    Ok(Referent::Gives(Value::Offset {
        area: None,
        value: Box::new(alloc, offset)?,
    }))
}

#[tactic(auto, using(pli_operand::proofs::Noting::noting), unfolding(pli_typing::specs::TypedView::offset_of))]
fn bad_offset<'t, 'a>(
    alloc: Global,
    notes: &mut Notes,
    place: Place,
) -> Result<Referent<'t, 'a>, AllocError>
    ensures noted { OnOk result (notes_of notes.new ≡ noted (notes_of notes.old) (B.offset_into place [])) }
    ensures value { IfOk result (λ r. referent_of r ≡ (B.offset_into place []).value) }
{
    notes.broken(place, SourceKind::BadArguments);
    offset_answer(alloc, Offset::Null)
}

#[tactic(auto, using(pli_operand::proofs::Noting::noting))]
fn offset_of_pointer<'t, 'a>(
    alloc: Global,
    notes: &mut Notes,
    place: Place,
    pointer: Operand<'t, 'a>,
    area: Operand<'t, 'a>,
) -> Result<Referent<'t, 'a>, AllocError>
    ensures noted { OnOk result (notes_of notes.new ≡ noted (notes_of notes.old) (B.offset_into place (operand_of pointer.entry ∷ operand_of area.entry ∷ []))) }
    ensures value { IfOk result (λ r. referent_of r ≡ (B.offset_into place (operand_of pointer.entry ∷ operand_of area.entry ∷ [])).value) }
{
    let pointer = pointer_operand(alloc, notes, pointer)?;
    let area = area_operand(notes, &area);
    offset_answer(alloc, node::offset_into(alloc, pointer, area)?)
}

/// OFFSET. The answer belongs to no declared area.
#[tactic(auto, using(pli_operand::proofs::Noting::noting, crate::proofs::Counted::bad_offset_into))]
pub fn offset_into<'t, 'a>(
    alloc: Global,
    notes: &mut Notes,
    place: Place,
    operands: Vec<Operand<'t, 'a>>,
) -> Result<Referent<'t, 'a>, AllocError>
    ensures noted { OnOk result (notes_of notes.new ≡ noted (notes_of notes.old) (B.offset_into place (map operand_of operands.entry.items))) }
    ensures value { IfOk result (λ r. referent_of r ≡ (B.offset_into place (map operand_of operands.entry.items)).value) }
{
    match two(operands.into_iter()) {
        Some(
            Pair {
                first: pointer,
                second: area,
            },
        ) => offset_of_pointer(alloc, notes, place, pointer, area),
        None => Ok(bad_offset(alloc, notes, place)?),
    }
}
