// The values of operands.

ghost use Rattle.std.specs.Prelude.{◌≡◌, None, IfOk, OnOk};
ghost use Rattle.pli_language.specs.declared.fault.SourceKind.TheVariants.{TypeMismatch};
ghost use Rattle.pli_typing.specs.Converting as C;
ghost use Rattle.pli_language.specs.Refusals.{fault};
ghost use Rattle.pli_typing.specs.TypedTree as Y;
ghost use Rattle.pli_typing.specs.TypedView.{area_of, arguments_of, bit_of, call_of, leaf_type_of, number_of, offset_of, pointer_of, reference_of, text_of, value_of};
ghost use Rattle.pli_language.specs.View.{option_of};
ghost use Rattle.pli_operand.specs.Notes.{noted, with_fault};
ghost use Rattle.pli_operand.specs.Shown.{designated_of, notes_of, operand_of, referent_of};

use crate::notes::Notes;
use crate::operand::{Designated, Operand, Referent};
use crate::shape::scalar_type;
use crate::wanted::{number_wanted, own_bit_wanted, pointer_wanted, text_wanted};
use pli_language::expr::Place;
use pli_language::fault::SourceKind;
use pli_typing::typed::{
    Arguments, Bit, Call, Callee, LeafType, Number, Offset, Pointer, Reference, Text, Value,
    Variable,
};
use std::alloc::{AllocError, Global};

#[tactic(auto, unfolding(pli_typing::specs::TypedView::number_of))]
fn number_in<'a>(
    alloc: Global,
    precision: u64,
    reference: Reference<'a>,
) -> Result<Value<'a>, AllocError>
    ensures { IfOk result (λ v. value_of v ≡ Y.NumberValue precision (Y.NumberIn (reference_of reference.entry))) }
{
    Ok(Value::Number {
        precision,
        value: Box::new(alloc, Number::In(Box::new(alloc, reference)?))?,
    })
}

#[tactic(auto, unfolding(pli_typing::specs::TypedView::text_of))]
fn text_in<'a>(alloc: Global, reference: Reference<'a>) -> Result<Value<'a>, AllocError>
    ensures { IfOk result (λ v. value_of v ≡ Y.TextValue (Y.TextIn (reference_of reference.entry))) }
{
    let text = Text::In(Box::new(alloc, reference)?);
    Ok(Value::Text(Box::new(alloc, text)?))
}

#[tactic(auto, unfolding(pli_typing::specs::TypedView::bit_of))]
fn bit_in<'a>(alloc: Global, reference: Reference<'a>) -> Result<Value<'a>, AllocError>
    ensures { IfOk result (λ v. value_of v ≡ Y.BitValue (Y.BitIn (reference_of reference.entry))) }
{
    let bit = Bit::In(Box::new(alloc, reference)?);
    Ok(Value::Bit(Box::new(alloc, bit)?))
}

#[tactic(auto, unfolding(pli_typing::specs::TypedView::pointer_of))]
fn pointer_in<'a>(alloc: Global, reference: Reference<'a>) -> Result<Value<'a>, AllocError>
    ensures { IfOk result (λ v. value_of v ≡ Y.PointerValue (Y.PointerIn (reference_of reference.entry))) }
{
    let pointer = Pointer::In(Box::new(alloc, reference)?);
    Ok(Value::Pointer(Box::new(alloc, pointer)?))
}

#[tactic(auto, unfolding(pli_typing::specs::TypedView::offset_of))]
fn offset_in<'a>(
    alloc: Global,
    area: Option<Variable>,
    reference: Reference<'a>,
) -> Result<Value<'a>, AllocError>
    ensures { IfOk result (λ v. value_of v ≡ Y.OffsetValue (area_of area) (Y.OffsetIn (reference_of reference.entry))) }
{
    Ok(Value::Offset {
        area,
        value: Box::new(alloc, Offset::In(Box::new(alloc, reference)?))?,
    })
}

/// What a scalar of a kind holds; an area has no value.
pub fn value_in<'a>(
    alloc: Global,
    kind: LeafType,
    reference: Reference<'a>,
) -> Result<Option<Value<'a>>, AllocError>
    ensures { IfOk result (λ v. option_of value_of v ≡ C.value_in (leaf_type_of kind) (reference_of reference.entry)) }
{
    match kind {
        LeafType::Fixed(precision) => Ok(Some(number_in(alloc, precision, reference)?)),
        LeafType::Character(_) | LeafType::Varying(_) => Ok(Some(text_in(alloc, reference)?)),
        LeafType::Bit => Ok(Some(bit_in(alloc, reference)?)),
        LeafType::Pointer => Ok(Some(pointer_in(alloc, reference)?)),
        LeafType::Offset(area) => Ok(Some(offset_in(alloc, area, reference)?)),
        LeafType::Area(_) => Ok(None),
    }
}

#[tactic(auto, unfolding(pli_typing::specs::TypedView::number_of))]
fn number_from<'a, 't>(
    alloc: Global,
    precision: u64,
    callee: Callee,
    arguments: Arguments<'a>,
) -> Result<Referent<'t, 'a>, AllocError>
    ensures { IfOk result (λ r. referent_of r ≡ C.Gives (Y.NumberValue precision (Y.NumberFrom (Y.Calling callee.procedure callee.level (arguments_of arguments.entry))))) }
{
    let value = Number::From {
        callee,
        arguments: Box::new(alloc, arguments)?,
    };
    Ok(Referent::Gives(Value::Number {
        precision,
        value: Box::new(alloc, value)?,
    }))
}

#[tactic(auto, unfolding(pli_typing::specs::TypedView::text_of))]
fn text_from<'a, 't>(
    alloc: Global,
    callee: Callee,
    arguments: Arguments<'a>,
) -> Result<Referent<'t, 'a>, AllocError>
    ensures { IfOk result (λ r. referent_of r ≡ C.Gives (Y.TextValue (Y.TextFrom (Y.Calling callee.procedure callee.level (arguments_of arguments.entry))))) }
{
    let text = Text::From {
        callee,
        arguments: Box::new(alloc, arguments)?,
    };
    Ok(Referent::Gives(Value::Text(Box::new(alloc, text)?)))
}

#[tactic(auto, unfolding(pli_typing::specs::TypedView::bit_of))]
fn bit_from<'a, 't>(
    alloc: Global,
    callee: Callee,
    arguments: Arguments<'a>,
) -> Result<Referent<'t, 'a>, AllocError>
    ensures { IfOk result (λ r. referent_of r ≡ C.Gives (Y.BitValue (Y.BitFrom (Y.Calling callee.procedure callee.level (arguments_of arguments.entry))))) }
{
    let bit = Bit::From {
        callee,
        arguments: Box::new(alloc, arguments)?,
    };
    Ok(Referent::Gives(Value::Bit(Box::new(alloc, bit)?)))
}

#[tactic(auto, unfolding(pli_typing::specs::TypedView::pointer_of))]
fn pointer_from<'a, 't>(
    alloc: Global,
    callee: Callee,
    arguments: Arguments<'a>,
) -> Result<Referent<'t, 'a>, AllocError>
    ensures { IfOk result (λ r. referent_of r ≡ C.Gives (Y.PointerValue (Y.PointerFrom (Y.Calling callee.procedure callee.level (arguments_of arguments.entry))))) }
{
    let pointer = Pointer::From {
        callee,
        arguments: Box::new(alloc, arguments)?,
    };
    Ok(Referent::Gives(Value::Pointer(Box::new(alloc, pointer)?)))
}

#[tactic(auto, unfolding(pli_typing::specs::TypedView::offset_of))]
fn offset_from<'a, 't>(
    alloc: Global,
    area: Option<Variable>,
    callee: Callee,
    arguments: Arguments<'a>,
) -> Result<Referent<'t, 'a>, AllocError>
    ensures { IfOk result (λ r. referent_of r ≡ C.Gives (Y.OffsetValue (area_of area) (Y.OffsetFrom (Y.Calling callee.procedure callee.level (arguments_of arguments.entry))))) }
{
    let value = Offset::From {
        callee,
        arguments: Box::new(alloc, arguments)?,
    };
    Ok(Referent::Gives(Value::Offset {
        area,
        value: Box::new(alloc, value)?,
    }))
}

/// What a function with this kind in RETURNS gives.
pub fn value_from<'a, 't>(
    alloc: Global,
    kind: LeafType,
    call: Call<'a>,
) -> Result<Referent<'t, 'a>, AllocError>
    ensures { IfOk result (λ r. referent_of r ≡ C.value_from (leaf_type_of kind) (call_of call.entry)) }
{
    let Call { callee, arguments } = call;
    match kind {
        LeafType::Fixed(precision) => number_from(alloc, precision, callee, arguments),
        LeafType::Character(_) | LeafType::Varying(_) => text_from(alloc, callee, arguments),
        LeafType::Bit => bit_from(alloc, callee, arguments),
        LeafType::Pointer => pointer_from(alloc, callee, arguments),
        LeafType::Offset(area) => offset_from(alloc, area, callee, arguments),
        LeafType::Area(_) => Ok(Referent::Nothing),
    }
}

/// The value of a scalar, where there is one.
pub fn value_with_type<'a>(
    alloc: Global,
    reference: Reference<'a>,
    kind: Option<LeafType>,
) -> Result<Option<Value<'a>>, AllocError>
    ensures { IfOk result (λ v. option_of value_of v ≡ C.value_with_type (reference_of reference.entry) (option_of leaf_type_of kind)) }
{
    match kind {
        Some(kind) => value_in(alloc, kind, reference),
        None => Ok(None),
    }
}

/// A value, or a mismatch at its place.
#[tactic(auto, using(crate::proofs::Noting::noting))]
fn value_or_mismatch<'a>(
    notes: &mut Notes,
    place: Place,
    value: Option<Value<'a>>,
) -> Option<Value<'a>>
    ensures noted { notes_of notes.new ≡ noted (notes_of notes.old) (C.value_or_mismatch place (option_of value_of value.entry)) }
    ensures value { option_of value_of result ≡ (C.value_or_mismatch place (option_of value_of value.entry)).value }
{
    if value.is_none() {
        notes.broken(place, SourceKind::TypeMismatch);
    }
    value
}

#[tactic(auto, using(crate::proofs::Noting::noting))]
fn designated_value<'a>(
    alloc: Global,
    notes: &mut Notes,
    place: Place,
    designated: Designated<'_, 'a>,
) -> Result<Option<Value<'a>>, AllocError>
    ensures noted { OnOk result (notes_of notes.new ≡ noted (notes_of notes.old) (C.referent_value place (C.Designates (designated_of designated.entry)))) }
    ensures value { IfOk result (λ v. option_of value_of v ≡ (C.referent_value place (C.Designates (designated_of designated.entry))).value) }
{
    let kind = scalar_type(&designated);
    let value = value_with_type(alloc, designated.reference, kind)?;
    Ok(value_or_mismatch(notes, place, value))
}

/// No value where one is wanted.
#[tactic(auto, using(crate::proofs::Noting::noting))]
fn no_value<'a>(notes: &mut Notes, place: Place) -> Option<Value<'a>>
    ensures noted { notes_of notes.new ≡ with_fault (notes_of notes.old) (fault place TypeMismatch) }
    ensures value { option_of value_of result ≡ None }
{
    notes.broken(place, SourceKind::TypeMismatch);
    None
}

/// The value that is given: an aggregate, an area and what has no value break a rule, and what isn't known breaks none.
#[tactic(auto, using(crate::proofs::Noting::noting))]
pub fn referent_value<'a>(
    alloc: Global,
    notes: &mut Notes,
    place: Place,
    referent: Referent<'_, 'a>,
) -> Result<Option<Value<'a>>, AllocError>
    ensures noted { OnOk result (notes_of notes.new ≡ noted (notes_of notes.old) (C.referent_value place (referent_of referent.entry))) }
    ensures value { IfOk result (λ v. option_of value_of v ≡ (C.referent_value place (referent_of referent.entry)).value) }
{
    match referent {
        Referent::Designates(designated) => designated_value(alloc, notes, place, designated),
        Referent::Gives(value) => Ok(Some(value)),
        Referent::EmptyArea | Referent::Nothing => Ok(no_value(notes, place)),
        Referent::UnknownValue | Referent::NotKnown => Ok(None),
    }
}

/// The value of an operand.
pub fn operand_value<'a>(
    alloc: Global,
    notes: &mut Notes,
    operand: Operand<'_, 'a>,
) -> Result<Option<Value<'a>>, AllocError>
    ensures noted { OnOk result (notes_of notes.new ≡ noted (notes_of notes.old) (C.operand_value (operand_of operand.entry))) }
    ensures value { IfOk result (λ v. option_of value_of v ≡ (C.operand_value (operand_of operand.entry)).value) }
{
    referent_value(alloc, notes, operand.place, operand.referent)
}

/// An operand that is a number.
#[tactic(auto, using(crate::proofs::Noting::noting))]
pub fn number_operand<'a>(
    alloc: Global,
    notes: &mut Notes,
    operand: Operand<'_, 'a>,
) -> Result<Number<'a>, AllocError>
    ensures noted { OnOk result (notes_of notes.new ≡ noted (notes_of notes.old) (C.number_operand (operand_of operand.entry))) }
    ensures value { IfOk result (λ x. number_of x ≡ (C.number_operand (operand_of operand.entry)).value) }
{
    let place = operand.place;
    let value = operand_value(alloc, notes, operand)?;
    Ok(number_wanted(notes, place, value))
}

/// An operand that is a text.
#[tactic(auto, using(crate::proofs::Noting::noting))]
pub fn text_operand<'a>(
    alloc: Global,
    notes: &mut Notes,
    operand: Operand<'_, 'a>,
) -> Result<Text<'a>, AllocError>
    ensures noted { OnOk result (notes_of notes.new ≡ noted (notes_of notes.old) (C.text_operand (operand_of operand.entry))) }
    ensures value { IfOk result (λ x. text_of x ≡ (C.text_operand (operand_of operand.entry)).value) }
{
    let place = operand.place;
    let value = operand_value(alloc, notes, operand)?;
    Ok(text_wanted(notes, place, value))
}

/// An operand that is a bit, and isn't converted.
#[tactic(auto, using(crate::proofs::Noting::noting))]
pub fn own_bit_operand<'a>(
    alloc: Global,
    notes: &mut Notes,
    operand: Operand<'_, 'a>,
) -> Result<Bit<'a>, AllocError>
    ensures noted { OnOk result (notes_of notes.new ≡ noted (notes_of notes.old) (C.own_bit_operand (operand_of operand.entry))) }
    ensures value { IfOk result (λ x. bit_of x ≡ (C.own_bit_operand (operand_of operand.entry)).value) }
{
    let place = operand.place;
    let value = operand_value(alloc, notes, operand)?;
    Ok(own_bit_wanted(notes, place, value))
}

/// An operand that is a POINTER.
#[tactic(auto, using(crate::proofs::Noting::noting))]
pub fn pointer_operand<'a>(
    alloc: Global,
    notes: &mut Notes,
    operand: Operand<'_, 'a>,
) -> Result<Pointer<'a>, AllocError>
    ensures noted { OnOk result (notes_of notes.new ≡ noted (notes_of notes.old) (C.pointer_operand (operand_of operand.entry))) }
    ensures value { IfOk result (λ x. pointer_of x ≡ (C.pointer_operand (operand_of operand.entry)).value) }
{
    let place = operand.place;
    let value = operand_value(alloc, notes, operand)?;
    Ok(pointer_wanted(notes, place, value))
}
