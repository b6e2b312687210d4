// Values on their way into storage, and areas.

ghost use Rattle.std.specs.Prelude.{◌≡◌, None, false, is_some, IfOk, OnOk};
ghost use Rattle.pli_language.specs.declared.fault.SourceKind.TheVariants.{TypeMismatch};
ghost use Rattle.pli_typing.specs.Converting as C;
ghost use Rattle.pli_language.specs.Refusals.{fault};
ghost use Rattle.pli_typing.specs.TypedTree as Y;
ghost use Rattle.pli_typing.specs.TypedView.{area_of, leaf_type_of, reference_of, stored_of, value_of, variable_of};
ghost use Rattle.pli_language.specs.View.{option_of};
ghost use Rattle.pli_operand.specs.Notes.{noted, with_fault};
ghost use Rattle.pli_operand.specs.Shown.{designated_of, notes_of, operand_of, referent_of};

use crate::notes::Notes;
use crate::operand::{Designated, Operand, Referent};
use crate::shape::{is_area, variable_of};
use crate::value::operand_value;
use crate::wanted::{bit_wanted, number_wanted, offset_wanted, pointer_wanted, text_wanted};
use pli_language::expr::Place;
use pli_language::fault::SourceKind;
use pli_typing::typed::{
    Bit, LeafType, Numbers, Part, Reference, StorageClass, Stored, Value, Variable,
};
use std::alloc::{AllocError, Global};

#[tactic(auto, using(crate::proofs::Noting::noting), unfolding(pli_typing::specs::TypedView::stored_of))]
fn number_stored<'a>(
    notes: &mut Notes,
    precision: u64,
    place: Place,
    value: Option<Value<'a>>,
) -> Stored<'a>
    ensures noted { notes_of notes.new ≡ noted (notes_of notes.old) (C.number_stored precision (C.number_wanted place (option_of value_of value.entry))) }
    ensures value { stored_of result ≡ (C.number_stored precision (C.number_wanted place (option_of value_of value.entry))).value }
{
    Stored::Number {
        precision,
        value: number_wanted(notes, place, value),
    }
}

#[tactic(auto, using(crate::proofs::Noting::noting), unfolding(pli_typing::specs::TypedView::stored_of))]
fn text_stored<'a>(notes: &mut Notes, place: Place, value: Option<Value<'a>>) -> Stored<'a>
    ensures noted { notes_of notes.new ≡ noted (notes_of notes.old) (C.text_stored (C.text_wanted place (option_of value_of value.entry))) }
    ensures value { stored_of result ≡ (C.text_stored (C.text_wanted place (option_of value_of value.entry))).value }
{
    Stored::Text(text_wanted(notes, place, value))
}

#[tactic(auto, using(crate::proofs::Noting::noting), unfolding(pli_typing::specs::TypedView::stored_of))]
fn bit_stored<'a>(notes: &mut Notes, place: Place, value: Option<Value<'a>>) -> Stored<'a>
    ensures noted { notes_of notes.new ≡ noted (notes_of notes.old) (C.bit_stored (C.bit_wanted place (option_of value_of value.entry))) }
    ensures value { stored_of result ≡ (C.bit_stored (C.bit_wanted place (option_of value_of value.entry))).value }
{
    Stored::Bit(bit_wanted(notes, place, value))
}

#[tactic(auto, using(crate::proofs::Noting::noting), unfolding(pli_typing::specs::TypedView::stored_of))]
fn pointer_stored<'a>(notes: &mut Notes, place: Place, value: Option<Value<'a>>) -> Stored<'a>
    ensures noted { notes_of notes.new ≡ noted (notes_of notes.old) (C.pointer_stored (C.pointer_wanted place (option_of value_of value.entry))) }
    ensures value { stored_of result ≡ (C.pointer_stored (C.pointer_wanted place (option_of value_of value.entry))).value }
{
    Stored::Pointer(pointer_wanted(notes, place, value))
}

#[tactic(auto, using(crate::proofs::Noting::noting), unfolding(pli_typing::specs::TypedView::stored_of))]
fn offset_stored<'a>(
    notes: &mut Notes,
    area: Option<Variable>,
    place: Place,
    value: Option<Value<'a>>,
) -> Stored<'a>
    ensures noted { notes_of notes.new ≡ noted (notes_of notes.old) (C.offset_stored (C.offset_wanted (area_of area) place (option_of value_of value.entry))) }
    ensures value { stored_of result ≡ (C.offset_stored (C.offset_wanted (area_of area) place (option_of value_of value.entry))).value }
{
    Stored::Offset(offset_wanted(notes, area, place, value))
}

/// There is a value.
fn is_given(value: Option<Value>) -> bool
    ensures { result ≡ is_some (option_of value_of value.entry) }
{
    value.is_some()
}

/// No value goes into an area.
#[tactic(auto, using(crate::proofs::Noting::noting), unfolding(pli_typing::specs::TypedView::stored_of, pli_typing::specs::TypedView::bit_of))]
fn none_stored<'a>(notes: &mut Notes, place: Place, value: Option<Value<'a>>) -> Stored<'a>
    ensures noted { notes_of notes.new ≡ noted (notes_of notes.old) (C.wanted (λ w. None) (Y.StoredBit (Y.BitConstant false)) place (option_of value_of value.entry)) }
    ensures value { stored_of result ≡ (C.wanted (λ w. None) (Y.StoredBit (Y.BitConstant false)) place (option_of value_of value.entry)).value }
{
    if is_given(value) {
        notes.broken(place, SourceKind::TypeMismatch);
    }
    Stored::Bit(Bit::Constant(false))
}

/// A value converted to the kind of the scalar that it goes into.
#[tactic(auto, using(crate::proofs::Noting::noting))]
pub fn stored_as<'a>(
    notes: &mut Notes,
    kind: LeafType,
    place: Place,
    value: Option<Value<'a>>,
) -> Stored<'a>
    ensures noted { notes_of notes.new ≡ noted (notes_of notes.old) (C.stored_as (leaf_type_of kind) place (option_of value_of value.entry)) }
    ensures value { stored_of result ≡ (C.stored_as (leaf_type_of kind) place (option_of value_of value.entry)).value }
{
    match kind {
        LeafType::Fixed(precision) => number_stored(notes, precision, place, value),
        LeafType::Character(_) | LeafType::Varying(_) => text_stored(notes, place, value),
        LeafType::Bit => bit_stored(notes, place, value),
        LeafType::Pointer => pointer_stored(notes, place, value),
        LeafType::Offset(area) => offset_stored(notes, area, place, value),
        LeafType::Area(_) => none_stored(notes, place, value),
    }
}

/// An operand's value converted to the kind of the scalar that it goes into.
#[tactic(auto, using(crate::proofs::Noting::noting))]
pub fn operand_stored<'a>(
    alloc: Global,
    notes: &mut Notes,
    kind: LeafType,
    operand: Operand<'_, 'a>,
) -> Result<Stored<'a>, AllocError>
    ensures noted { OnOk result (notes_of notes.new ≡ noted (notes_of notes.old) (C.operand_stored (leaf_type_of kind) (operand_of operand.entry))) }
    ensures value { IfOk result (λ s. stored_of s ≡ (C.operand_stored (leaf_type_of kind) (operand_of operand.entry)).value) }
{
    let place = operand.place;
    let value = operand_value(alloc, notes, operand)?;
    Ok(stored_as(notes, kind, place, value))
}

/// Stands in for a variable.
pub fn no_variable() -> Variable
    ensures { variable_of result ≡ C.no_variable }
{
    Variable {
        class: StorageClass::Automatic,
        block: 0,
        level: 0,
        index: 0,
    }
}

/// Stands in for a reference.
#[tactic(auto, unfolding(pli_typing::specs::TypedView::reference_of, pli_typing::specs::TypedView::numbers_of))]
pub fn no_reference<'a>() -> Reference<'a>
    ensures { reference_of result ≡ C.no_reference }
{
    Reference::Plain {
        variable: no_variable(),
        part: Part { first: 0, count: 0 },
        subscripts: Numbers::End,
    }
}

#[tactic(auto, using(crate::proofs::Noting::noting))]
fn no_area(notes: &mut Notes, place: Place) -> Variable
    ensures noted { notes_of notes.new ≡ with_fault (notes_of notes.old) (fault place TypeMismatch) }
    ensures value { variable_of result ≡ C.no_variable }
{
    notes.broken(place, SourceKind::TypeMismatch);
    no_variable()
}

#[tactic(auto, using(crate::proofs::Noting::noting))]
fn designated_area(notes: &mut Notes, place: Place, designated: &Designated) -> Variable
    ensures noted { notes_of notes.new ≡ noted (notes_of notes.old) (C.area_referent place (C.Designates (designated_of designated.now))) }
    ensures value { variable_of result ≡ (C.area_referent place (C.Designates (designated_of designated.now))).value }
{
    if is_area(designated) {
        return variable_of(&designated.reference);
    }
    no_area(notes, place)
}

/// An area where one is needed.
#[tactic(auto, using(crate::proofs::Noting::noting))]
pub fn area_operand(notes: &mut Notes, operand: &Operand) -> Variable
    ensures noted { notes_of notes.new ≡ noted (notes_of notes.old) (C.area_operand (operand_of operand.now)) }
    ensures value { variable_of result ≡ (C.area_operand (operand_of operand.now)).value }
{
    match &operand.referent {
        Referent::Designates(designated) => designated_area(notes, operand.place, designated),
        Referent::Gives(_) | Referent::UnknownValue | Referent::EmptyArea | Referent::Nothing =>
            no_area(notes, operand.place),
        Referent::NotKnown => no_variable(),
    }
}
