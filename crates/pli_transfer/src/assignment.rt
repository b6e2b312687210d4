// Assignments.

ghost use Rattle.std.specs.Prelude.{◌≡◌, Some, None, IfOk, OnOk};
ghost use Rattle.pli_language.specs.declared.fault.SourceKind.TheVariants.{TypeMismatch};
ghost use Rattle.pli_typing.specs.Assigning as A;
ghost use Rattle.pli_typing.specs.Converting as C;
ghost use Rattle.pli_language.specs.Refusals.{fault};
ghost use Rattle.pli_typing.specs.TypedStatementView.{stmt_of};
ghost use Rattle.pli_typing.specs.TypedView.{leaf_type_of, reference_of, value_of, variable_of};
ghost use Rattle.pli_language.specs.View.{option_of};
ghost use Rattle.pli_operand.specs.Notes.{noted, with_fault};
ghost use Rattle.pli_operand.specs.Shown.{designated_of, notes_of, operand_of, referent_of};

use crate::matching::leaves_match;
use pli_language::expr::Place;
use pli_language::fault::SourceKind;
use pli_operand::notes::Notes;
use pli_operand::operand::{Designated, Operand, Referent};
use pli_operand::shape::{element_type, is_aggregate, is_area, scalar_type, variable_of};
use pli_operand::stored::{operand_stored, stored_as};
use pli_operand::value::referent_value;
use pli_typing::statement::Stmt;
use pli_typing::typed::{LeafType, Reference, Value, Variable};
use std::alloc::{AllocError, Global};

/// A statement that assigns nothing.
#[tactic(auto, unfolding(pli_typing::specs::TypedStatementView::stmt_of))]
fn nothing_done<'a>(place: Place) -> Stmt<'a>
    ensures { stmt_of result ≡ A.nothing_done place }
{
    Stmt::Null { line: place.line }
}

/// A mismatch at one place in a statement at the other.
#[tactic(auto, using(pli_operand::proofs::Noting::noting))]
fn mismatched<'a>(notes: &mut Notes, mismatch: Place, place: Place) -> Stmt<'a>
    ensures noted { notes_of notes.new ≡ with_fault (notes_of notes.old) (fault mismatch TypeMismatch) }
    ensures value { stmt_of result ≡ A.nothing_done place }
{
    notes.broken(mismatch, SourceKind::TypeMismatch);
    nothing_done(place)
}

/// A value into a scalar.
#[tactic(auto, using(pli_operand::proofs::Noting::noting), unfolding(pli_typing::specs::TypedStatementView::stmt_of))]
fn assigned_scalar<'a>(
    alloc: Global,
    notes: &mut Notes,
    place: Place,
    target: Reference<'a>,
    kind: LeafType,
    source: Operand<'_, 'a>,
) -> Result<Stmt<'a>, AllocError>
    ensures noted { OnOk result (notes_of notes.new ≡ noted (notes_of notes.old) (A.assigned_scalar place (reference_of target.entry) (leaf_type_of kind) (operand_of source.entry))) }
    ensures value { IfOk result (λ s. stmt_of s ≡ (A.assigned_scalar place (reference_of target.entry) (leaf_type_of kind) (operand_of source.entry)).value) }
{
    Ok(Stmt::Assign {
        target,
        source: operand_stored(alloc, notes, kind, source)?,
        line: place.line,
    })
}

#[tactic(auto, using(pli_operand::proofs::Noting::noting), unfolding(pli_typing::specs::TypedStatementView::stmt_of))]
fn area_to_area<'a>(
    notes: &mut Notes,
    place: Place,
    target: Variable,
    source_place: Place,
    source: &Designated,
) -> Stmt<'a>
    ensures noted { notes_of notes.new ≡ noted (notes_of notes.old) (A.area_to_area place (variable_of target) source_place (designated_of source.now)) }
    ensures value { stmt_of result ≡ (A.area_to_area place (variable_of target) source_place (designated_of source.now)).value }
{
    if is_area(source) {
        Stmt::AssignArea {
            target,
            source: variable_of(&source.reference),
            line: place.line,
        }
    } else {
        mismatched(notes, source_place, place)
    }
}

/// Into an area goes an area, or EMPTY().
#[tactic(auto, using(pli_operand::proofs::Noting::noting), unfolding(pli_typing::specs::TypedStatementView::stmt_of))]
fn assigned_area<'a>(
    notes: &mut Notes,
    place: Place,
    target: Variable,
    source: &Operand,
) -> Stmt<'a>
    ensures noted { notes_of notes.new ≡ noted (notes_of notes.old) (A.assigned_area place (variable_of target) source.now.place (referent_of source.now.referent)) }
    ensures value { stmt_of result ≡ (A.assigned_area place (variable_of target) source.now.place (referent_of source.now.referent)).value }
{
    match &source.referent {
        Referent::Designates(designated) => {
            area_to_area(notes, place, target, source.place, designated)
        }
        Referent::Gives(_) | Referent::Nothing => mismatched(notes, source.place, place),
        Referent::EmptyArea => Stmt::EmptyArea {
            target,
            line: place.line,
        },
        Referent::UnknownValue | Referent::NotKnown => nothing_done(place),
    }
}

/// One value into each element.
#[tactic(auto, using(pli_operand::proofs::Noting::noting), unfolding(pli_typing::specs::TypedStatementView::stmt_of))]
fn elements_stored<'a>(
    notes: &mut Notes,
    place: Place,
    target: Reference<'a>,
    kind: LeafType,
    source_place: Place,
    value: Value<'a>,
) -> Stmt<'a>
    ensures noted { notes_of notes.new ≡ noted (notes_of notes.old) (A.assigned_elements place (reference_of target.entry) (Some (leaf_type_of kind)) source_place (Some (value_of value.entry))) }
    ensures value { stmt_of result ≡ (A.assigned_elements place (reference_of target.entry) (Some (leaf_type_of kind)) source_place (Some (value_of value.entry))).value }
{
    Stmt::AssignElements {
        target,
        source: stored_as(notes, kind, source_place, Some(value)),
        line: place.line,
    }
}

/// Into an array goes a scalar, converted once; into a structure none.
#[tactic(auto, using(pli_operand::proofs::Noting::noting))]
fn assigned_value<'a>(
    notes: &mut Notes,
    place: Place,
    target: Designated<'_, 'a>,
    source_place: Place,
    value: Value<'a>,
) -> Stmt<'a>
    ensures noted { notes_of notes.new ≡ noted (notes_of notes.old) (A.assigned_elements place (reference_of target.entry.reference) (C.element_type (designated_of target.entry)) source_place (Some (value_of value.entry))) }
    ensures value { stmt_of result ≡ (A.assigned_elements place (reference_of target.entry.reference) (C.element_type (designated_of target.entry)) source_place (Some (value_of value.entry))).value }
{
    match element_type(&target) {
        Some(kind) => { elements_stored(notes, place, target.reference, kind, source_place, value) }
        None => mismatched(notes, source_place, place),
    }
}

/// The value into each element, where it is known.
#[tactic(auto, using(pli_operand::proofs::Noting::noting))]
fn assigned_elements<'a>(
    notes: &mut Notes,
    place: Place,
    target: Designated<'_, 'a>,
    source_place: Place,
    value: Option<Value<'a>>,
) -> Stmt<'a>
    ensures noted { notes_of notes.new ≡ noted (notes_of notes.old) (A.assigned_elements place (reference_of target.entry.reference) (C.element_type (designated_of target.entry)) source_place (option_of value_of value.entry)) }
    ensures value { stmt_of result ≡ (A.assigned_elements place (reference_of target.entry.reference) (C.element_type (designated_of target.entry)) source_place (option_of value_of value.entry)).value }
{
    match value {
        None => nothing_done(place),
        Some(value) => assigned_value(notes, place, target, source_place, value),
    }
}

/// The value of the source into each element.
#[tactic(auto, using(pli_operand::proofs::Noting::noting))]
fn assigned_each<'a>(
    alloc: Global,
    notes: &mut Notes,
    place: Place,
    target: Designated<'_, 'a>,
    source_place: Place,
    source: Referent<'_, 'a>,
) -> Result<Stmt<'a>, AllocError>
    ensures noted { OnOk result (notes_of notes.new ≡ noted (notes_of notes.old) (A.assigned_each place (designated_of target.entry) (record { place = source_place; constant = None; referent = referent_of source.entry }))) }
    ensures value { IfOk result (λ s. stmt_of s ≡ (A.assigned_each place (designated_of target.entry) (record { place = source_place; constant = None; referent = referent_of source.entry })).value) }
{
    let value = referent_value(alloc, notes, source_place, source)?;
    Ok(assigned_elements(notes, place, target, source_place, value))
}

#[tactic(auto, using(pli_operand::proofs::Noting::noting), unfolding(pli_typing::specs::TypedStatementView::stmt_of))]
fn assigned_matching<'a>(
    notes: &mut Notes,
    place: Place,
    target: Designated<'_, 'a>,
    source: Designated<'_, 'a>,
) -> Stmt<'a>
    ensures noted { notes_of notes.new ≡ noted (notes_of notes.old) (A.assigned_matching place (designated_of target.entry) (designated_of source.entry)) }
    ensures value { stmt_of result ≡ (A.assigned_matching place (designated_of target.entry) (designated_of source.entry)).value }
{
    if leaves_match(&target, &source) {
        Stmt::AssignAggregate {
            target: target.reference,
            source: source.reference,
            line: place.line,
        }
    } else {
        mismatched(notes, place, place)
    }
}

/// Into an aggregate goes an aggregate of equal leaves.
fn assigned_designated<'a>(
    alloc: Global,
    notes: &mut Notes,
    place: Place,
    target: Designated<'_, 'a>,
    source_place: Place,
    source: Designated<'_, 'a>,
) -> Result<Stmt<'a>, AllocError>
    ensures noted { OnOk result (notes_of notes.new ≡ noted (notes_of notes.old) (A.assigned_aggregate place (designated_of target.entry) (record { place = source_place; constant = None; referent = C.Designates (designated_of source.entry) }) (C.Designates (designated_of source.entry)))) }
    ensures value { IfOk result (λ s. stmt_of s ≡ (A.assigned_aggregate place (designated_of target.entry) (record { place = source_place; constant = None; referent = C.Designates (designated_of source.entry) }) (C.Designates (designated_of source.entry))).value) }
{
    if is_aggregate(&source) {
        Ok(assigned_matching(notes, place, target, source))
    } else {
        assigned_each(
            alloc,
            notes,
            place,
            target,
            source_place,
            Referent::Designates(source),
        )
    }
}

/// Into an aggregate goes an aggregate, or a scalar into each element.
fn assigned_aggregate<'a>(
    alloc: Global,
    notes: &mut Notes,
    place: Place,
    target: Designated<'_, 'a>,
    source: Operand<'_, 'a>,
) -> Result<Stmt<'a>, AllocError>
    ensures noted { OnOk result (notes_of notes.new ≡ noted (notes_of notes.old) (A.assigned_aggregate place (designated_of target.entry) (operand_of source.entry) (referent_of source.entry.referent))) }
    ensures value { IfOk result (λ s. stmt_of s ≡ (A.assigned_aggregate place (designated_of target.entry) (operand_of source.entry) (referent_of source.entry.referent)).value) }
{
    let Operand {
        place: source_place,
        referent,
        ..
    } = source;
    match referent {
        Referent::Designates(designated) => {
            assigned_designated(alloc, notes, place, target, source_place, designated)
        }
        Referent::Gives(value) => {
            assigned_each(
                alloc,
                notes,
                place,
                target,
                source_place,
                Referent::Gives(value),
            )
        }
        Referent::UnknownValue => assigned_each(
            alloc,
            notes,
            place,
            target,
            source_place,
            Referent::UnknownValue,
        ),
        Referent::EmptyArea => assigned_each(
            alloc,
            notes,
            place,
            target,
            source_place,
            Referent::EmptyArea,
        ),
        Referent::Nothing => assigned_each(
            alloc,
            notes,
            place,
            target,
            source_place,
            Referent::Nothing,
        ),
        Referent::NotKnown => assigned_each(
            alloc,
            notes,
            place,
            target,
            source_place,
            Referent::NotKnown,
        ),
    }
}

/// An area into a variable.
#[tactic(auto, using(pli_operand::proofs::Noting::noting))]
fn area_stored<'a>(
    notes: &mut Notes,
    place: Place,
    target: Reference<'a>,
    source: Operand<'_, 'a>,
) -> Stmt<'a>
    ensures noted { notes_of notes.new ≡ noted (notes_of notes.old) (A.assigned_area place (C.variable_of (reference_of target.entry)) source.entry.place (referent_of source.entry.referent)) }
    ensures value { stmt_of result ≡ (A.assigned_area place (C.variable_of (reference_of target.entry)) source.entry.place (referent_of source.entry.referent)).value }
{
    assigned_area(notes, place, variable_of(&target), &source)
}

/// Into a scalar goes a value, into an area an area.
#[tactic(auto, using(pli_operand::proofs::Noting::noting))]
fn assigned_single<'a>(
    alloc: Global,
    notes: &mut Notes,
    place: Place,
    target: Designated<'_, 'a>,
    kind: LeafType,
    source: Operand<'_, 'a>,
) -> Result<Stmt<'a>, AllocError>
    ensures noted { OnOk result (notes_of notes.new ≡ noted (notes_of notes.old) (A.assigned_to place (designated_of target.entry) (Some (leaf_type_of kind)) (operand_of source.entry))) }
    ensures value { IfOk result (λ s. stmt_of s ≡ (A.assigned_to place (designated_of target.entry) (Some (leaf_type_of kind)) (operand_of source.entry)).value) }
{
    match kind {
        LeafType::Area(_) => Ok(area_stored(notes, place, target.reference, source)),
        LeafType::Fixed(_)
        | LeafType::Character(_)
        | LeafType::Varying(_)
        | LeafType::Bit
        | LeafType::Pointer
        | LeafType::Offset(_) => {
            assigned_scalar(alloc, notes, place, target.reference, kind, source)
        }
    }
}

/// Into a part of a variable, by what it is.
#[tactic(auto, using(pli_operand::proofs::Noting::noting))]
fn assigned_to<'a>(
    alloc: Global,
    notes: &mut Notes,
    place: Place,
    target: Designated<'_, 'a>,
    source: Operand<'_, 'a>,
) -> Result<Stmt<'a>, AllocError>
    ensures noted { OnOk result (notes_of notes.new ≡ noted (notes_of notes.old) (A.assigned_to place (designated_of target.entry) (C.scalar_type (designated_of target.entry)) (operand_of source.entry))) }
    ensures value { IfOk result (λ s. stmt_of s ≡ (A.assigned_to place (designated_of target.entry) (C.scalar_type (designated_of target.entry)) (operand_of source.entry)).value) }
{
    match scalar_type(&target) {
        Some(kind) => assigned_single(alloc, notes, place, target, kind, source),
        None => assigned_aggregate(alloc, notes, place, target, source),
    }
}

/// Nothing is assigned to what is no variable.
#[tactic(auto, using(pli_operand::proofs::Noting::noting))]
fn no_target<'a>(
    notes: &mut Notes,
    place: Place,
    target_place: Place,
    _source: Operand<'_, 'a>,
) -> Stmt<'a>
    ensures noted { notes_of notes.new ≡ with_fault (notes_of notes.old) (fault target_place TypeMismatch) }
    ensures value { stmt_of result ≡ A.nothing_done place }
{
    mismatched(notes, target_place, place)
}

/// Nothing is assigned to a value.
#[tactic(auto, using(pli_operand::proofs::Noting::noting))]
fn value_target<'a>(
    notes: &mut Notes,
    place: Place,
    target_place: Place,
    _target: Value<'a>,
    source: Operand<'_, 'a>,
) -> Stmt<'a>
    ensures noted { notes_of notes.new ≡ with_fault (notes_of notes.old) (fault target_place TypeMismatch) }
    ensures value { stmt_of result ≡ A.nothing_done place }
{
    no_target(notes, place, target_place, source)
}

/// Nothing is known of the target.
fn unknown_target<'a>(place: Place, _source: Operand<'_, 'a>) -> Stmt<'a>
    ensures { stmt_of result ≡ A.nothing_done place }
{
    nothing_done(place)
}

/// Only a variable is assigned to.
#[tactic(auto, using(pli_operand::proofs::Noting::noting))]
fn assigned_referent<'a>(
    alloc: Global,
    notes: &mut Notes,
    place: Place,
    target_place: Place,
    target: Referent<'_, 'a>,
    source: Operand<'_, 'a>,
) -> Result<Stmt<'a>, AllocError>
    ensures noted { OnOk result (notes_of notes.new ≡ noted (notes_of notes.old) (A.assigned_referent place target_place (referent_of target.entry) (operand_of source.entry))) }
    ensures value { IfOk result (λ s. stmt_of s ≡ (A.assigned_referent place target_place (referent_of target.entry) (operand_of source.entry)).value) }
{
    match target {
        Referent::Designates(designated) => assigned_to(alloc, notes, place, designated, source),
        Referent::Gives(value) => Ok(value_target(notes, place, target_place, value, source)),
        Referent::UnknownValue => Ok(no_target(notes, place, target_place, source)),
        Referent::EmptyArea | Referent::Nothing => {
            Ok(no_target(notes, place, target_place, source))
        }
        Referent::NotKnown => Ok(unknown_target(place, source)),
    }
}

/// An assignment in a statement at a place.
#[tactic(auto, using(pli_operand::proofs::Noting::noting))]
pub fn assignment<'a>(
    alloc: Global,
    notes: &mut Notes,
    place: Place,
    target: Operand<'_, 'a>,
    source: Operand<'_, 'a>,
) -> Result<Stmt<'a>, AllocError>
    ensures noted { OnOk result (notes_of notes.new ≡ noted (notes_of notes.old) (A.assignment place (operand_of target.entry) (operand_of source.entry))) }
    ensures value { IfOk result (λ s. stmt_of s ≡ (A.assignment place (operand_of target.entry) (operand_of source.entry)).value) }
{
    assigned_referent(alloc, notes, place, target.place, target.referent, source)
}
