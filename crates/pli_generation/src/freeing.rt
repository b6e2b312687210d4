// FREE.

ghost use Rattle.std.specs.Prelude.{◌≡◌, IfOk, OnOk};
ghost use Rattle.pli_language.specs.declared.fault.SourceKind.TheVariants.{TypeMismatch};
ghost use Rattle.pli_typing.specs.Generations as G;
ghost use Rattle.pli_typing.specs.Judging.{broken};
ghost use Rattle.pli_typing.specs.TypedStatementView.{freeing_of};
ghost use Rattle.pli_typing.specs.TypedView.{area_of, class_of, pointer_of, reference_of, variable_of};
ghost use Rattle.pli_language.specs.View.{freeing_of as written_of};
ghost use Rattle.pli_generation.specs.Shown.{freed_by, locator_within};
ghost use Rattle.pli_typing.specs.TypedTree as Y;
ghost use Rattle.pli_operand.specs.Notes.{noted};
ghost use Rattle.pli_operand.specs.Shown.{designated_of, notes_of, referent_of};
ghost use Rattle.pli_operand.specs.declared.operand.Referent.TheVariants as R;
ghost use Rattle.pli_reference.specs.Shown.{locator_of, scope_of};

use crate::target::area_if;
use pli_language::declaration;
use pli_language::expr::Place;
use pli_language::fault::SourceKind;
use pli_operand::notes::Notes;
use pli_operand::operand::{Designated, Operand, Referent};
use pli_operand::shape::variable_of;
use pli_operand::stored::no_variable;
use pli_reference::expression::referred;
use pli_reference::scope::Scope;
use pli_typing::typed::{Freeing, Pointer, Reference, StorageClass, Value, Variable};
use std::alloc::{AllocError, Global};

/// Stands in for what is freed.
fn no_freeing<'a>() -> Freeing<'a>
    ensures { freeing_of result ≡ G.no_freeing }
{
    Freeing::Controlled(no_variable())
}

/// What can't be freed.
#[tactic(auto, using(pli_operand::proofs::Noting::noting))]
fn mismatched<'a>(notes: &mut Notes, place: Place) -> Freeing<'a>
    ensures noted { notes_of notes.new ≡ noted (notes_of notes.old) (broken place TypeMismatch G.no_freeing) }
    ensures value { freeing_of result ≡ G.no_freeing }
{
    notes.broken(place, SourceKind::TypeMismatch);
    no_freeing()
}

#[tactic(auto, using(pli_operand::proofs::Noting::noting))]
fn mismatched_value<'a>(notes: &mut Notes, place: Place, _value: Value) -> Freeing<'a>
    ensures noted { notes_of notes.new ≡ noted (notes_of notes.old) (broken place TypeMismatch G.no_freeing) }
    ensures value { freeing_of result ≡ G.no_freeing }
{
    mismatched(notes, place)
}

#[tactic(auto, using(pli_operand::proofs::Noting::noting))]
fn mismatched_pointer<'a>(notes: &mut Notes, place: Place, _pointer: Pointer) -> Freeing<'a>
    ensures noted { notes_of notes.new ≡ noted (notes_of notes.old) (broken place TypeMismatch G.no_freeing) }
    ensures value { freeing_of result ≡ G.no_freeing }
{
    mismatched(notes, place)
}

/// A CONTROLLED variable, which stands in no area.
#[tactic(auto, using(pli_operand::proofs::Noting::noting))]
fn freed_controlled<'a>(
    notes: &mut Notes,
    place: Place,
    variable: Variable,
    _pointer: Pointer,
    area: Option<Variable>,
) -> Freeing<'a>
    ensures noted { notes_of notes.new ≡ noted (notes_of notes.old) (freed_by place (variable_of variable) Y.ControlledClass Y.NullPointer (area_of area)) }
    ensures value { freeing_of result ≡ (freed_by place (variable_of variable) Y.ControlledClass Y.NullPointer (area_of area)).value }
{
    match area {
        None => Freeing::Controlled(variable),
        Some(_) => mismatched(notes, place),
    }
}

/// A generation of a variable, with what locates it, NULL where nothing does.
#[tactic(auto, using(pli_operand::proofs::Noting::noting))]
fn freed_class<'a>(
    notes: &mut Notes,
    place: Place,
    variable: Variable,
    locator: Pointer<'a>,
    area: Option<Variable>,
) -> Freeing<'a>
    ensures noted { notes_of notes.new ≡ noted (notes_of notes.old) (freed_by place (variable_of variable) (class_of variable.class) (pointer_of locator.entry) (area_of area)) }
    ensures value { freeing_of result ≡ (freed_by place (variable_of variable) (class_of variable.class) (pointer_of locator.entry) (area_of area)).value }
{
    match variable.class {
        StorageClass::Based => Freeing::Based {
            variable,
            locator,
            area,
        },
        StorageClass::Controlled => freed_controlled(notes, place, variable, locator, area),
        StorageClass::Automatic | StorageClass::Static | StorageClass::Parameter => {
            mismatched_pointer(notes, place, locator)
        }
    }
}

/// What locates a generation, NULL where nothing does.
#[tactic(auto, unfolding(pli_typing::specs::TypedView::reference_of, pli_typing::specs::TypedView::pointer_of))]
fn locator_in<'a>(reference: Reference<'a>) -> Pointer<'a>
    ensures { pointer_of result ≡ locator_within (reference_of reference.entry) }
{
    match reference {
        Reference::Plain { .. } => Pointer::Null,
        Reference::Located { locator, .. } => Box::into_inner(locator),
    }
}

#[tactic(auto, using(pli_operand::proofs::Noting::noting, crate::proofs::Freed::freed_is))]
fn freed_reference<'a>(
    notes: &mut Notes,
    place: Place,
    reference: Reference<'a>,
    area: Option<Variable>,
) -> Freeing<'a>
    ensures noted { notes_of notes.new ≡ noted (notes_of notes.old) (G.freed_reference place (reference_of reference.entry) (area_of area)) }
    ensures value { freeing_of result ≡ (G.freed_reference place (reference_of reference.entry) (area_of area)).value }
{
    let variable = variable_of(&reference);
    let locator = locator_in(reference);
    freed_class(notes, place, variable, locator, area)
}

#[tactic(auto, using(pli_operand::proofs::Noting::noting))]
fn freed_designated<'a>(
    notes: &mut Notes,
    place: Place,
    reference_place: Place,
    designated: Designated<'_, 'a>,
    area: Option<Variable>,
) -> Freeing<'a>
    ensures noted { notes_of notes.new ≡ noted (notes_of notes.old) (G.freed_referent place reference_place (referent_of (R.Designates designated.entry)) (area_of area)) }
    ensures value { freeing_of result ≡ (G.freed_referent place reference_place (referent_of (R.Designates designated.entry)) (area_of area)).value }
{
    let is_whole = designated.is_whole;
    let freed = freed_reference(notes, place, designated.reference, area);
    if is_whole {
        return freed;
    }
    mismatched(notes, reference_place)
}

/// A whole variable is freed.
#[tactic(auto, using(pli_operand::proofs::Noting::noting))]
fn freed_referent<'a>(
    notes: &mut Notes,
    place: Place,
    reference_place: Place,
    referent: Referent<'_, 'a>,
    area: Option<Variable>,
) -> Freeing<'a>
    ensures noted { notes_of notes.new ≡ noted (notes_of notes.old) (G.freed_referent place reference_place (referent_of referent.entry) (area_of area)) }
    ensures value { freeing_of result ≡ (G.freed_referent place reference_place (referent_of referent.entry) (area_of area)).value }
{
    match referent {
        Referent::Designates(designated) => {
            freed_designated(notes, place, reference_place, designated, area)
        }
        Referent::NotKnown => no_freeing(),
        Referent::Gives(value) => mismatched_value(notes, place, value),
        Referent::UnknownValue | Referent::EmptyArea | Referent::Nothing => {
            mismatched(notes, place)
        }
    }
}

/// One generation that FREE ends.
#[tactic(auto, using(pli_operand::proofs::Noting::noting))]
pub fn freeing<'a>(
    alloc: Global,
    scope: Scope<'_, '_, 'a>,
    notes: &mut Notes,
    place: Place,
    written: &'a declaration::Freeing,
) -> Result<Freeing<'a>, AllocError>
    ensures noted { OnOk result (notes_of notes.new ≡ noted (notes_of notes.old) (G.freeing (scope_of scope.entry) place (written_of written.now))) }
    ensures value { IfOk result (λ f. freeing_of f ≡ (G.freeing (scope_of scope.entry) place (written_of written.now)).value) }
{
    let Operand {
        place: reference_place,
        referent,
        ..
    } = referred(alloc, scope, notes, &written.generation)?;
    let area = area_if(alloc, scope, notes, &written.area)?;
    Ok(freed_referent(notes, place, reference_place, referent, area))
}
