// Scalars that are assigned to, and the variable of DO.

ghost use Rattle.std.specs.Prelude.{◌≡◌, None, Some};
ghost use Rattle.pli_language.specs.declared.fault.SourceKind.TheVariants.{TypeMismatch};
ghost use Rattle.pli_typing.specs.Assigning as A;
ghost use Rattle.pli_typing.specs.Converting as C;
ghost use Rattle.pli_language.specs.Refusals.{fault};
ghost use Rattle.pli_typing.specs.TypedStatementView.{counter_of};
ghost use Rattle.pli_typing.specs.TypedTree as Y;
ghost use Rattle.pli_typing.specs.TypedView.{leaf_type_of, reference_of};
ghost use Rattle.pli_language.specs.View.{option_of};
ghost use Rattle.pli_operand.specs.Notes.{noted, with_fault};
ghost use Rattle.pli_operand.specs.Shown.{designated_of, notes_of, operand_of, referent_of};
ghost use Rattle.pli_transfer.specs.Shown.{scalar_of};

use pli_language::expr::Place;
use pli_language::fault::SourceKind;
use pli_operand::notes::Notes;
use pli_operand::operand::{Designated, Operand, Referent};
use pli_operand::shape::scalar_type;
use pli_typing::typed::{Counter, LeafType, Reference, Value};

/// A scalar that can be assigned to, with its kind.
#[derive(Drop)]
pub struct Scalar<'a> {
    pub reference: Reference<'a>,
    pub kind: LeafType,
}

/// What counts as a text, where the kind converts to no number.
#[tactic(auto, using(pli_operand::proofs::Noting::noting))]
fn mismatched_counter<'a>(notes: &mut Notes, place: Place, reference: Reference<'a>) -> Counter<'a>
    ensures noted { notes_of notes.new ≡ with_fault (notes_of notes.old) (fault place TypeMismatch) }
    ensures value { counter_of result ≡ Y.TextCounter (reference_of reference.entry) }
{
    notes.broken(place, SourceKind::TypeMismatch);
    Counter::Text(reference)
}

/// A variable that counts: it converts to numbers and from them.
#[tactic(auto, using(pli_operand::proofs::Noting::noting))]
pub fn counter_of<'a>(
    notes: &mut Notes,
    place: Place,
    reference: Reference<'a>,
    kind: LeafType,
) -> Counter<'a>
    ensures noted { notes_of notes.new ≡ noted (notes_of notes.old) (A.counter_of place (reference_of reference.entry) (leaf_type_of kind)) }
    ensures value { counter_of result ≡ (A.counter_of place (reference_of reference.entry) (leaf_type_of kind)).value }
{
    match kind {
        LeafType::Fixed(precision) => Counter::Number {
            precision,
            reference,
        },
        LeafType::Character(_) | LeafType::Varying(_) => Counter::Text(reference),
        LeafType::Bit | LeafType::Pointer | LeafType::Offset(_) | LeafType::Area(_) => {
            mismatched_counter(notes, place, reference)
        }
    }
}

/// No scalar that can be assigned to.
#[tactic(auto, using(pli_operand::proofs::Noting::noting))]
fn no_scalar<'a>(notes: &mut Notes, place: Place) -> Option<Scalar<'a>>
    ensures noted { notes_of notes.new ≡ with_fault (notes_of notes.old) (fault place TypeMismatch) }
    ensures value { option_of scalar_of result ≡ None }
{
    notes.broken(place, SourceKind::TypeMismatch);
    None
}

/// A reference to what is no scalar.
#[tactic(auto, using(pli_operand::proofs::Noting::noting))]
fn not_scalar<'a>(notes: &mut Notes, place: Place, _reference: Reference<'a>) -> Option<Scalar<'a>>
    ensures noted { notes_of notes.new ≡ with_fault (notes_of notes.old) (fault place TypeMismatch) }
    ensures value { option_of scalar_of result ≡ None }
{
    no_scalar(notes, place)
}

/// A scalar of a kind, which may be no area.
#[tactic(auto, using(pli_operand::proofs::Noting::noting))]
fn scalar_of_kind<'a>(
    notes: &mut Notes,
    place: Place,
    reference: Reference<'a>,
    kind: LeafType,
) -> Option<Scalar<'a>>
    ensures noted { notes_of notes.new ≡ noted (notes_of notes.old) (A.scalar_if place (reference_of reference.entry) (Some (leaf_type_of kind))) }
    ensures value { option_of scalar_of result ≡ (A.scalar_if place (reference_of reference.entry) (Some (leaf_type_of kind))).value }
{
    match kind {
        LeafType::Area(_) => not_scalar(notes, place, reference),
        LeafType::Fixed(_)
        | LeafType::Character(_)
        | LeafType::Varying(_)
        | LeafType::Bit
        | LeafType::Pointer
        | LeafType::Offset(_) => Some(Scalar { reference, kind }),
    }
}

/// A reference with the kind of a scalar, where it has one.
#[tactic(auto, using(pli_operand::proofs::Noting::noting))]
fn scalar_if<'a>(
    notes: &mut Notes,
    place: Place,
    reference: Reference<'a>,
    kind: Option<LeafType>,
) -> Option<Scalar<'a>>
    ensures noted { notes_of notes.new ≡ noted (notes_of notes.old) (A.scalar_if place (reference_of reference.entry) (option_of leaf_type_of kind)) }
    ensures value { option_of scalar_of result ≡ (A.scalar_if place (reference_of reference.entry) (option_of leaf_type_of kind)).value }
{
    match kind {
        Some(kind) => scalar_of_kind(notes, place, reference, kind),
        None => not_scalar(notes, place, reference),
    }
}

#[tactic(auto, using(pli_operand::proofs::Noting::noting))]
fn scalar_designated<'a>(
    notes: &mut Notes,
    place: Place,
    designated: Designated<'_, 'a>,
) -> Option<Scalar<'a>>
    ensures noted { notes_of notes.new ≡ noted (notes_of notes.old) (A.scalar_referent place (C.Designates (designated_of designated.entry))) }
    ensures value { option_of scalar_of result ≡ (A.scalar_referent place (C.Designates (designated_of designated.entry))).value }
{
    let kind = scalar_type(&designated);
    scalar_if(notes, place, designated.reference, kind)
}

/// A value is no variable.
#[tactic(auto, using(pli_operand::proofs::Noting::noting))]
fn scalar_value<'a>(notes: &mut Notes, place: Place, _value: Value<'a>) -> Option<Scalar<'a>>
    ensures noted { notes_of notes.new ≡ with_fault (notes_of notes.old) (fault place TypeMismatch) }
    ensures value { option_of scalar_of result ≡ None }
{
    no_scalar(notes, place)
}

#[tactic(auto, using(pli_operand::proofs::Noting::noting))]
fn scalar_referent<'a>(
    notes: &mut Notes,
    place: Place,
    referent: Referent<'_, 'a>,
) -> Option<Scalar<'a>>
    ensures noted { notes_of notes.new ≡ noted (notes_of notes.old) (A.scalar_referent place (referent_of referent.entry)) }
    ensures value { option_of scalar_of result ≡ (A.scalar_referent place (referent_of referent.entry)).value }
{
    match referent {
        Referent::Designates(designated) => scalar_designated(notes, place, designated),
        Referent::Gives(value) => scalar_value(notes, place, value),
        Referent::UnknownValue | Referent::EmptyArea | Referent::Nothing => {
            no_scalar(notes, place)
        }
        Referent::NotKnown => None,
    }
}

/// An operand that is a scalar that can be assigned to.
#[tactic(auto, using(pli_operand::proofs::Noting::noting))]
pub fn scalar_operand<'a>(notes: &mut Notes, operand: Operand<'_, 'a>) -> Option<Scalar<'a>>
    ensures noted { notes_of notes.new ≡ noted (notes_of notes.old) (A.scalar_operand (operand_of operand.entry)) }
    ensures value { option_of scalar_of result ≡ (A.scalar_operand (operand_of operand.entry)).value }
{
    scalar_referent(notes, operand.place, operand.referent)
}
