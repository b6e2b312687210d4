// The locator that ALLOCATE sets, and the area that it allocates in.

ghost use Rattle.std.specs.Prelude.{◌≡◌, None, Some, IfOk, OnOk};
ghost use Rattle.pli_typing.specs.Generations as G;
ghost use Rattle.pli_typing.specs.Judging.{broken};
ghost use Rattle.pli_language.specs.declared.fault.SourceKind.TheVariants.{TypeMismatch};
ghost use Rattle.pli_typing.specs.TypedStatementView.{target_of};
ghost use Rattle.pli_typing.specs.TypedTree as Y;
ghost use Rattle.pli_typing.specs.TypedView.{area_of, leaf_type_of, reference_of, variable_of};
ghost use Rattle.pli_language.specs.View.{name_of, option_of, reference_of as written_of};
ghost use Rattle.pli_declare.specs.Shown.{held_of};
ghost use Rattle.pli_operand.specs.Notes.{noted};
ghost use Rattle.pli_operand.specs.Shown.{designated_of, notes_of, referent_of};
ghost use Rattle.pli_operand.specs.declared.operand.Referent.TheVariants as R;
ghost use Rattle.pli_reference.specs.Parts.{whole_by};
ghost use Rattle.pli_reference.specs.Shown.{scope_of};
ghost use Rattle.pli_variables.specs.Rows.{blocks_shown};
ghost use Rattle.pli_variables.specs.ShownShapes.{shape_of};

use pli_declare::scope::Held;
use pli_declaring::held::class_attributes;
use pli_language::expr::{Name, Place, Reference as Written};
use pli_language::fault::SourceKind;
use pli_operand::notes::Notes;
use pli_operand::operand::{Designated, Operand, Referent};
use pli_operand::shape::scalar_type;
use pli_operand::stored::{area_operand, no_reference};
use pli_reference::expression::referred;
use pli_reference::locator::locator_found;
use pli_reference::meant::locator_name;
use pli_reference::part::whole_by;
use pli_reference::scope::Scope;
use pli_typing::typed::{LeafType, LocatorTarget, Reference, Value, Variable};
use pli_variables::{Shape, Tables};
use std::alloc::{AllocError, Global};

/// Stands in for a locator.
fn no_target<'a>() -> LocatorTarget<'a>
    ensures { target_of result ≡ G.no_target }
{
    LocatorTarget::Pointer(no_reference())
}

/// What is no locator that can be set.
fn not_set<'a>(_reference: Reference) -> Option<LocatorTarget<'a>>
    ensures { option_of target_of result ≡ None }
{
    None
}

/// A POINTER, or an OFFSET that is declared with an area.
fn target_with<'a>(reference: Reference<'a>, kind: Option<LeafType>) -> Option<LocatorTarget<'a>>
    ensures { option_of target_of result ≡ G.target_with (reference_of reference.entry) (option_of leaf_type_of kind) }
{
    match kind {
        Some(LeafType::Pointer) => Some(LocatorTarget::Pointer(reference)),
        Some(LeafType::Offset(Some(area))) => Some(LocatorTarget::Offset {
            target: reference,
            area,
        }),
        Some(LeafType::Offset(None))
        | Some(LeafType::Fixed(_))
        | Some(LeafType::Character(_))
        | Some(LeafType::Varying(_))
        | Some(LeafType::Bit)
        | Some(LeafType::Area(_))
        | None => not_set(reference),
    }
}

/// What SET names, which is no locator.
#[tactic(auto, using(pli_operand::proofs::Noting::noting))]
fn mismatched<'a>(notes: &mut Notes, place: Place) -> LocatorTarget<'a>
    ensures noted { notes_of notes.new ≡ noted (notes_of notes.old) (broken place TypeMismatch G.no_target) }
    ensures value { target_of result ≡ G.no_target }
{
    notes.broken(place, SourceKind::TypeMismatch);
    no_target()
}

#[tactic(auto, using(pli_operand::proofs::Noting::noting))]
fn mismatched_value<'a>(notes: &mut Notes, place: Place, _value: Value) -> LocatorTarget<'a>
    ensures noted { notes_of notes.new ≡ noted (notes_of notes.old) (broken place TypeMismatch G.no_target) }
    ensures value { target_of result ≡ G.no_target }
{
    mismatched(notes, place)
}

#[tactic(auto, using(pli_operand::proofs::Noting::noting))]
fn target_or_mismatch<'a>(
    notes: &mut Notes,
    place: Place,
    target: Option<LocatorTarget<'a>>,
) -> LocatorTarget<'a>
    ensures noted { notes_of notes.new ≡ noted (notes_of notes.old) (G.target_or_mismatch place (option_of target_of target.entry)) }
    ensures value { target_of result ≡ (G.target_or_mismatch place (option_of target_of target.entry)).value }
{
    match target {
        Some(target) => target,
        None => mismatched(notes, place),
    }
}

#[tactic(auto, using(pli_operand::proofs::Noting::noting))]
fn designated_target<'a>(
    notes: &mut Notes,
    place: Place,
    designated: Designated<'_, 'a>,
) -> LocatorTarget<'a>
    ensures noted { notes_of notes.new ≡ noted (notes_of notes.old) (G.locator_target place (referent_of (R.Designates designated.entry))) }
    ensures value { target_of result ≡ (G.locator_target place (referent_of (R.Designates designated.entry))).value }
{
    let kind = scalar_type(&designated);
    let target = target_with(designated.reference, kind);
    target_or_mismatch(notes, place, target)
}

/// SET names a locator.
#[tactic(auto, using(pli_operand::proofs::Noting::noting))]
fn locator_target<'a>(
    notes: &mut Notes,
    place: Place,
    referent: Referent<'_, 'a>,
) -> LocatorTarget<'a>
    ensures noted { notes_of notes.new ≡ noted (notes_of notes.old) (G.locator_target place (referent_of referent.entry)) }
    ensures value { target_of result ≡ (G.locator_target place (referent_of referent.entry)).value }
{
    match referent {
        Referent::Designates(designated) => designated_target(notes, place, designated),
        Referent::NotKnown => no_target(),
        Referent::Gives(value) => mismatched_value(notes, place, value),
        Referent::UnknownValue | Referent::EmptyArea | Referent::Nothing => {
            mismatched(notes, place)
        }
    }
}

#[tactic(auto, using(pli_operand::proofs::Noting::noting))]
fn set_target<'a>(
    alloc: Global,
    scope: Scope<'_, '_, 'a>,
    notes: &mut Notes,
    written: &'a Written,
) -> Result<LocatorTarget<'a>, AllocError>
    ensures noted { OnOk result (notes_of notes.new ≡ noted (notes_of notes.old) (G.set_target (scope_of scope.entry) (written_of written.now))) }
    ensures value { IfOk result (λ t. target_of t ≡ (G.set_target (scope_of scope.entry) (written_of written.now)).value) }
{
    let Operand {
        place,
        referent,
        ..
    } = referred(alloc, scope, notes, written)?;
    Ok(locator_target(notes, place, referent))
}

/// What SET says, if it is there.
#[tactic(auto, using(pli_operand::proofs::Noting::noting))]
pub fn target_if<'a>(
    alloc: Global,
    scope: Scope<'_, '_, 'a>,
    notes: &mut Notes,
    written: &'a Option<Written>,
) -> Result<Option<LocatorTarget<'a>>, AllocError>
    ensures noted { OnOk result (notes_of notes.new ≡ noted (notes_of notes.old) (G.judged_if (G.set_target (scope_of scope.entry)) (option_of written_of written.now))) }
    ensures value { IfOk result (λ t. option_of target_of t ≡ (G.judged_if (G.set_target (scope_of scope.entry)) (option_of written_of written.now)).value) }
{
    match written {
        Some(written) => Ok(Some(set_target(alloc, scope, notes, written)?)),
        None => Ok(None),
    }
}

#[tactic(auto, using(pli_operand::proofs::Noting::noting))]
fn in_area<'a>(
    alloc: Global,
    scope: Scope<'_, '_, 'a>,
    notes: &mut Notes,
    written: &'a Written,
) -> Result<Variable, AllocError>
    ensures noted { OnOk result (notes_of notes.new ≡ noted (notes_of notes.old) (G.in_area (scope_of scope.entry) (written_of written.now))) }
    ensures value { IfOk result (λ v. variable_of v ≡ (G.in_area (scope_of scope.entry) (written_of written.now)).value) }
{
    let operand = referred(alloc, scope, notes, written)?;
    Ok(area_operand(notes, &operand))
}

/// What IN says, if it is there.
#[tactic(auto, using(pli_operand::proofs::Noting::noting))]
pub fn area_if<'a>(
    alloc: Global,
    scope: Scope<'_, '_, 'a>,
    notes: &mut Notes,
    written: &'a Option<Written>,
) -> Result<Option<Variable>, AllocError>
    ensures noted { OnOk result (notes_of notes.new ≡ noted (notes_of notes.old) (G.judged_if (G.in_area (scope_of scope.entry)) (option_of written_of written.now))) }
    ensures value { IfOk result (λ v. area_of v ≡ (G.judged_if (G.in_area (scope_of scope.entry)) (option_of written_of written.now)).value) }
{
    match written {
        Some(written) => Ok(Some(in_area(alloc, scope, notes, written)?)),
        None => Ok(None),
    }
}

/// The locator that BASED names, as what ALLOCATE sets; a bad name there is told where it stands.
fn declared_target<'a>(shape: Option<&Shape<'a>>) -> LocatorTarget<'a>
    ensures { target_of result ≡ G.declared_target (option_of (λ s. whole_by (shape_of s.now)) shape.entry) }
{
    let Some(shape) = shape else {
        return no_target();
    };
    let designated = whole_by(shape);
    let kind = scalar_type(&designated);
    match target_with(designated.reference, kind) {
        Some(target) => target,
        None => no_target(),
    }
}

/// Without SET the locator of BASED(name) is set.
#[tactic(auto, using(pli_operand::proofs::Noting::noting))]
fn based_target<'a>(
    notes: &mut Notes,
    tables: &Tables<'_, 'a>,
    block: usize,
    place: Place,
    name: Option<&Name>,
) -> LocatorTarget<'a>
    ensures noted { notes_of notes.new ≡ noted (notes_of notes.old) (G.based_target (blocks_shown tables.now.scopes.now) block place (option_of (λ n. name_of n.now) name.entry)) }
    ensures value { target_of result ≡ (G.based_target (blocks_shown tables.now.scopes.now) block place (option_of (λ n. name_of n.now) name.entry)).value }
{
    match name {
        Some(name) => declared_target(locator_found(tables, tables.name_means(block, name))),
        None => {
            notes.broken(place, SourceKind::BadAttributes);
            no_target()
        }
    }
}

/// What ALLOCATE sets: what SET says, else what BASED names.
#[tactic(auto, using(pli_operand::proofs::Noting::noting))]
pub fn target_given<'a>(
    notes: &mut Notes,
    tables: &Tables<'_, 'a>,
    block: usize,
    held: &Held,
    place: Place,
    target: Option<LocatorTarget<'a>>,
) -> LocatorTarget<'a>
    ensures noted { notes_of notes.new ≡ noted (notes_of notes.old) (G.target_given (blocks_shown tables.now.scopes.now) block (held_of held.now) place (option_of target_of target.entry)) }
    ensures value { target_of result ≡ (G.target_given (blocks_shown tables.now.scopes.now) block (held_of held.now) place (option_of target_of target.entry)).value }
{
    match target {
        Some(target) => target,
        None => based_target(
            notes,
            tables,
            block,
            place,
            locator_name(class_attributes(held)),
        ),
    }
}

/// Without IN the area of an OFFSET is meant.
pub fn area_given(area: Option<Variable>, target: &LocatorTarget) -> Option<Variable>
    ensures { area_of result ≡ G.area_given (area_of area) (target_of target.now) }
{
    match area {
        Some(area) => Some(area),
        None => match target {
            LocatorTarget::Pointer(_) => None,
            LocatorTarget::Offset { area, .. } => Some(*area),
        },
    }
}
