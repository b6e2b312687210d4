// ALLOCATE.

ghost use Rattle.std.specs.Prelude.{◌≡◌, IfOk, OnOk, Some};
ghost use Rattle.pli_language.specs.Declarations.{Variable'};
ghost use Rattle.pli_language.specs.declared.fault.SourceKind.{SourceKind};
ghost use Rattle.pli_typing.specs.Generations as G;
ghost use Rattle.pli_typing.specs.Judging.{broken};
ghost use Rattle.pli_typing.specs.TypedStatementView.{allocation_of};
ghost use Rattle.pli_typing.specs.TypedView.{class_of, variable_of};
ghost use Rattle.pli_typing.specs.Variables.{variable_meant, what_at};
ghost use Rattle.pli_language.specs.View.{allocation_of as written_of};
ghost use Rattle.pli_declare.specs.Shown.{held_of};
ghost use Rattle.pli_generation.specs.Shown.{allocating_of, undeclared_allocation};
ghost use Rattle.pli_typing.specs.TypedTree as Y;
ghost use Rattle.pli_operand.specs.Notes.{noted};
ghost use Rattle.pli_operand.specs.Shown.{notes_of};
ghost use Rattle.pli_reference.specs.Shown.{scope_of};
ghost use Rattle.pli_variables.specs.Rows.{blocks_shown};

use crate::target::{area_given, area_if, target_given, target_if};
use pli_declare::scope::{Held, What};
use pli_declaring::attribute::is_builtin;
use pli_declaring::held::stands_alone;
use pli_language::declaration;
use pli_language::expr::{Name, Place};
use pli_language::fault::SourceKind;
use pli_language::scope::{DeclarationAt, Found};
use pli_operand::notes::Notes;
use pli_operand::stored::no_variable;
use pli_reference::part::shape_of;
use pli_reference::scope::Scope;
use pli_typing::typed::{Allocation, LocatorTarget, StorageClass, Variable};
use pli_variables::Tables;
use std::alloc::{AllocError, Global};

/// Where ALLOCATE stands, the variable's name, and what IN and SET say.
#[derive(Drop)]
pub struct Allocating<'n, 'a> {
    pub place: Place,
    pub name: &'n Name,
    pub area: Option<Variable>,
    pub target: Option<LocatorTarget<'a>>,
}

/// What breaks a rule.
#[tactic(auto, using(pli_operand::proofs::Noting::noting))]
fn refused<'a>(
    notes: &mut Notes,
    place: Place,
    kind: SourceKind,
    _allocating: Allocating,
) -> Allocation<'a>
    ensures noted { notes_of notes.new ≡ noted (notes_of notes.old) (broken place kind G.no_allocation) }
    ensures value { allocation_of result ≡ G.no_allocation }
{
    notes.broken(place, kind);
    Allocation::Controlled(no_variable())
}

/// What can't be allocated so.
#[tactic(auto, using(pli_operand::proofs::Noting::noting))]
fn mismatched<'a>(notes: &mut Notes, allocating: Allocating) -> Allocation<'a>
    ensures noted { notes_of notes.new ≡ noted (notes_of notes.old) (G.bad_allocation (allocating_of allocating.entry)) }
    ensures value { allocation_of result ≡ (G.bad_allocation (allocating_of allocating.entry)).value }
{
    refused(
        notes,
        allocating.place,
        SourceKind::TypeMismatch,
        allocating,
    )
}

#[tactic(auto, using(pli_operand::proofs::Noting::noting))]
fn allocated_based<'a>(
    notes: &mut Notes,
    tables: &Tables<'_, 'a>,
    block: usize,
    held: &Held,
    variable: Variable,
    allocating: Allocating<'_, 'a>,
) -> Allocation<'a>
    requires { variable_of variable ≡ variable_meant (blocks_shown tables.now.scopes.now) block (held_of held.now) }
    ensures noted { notes_of notes.new ≡ noted (notes_of notes.old) (G.allocated_based (blocks_shown tables.now.scopes.now) block (held_of held.now) (allocating_of allocating.entry)) }
    ensures value { allocation_of result ≡ (G.allocated_based (blocks_shown tables.now.scopes.now) block (held_of held.now) (allocating_of allocating.entry)).value }
{
    let Allocating {
        name,
        area,
        target,
        ..
    } = allocating;
    let target = target_given(notes, tables, block, held, name.place, target);
    Allocation::Based {
        variable,
        area: area_given(area, &target),
        target,
    }
}

#[tactic(auto, using(pli_operand::proofs::Noting::noting))]
fn allocated_controlled<'a>(
    notes: &mut Notes,
    variable: Variable,
    allocating: Allocating,
) -> Allocation<'a>
    ensures noted { notes_of notes.new ≡ noted (notes_of notes.old) (G.allocated_controlled (variable_of variable) (allocating_of allocating.entry)) }
    ensures value { allocation_of result ≡ (G.allocated_controlled (variable_of variable) (allocating_of allocating.entry)).value }
{
    if allocating.area.is_some() || allocating.target.is_some() {
        mismatched(notes, allocating)
    } else {
        controlled(variable, allocating)
    }
}

/// A CONTROLLED variable, which has neither IN nor SET.
fn controlled<'a>(variable: Variable, _allocating: Allocating) -> Allocation<'a>
    ensures { allocation_of result ≡ Y.AllocateControlled (variable_of variable) }
{
    Allocation::Controlled(variable)
}

#[tactic(auto, using(pli_operand::proofs::Noting::noting))]
fn allocated_class<'a>(
    notes: &mut Notes,
    tables: &Tables<'_, 'a>,
    block: usize,
    held: &Held,
    variable: Variable,
    allocating: Allocating<'_, 'a>,
) -> Allocation<'a>
    requires { variable_of variable ≡ variable_meant (blocks_shown tables.now.scopes.now) block (held_of held.now) }
    ensures noted { notes_of notes.new ≡ noted (notes_of notes.old) (G.allocated_class (blocks_shown tables.now.scopes.now) block (held_of held.now) (class_of variable.class) (allocating_of allocating.entry)) }
    ensures value { allocation_of result ≡ (G.allocated_class (blocks_shown tables.now.scopes.now) block (held_of held.now) (class_of variable.class) (allocating_of allocating.entry)).value }
{
    match variable.class {
        StorageClass::Based => allocated_based(notes, tables, block, held, variable, allocating),
        StorageClass::Controlled => allocated_controlled(notes, variable, allocating),
        StorageClass::Automatic | StorageClass::Static | StorageClass::Parameter => {
            mismatched(notes, allocating)
        }
    }
}

/// A variable of level 1 that is BASED or CONTROLLED.
#[tactic(auto, using(pli_operand::proofs::Noting::noting))]
fn allocated_variable<'a>(
    notes: &mut Notes,
    tables: &Tables<'_, 'a>,
    at: DeclarationAt,
    held: &Held,
    allocating: Allocating<'_, 'a>,
) -> Allocation<'a>
    requires { what_at (blocks_shown tables.now.scopes.now) at ≡ Some (Variable' (held_of held.now)) }
    ensures noted { notes_of notes.new ≡ noted (notes_of notes.old) (G.allocated_what (blocks_shown tables.now.scopes.now) at.block (Some (Variable' (held_of held.now))) (allocating_of allocating.entry)) }
    ensures value { allocation_of result ≡ (G.allocated_what (blocks_shown tables.now.scopes.now) at.block (Some (Variable' (held_of held.now))) (allocating_of allocating.entry)).value }
{
    if stands_alone(held) {
        let variable = shape_of(tables, at, held).variable;
        allocated_class(notes, tables, at.block, held, variable, allocating)
    } else {
        mismatched(notes, allocating)
    }
}

#[tactic(auto, using(pli_operand::proofs::Noting::noting))]
fn allocated_at<'a>(
    notes: &mut Notes,
    tables: &Tables<'_, 'a>,
    at: DeclarationAt,
    allocating: Allocating<'_, 'a>,
) -> Allocation<'a>
    ensures noted { notes_of notes.new ≡ noted (notes_of notes.old) (G.allocated_what (blocks_shown tables.now.scopes.now) at.block (what_at (blocks_shown tables.now.scopes.now) at) (allocating_of allocating.entry)) }
    ensures value { allocation_of result ≡ (G.allocated_what (blocks_shown tables.now.scopes.now) at.block (what_at (blocks_shown tables.now.scopes.now) at) (allocating_of allocating.entry)).value }
{
    match tables.what_at(at) {
        Some(What::Variable(held)) => allocated_variable(notes, tables, at, held, allocating),
        Some(What::Label) | Some(What::Procedure(_)) | None => mismatched(notes, allocating),
    }
}

/// A name that means nothing that is declared.
#[tactic(auto, using(pli_operand::proofs::Noting::noting))]
fn allocated_undeclared<'a>(notes: &mut Notes, allocating: Allocating) -> Allocation<'a>
    ensures noted { notes_of notes.new ≡ noted (notes_of notes.old) (undeclared_allocation (allocating_of allocating.entry)) }
    ensures value { allocation_of result ≡ (undeclared_allocation (allocating_of allocating.entry)).value }
{
    if is_builtin(allocating.name.word) {
        mismatched(notes, allocating)
    } else {
        refused(
            notes,
            allocating.name.place,
            SourceKind::Undeclared,
            allocating,
        )
    }
}

#[tactic(auto, using(pli_operand::proofs::Noting::noting))]
fn allocated_found<'a>(
    notes: &mut Notes,
    tables: &Tables<'_, 'a>,
    found: Found,
    allocating: Allocating<'_, 'a>,
) -> Allocation<'a>
    ensures noted { notes_of notes.new ≡ noted (notes_of notes.old) (G.allocated_found (blocks_shown tables.now.scopes.now) found (allocating_of allocating.entry)) }
    ensures value { allocation_of result ≡ (G.allocated_found (blocks_shown tables.now.scopes.now) found (allocating_of allocating.entry)).value }
{
    match found {
        Found::One(at) => allocated_at(notes, tables, at, allocating),
        Found::None => allocated_undeclared(notes, allocating),
        Found::Ambiguous => refused(
            notes,
            allocating.name.place,
            SourceKind::Ambiguous,
            allocating,
        ),
    }
}

/// One allocation of ALLOCATE, which stands at a place.
#[tactic(auto, using(pli_operand::proofs::Noting::noting))]
pub fn allocation<'a>(
    alloc: Global,
    scope: Scope<'_, '_, 'a>,
    notes: &mut Notes,
    place: Place,
    written: &'a declaration::Allocation,
) -> Result<Allocation<'a>, AllocError>
    ensures noted { OnOk result (notes_of notes.new ≡ noted (notes_of notes.old) (G.allocation (scope_of scope.entry) place (written_of written.now))) }
    ensures value { IfOk result (λ a. allocation_of a ≡ (G.allocation (scope_of scope.entry) place (written_of written.now)).value) }
{
    let area = area_if(alloc, scope, notes, &written.area)?;
    let target = target_if(alloc, scope, notes, &written.locator)?;
    let name = &written.variable;
    let found = scope.tables.name_means(scope.block, name);
    let allocating = Allocating {
        place,
        name,
        area,
        target,
    };
    Ok(allocated_found(notes, scope.tables, found, allocating))
}
