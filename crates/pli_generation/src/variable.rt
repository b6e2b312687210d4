// The variables of level 1 of a block.

ghost use Rattle.std.specs.Prelude.{◌≡◌, map, slice_get, IfOk, OnOk};
ghost use Rattle.pli_language.specs.Declaring.{own_attributes};
ghost use Rattle.pli_typing.specs.Generations as G;
ghost use Rattle.pli_typing.specs.Judging.{each};
ghost use Rattle.pli_language.specs.Refusals.{soonest};
ghost use Rattle.pli_typing.specs.TypedStatementView.{declared_variable_of, evaluation_of, member_of};
ghost use Rattle.pli_typing.specs.TypedView.{variable_of};
ghost use Rattle.pli_typing.specs.Variables.{declarations_at, variables_in};
ghost use Rattle.pli_declare.specs.Shown.{held_of};
ghost use Rattle.pli_generation.specs.Shown.{evaluations_of, own_at};
ghost use Rattle.pli_operand.specs.Notes.{noted};
ghost use Rattle.pli_operand.specs.Shown.{notes_of};
ghost use Rattle.pli_reference.specs.Shown.{scope_of};
ghost use Rattle.pli_variables.specs.Held.{groups_held};
ghost use Rattle.pli_variables.specs.Rows.{blocks_shown};

use crate::extent::evaluations;
use crate::named::names_demanded;
use pli_declare::scope::Held;
use pli_declaring::held::{dimensions_of, own_attributes};
use pli_language::fault::SourceFault;
use pli_operand::notes::Notes;
use pli_operand::stored::no_variable;
use pli_reference::scope::Scope;
use pli_typing::typed::{DeclaredVariable, Evaluation, Member, Variable};
use pli_variables::Tables;
use pli_variables::declared::{refer_of, written_extents};
use std::alloc::{AllocError, Global};

/// The names in the attributes of a variable and of its members.
#[tactic(auto, using(crate::proofs::Extents::noted_here, crate::proofs::Extents::noted_end, pli_declare::proofs::Chains::drop_here, std::proofs::lemmas::List::drop_all))]
fn all_demanded(notes: &mut Notes, tables: &Tables, block: usize, all: &[Held])
    ensures { notes_of notes.new ≡ noted (notes_of notes.old) (each (λ h. G.names_demanded (blocks_shown tables.now.scopes.now) block (own_attributes h)) (map held_of all.now)) }
{
    for held in all {
        names_demanded(notes, tables, block, own_attributes(held));
    }
}

/// What the names break, behind what was found.
#[tactic(auto, using(crate::proofs::Extents::found_is))]
fn names_found(
    found: Option<SourceFault>,
    tables: &Tables,
    block: usize,
    all: &[Held],
) -> Option<SourceFault>
    ensures { result ≡ soonest found (each (λ h. G.names_demanded (blocks_shown tables.now.scopes.now) block (own_attributes h)) (map held_of all.now)).faults }
{
    let mut notes = Notes {
        found,
        own: None,
        forbidden: false,
    };
    all_demanded(&mut notes, tables, block, all);
    notes.found
}

/// The extents of a variable with its members.
fn all_evaluations<'a>(
    alloc: Global,
    scope: Scope<'_, '_, 'a>,
    found: &mut Option<SourceFault>,
    own: Variable,
    all: &[Held<'a>],
) -> Result<Vec<Evaluation<'a>>, AllocError>
    ensures faults { OnOk result (found.new ≡ soonest found.old (evaluations_of (scope_of scope.entry) (variable_of own) (map held_of all.now)).faults) }
    ensures value { IfOk result (λ v. map evaluation_of v.items ≡ (evaluations_of (scope_of scope.entry) (variable_of own) (map held_of all.now)).value) }
{
    let written = written_extents(alloc, all)?;
    evaluations(alloc, scope, found, own, &written)
}

/// A variable's depth and its own dimensions.
fn member_held(held: &Held) -> Member
    ensures { member_of result ≡ G.member_held (held_of held.now) }
{
    Member {
        depth: held.above.count(),
        dimensions: dimensions_of(held.variable),
    }
}

/// The variables in a structure, each with its depth and its own dimensions.
#[tactic(auto, using(crate::proofs::Extents::members))]
fn members_of(alloc: Global, all: &[Held]) -> Result<Vec<Member>, AllocError>
    ensures { IfOk result (λ v. map member_of v.items ≡ map G.member_held (map held_of all.now)) }
{
    let mut out = Vec::new(alloc);
    for held in all {
        out.push(member_held(held))?;
    }
    Ok(out)
}

/// A variable with its members.
#[tactic(auto, using(crate::proofs::Extents::declared_found))]
fn declared_with<'a>(
    alloc: Global,
    scope: Scope<'_, '_, 'a>,
    found: &mut Option<SourceFault>,
    own: Variable,
    all: &[Held<'a>],
) -> Result<DeclaredVariable<'a>, AllocError>
    ensures faults { OnOk result (found.new ≡ soonest found.old (G.declared_with (scope_of scope.entry) (variable_of own) (map held_of all.now)).faults) }
    ensures value { IfOk result (λ d. declared_variable_of d ≡ (G.declared_with (scope_of scope.entry) (variable_of own) (map held_of all.now)).value) }
{
    *found = names_found(*found, scope.tables, scope.block, all);
    let evaluations = all_evaluations(alloc, scope, found, own, all)?;
    let leaves = scope.tables.leaves_of(alloc, scope.block, all, all)?;
    Ok(DeclaredVariable {
        class: own.class,
        members: members_of(alloc, all)?,
        leaves,
        refer: refer_of(alloc, all)?,
        evaluations,
    })
}

/// The variable of level 1 with this place among those of a block.
fn own_at(tables: &Tables, block: usize, index: usize) -> Variable
    ensures { variable_of result ≡ own_at (blocks_shown tables.now.scopes.now) block (slice_get (variables_in (declarations_at (blocks_shown tables.now.scopes.now) block)) index) }
{
    match tables.variable_shape(block, index) {
        Some(shape) => shape.variable,
        None => no_variable(),
    }
}

/// The variables of level 1 of a block, which these are.
#[tactic(auto, using(crate::proofs::Extents::each_here, crate::proofs::Extents::each_end, pli_declare::proofs::Chains::drop_here, std::proofs::lemmas::List::drop_all))]
fn all_declared<'a>(
    alloc: Global,
    scope: Scope<'_, '_, 'a>,
    found: &mut Option<SourceFault>,
    groups: &[Vec<Held<'a>>],
) -> Result<Vec<DeclaredVariable<'a>>, AllocError>
    requires { groups_held groups.now ≡ variables_in (declarations_at (scope_of scope).blocks scope.block) }
    ensures faults { OnOk result (found.new ≡ soonest found.old (each (G.declared_variable (scope_of scope.entry)) (groups_held groups.now)).faults) }
    ensures value { IfOk result (λ v. map declared_variable_of v.items ≡ (each (G.declared_variable (scope_of scope.entry)) (groups_held groups.now)).value) }
{
    let mut out = Vec::new(alloc);
    for index in 0..groups.len() {
        let own = own_at(scope.tables, scope.block, index);
        let declared = declared_with(alloc, scope, found, own, &groups[index])?;
        out.push(declared)?;
    }
    Ok(out)
}

/// The variables of a block, in declared order.
pub fn declared_variables<'a>(
    alloc: Global,
    scope: Scope<'_, '_, 'a>,
    found: &mut Option<SourceFault>,
) -> Result<Vec<DeclaredVariable<'a>>, AllocError>
    ensures faults { OnOk result (found.new ≡ soonest found.old (G.declared_variables (scope_of scope.entry)).faults) }
    ensures value { IfOk result (λ v. map declared_variable_of v.items ≡ (G.declared_variables (scope_of scope.entry)).value) }
{
    let groups = scope.tables.variables(alloc, scope.block)?;
    all_declared(alloc, scope, found, &groups)
}
