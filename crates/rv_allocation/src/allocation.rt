// ALLOCATE: generations in an area or in the heap, whose locators are set, and those of CONTROLLED variables.

ghost use Rattle.std.specs.Prelude.{◌≡◌, map, ◌++◌, OnOk, IfOk};
ghost use Rattle.pli_language.specs.View.{option_of};
ghost use Rattle.pli_typing.specs.TypedView.{area_of, reference_of, variable_of};
ghost use Rattle.pli_typing.specs.TypedStatementView.{allocation_of, target_of};
ghost use Rattle.pli_coding.specs.Allocating as form;
ghost use Rattle.pli_frames.specs.TakenView.{taken_of};
ghost use Rattle.rv_address.specs.Around.{environment_of};
ghost use Rattle.rv_address.specs.Places.{name_of};
ghost use Rattle.rv_allocation.specs.Pieces.{based_made, controlled_made, generation_pushed, locator_told, name_there, offset_told, pointer_set};

use crate::amounts::amounts_code;
use crate::placing::placing_code;
use crate::words::{behind_amounts, number_waiting};
use pli_frames::taken::Taken;
use pli_typing::typed::{Allocation, LocatorTarget, Reference, Variable};
use rv_address::controlled::controlled_number;
use rv_address::environment::Environment;
use rv_address::located::waiting_name;
use rv_address::names::{NamePlace, own_place};
use rv_address::number::count;
use rv_assembly::code::Code;
use rv_assembly::registers::{a0, a1, a2, a3};
use rv_assignment::scalar::{name_stored, word_stored};
use rv_extent::initial::initial_code;
use rv_operation::pointer::{area_name, waiting_place};
use rv_operation::standing::standing_in;
use std::alloc::{AllocError, Global};

/// An act, and the line that is current from now on.
pub fn act_code(code: &mut Code, line: u32) -> Result<(), AllocError>
    ensures { OnOk result (code.new ≡ code.old ++ form.act_code line) }
{
    code.number(a0(), line)?;
    code.small(a1(), 0)?;
    code.service(1)
}

// ---- locators

/// The offset in an area of the name that waits, in a0.
#[tactic(auto, unfolding(crate::specs::Pieces::offset_told))]
fn offset_told(
    code: &mut Code,
    environment: &Environment,
    taken: Taken,
    area: Variable,
) -> Result<(), AllocError>
    ensures { OnOk result (code.new ≡ code.old ++ offset_told (environment_of environment.now) (taken_of taken) (variable_of area)) }
{
    let place = waiting_name(taken)?;
    own_place(code, environment, a0(), place)?;
    area_name(code, environment, a1(), taken, area)?;
    code.small(a3(), 1)?;
    code.tested_service(14)
}

/// Where a name stands, or else waits.
#[tactic(auto, unfolding(crate::specs::Pieces::name_there))]
fn name_there(
    environment: &Environment,
    taken: Taken,
    standing: Option<NamePlace>,
) -> Result<NamePlace, AllocError>
    ensures { IfOk result (λ n. name_of n ≡ name_there (environment_of environment.now) (taken_of taken) (option_of name_of standing)) }
{
    match standing {
        Some(name) => Ok(name),
        None => waiting_place(environment, taken),
    }
}

/// Where the name of a generation is written: into the POINTER variable that is set, where that stands, or else where it waits.
#[tactic(auto, using(crate::proofs::Walks::targets))]
fn name_target(
    environment: &Environment,
    taken: Taken,
    target: &LocatorTarget,
) -> Result<NamePlace, AllocError>
    ensures { IfOk result (λ n. name_of n ≡ form.name_target (environment_of environment.now) (taken_of taken) (target_of target.now)) }
{
    match target {
        LocatorTarget::Pointer(reference) => {
            let standing = standing_in(environment, reference)?;
            Ok(name_there(environment, taken, standing)?)
        }
        LocatorTarget::Offset { .. } => waiting_place(environment, taken),
    }
}

/// The POINTER variable that ALLOCATE sets, unless the name stands there already.
#[tactic(auto, using(crate::proofs::Walks::locators))]
fn pointer_set(
    alloc: Global,
    code: &mut Code,
    environment: &Environment,
    taken: Taken,
    target: &Reference,
    standing: Option<NamePlace>,
) -> Result<(), AllocError>
    ensures { OnOk result (code.new ≡ code.old ++ pointer_set (environment_of environment.now) (taken_of taken) (reference_of target.now) (option_of name_of standing)) }
{
    match standing {
        Some(_) => Ok(()),
        None => name_stored(alloc, code, environment, taken, target),
    }
}

/// The locator that ALLOCATE sets.
#[tactic(auto, using(crate::proofs::Walks::locators))]
fn locator_set(
    alloc: Global,
    code: &mut Code,
    environment: &Environment,
    taken: Taken,
    target: &LocatorTarget,
) -> Result<(), AllocError>
    ensures { OnOk result (code.new ≡ code.old ++ locator_told (environment_of environment.now) (taken_of taken) (target_of target.now)) }
{
    match target {
        LocatorTarget::Pointer(reference) => {
            let standing = standing_in(environment, reference)?;
            pointer_set(alloc, code, environment, taken, reference, standing)
        }
        LocatorTarget::Offset { target, area } => {
            offset_told(code, environment, taken, *area)?;
            word_stored(alloc, code, environment, taken.with_words(4)?, target)
        }
    }
}

// ---- what ALLOCATE makes

#[tactic(auto, using(crate::proofs::Walks::generations))]
fn based_code(
    alloc: Global,
    code: &mut Code,
    environment: &Environment,
    taken: Taken,
    line: u32,
    variable: Variable,
    area: Option<Variable>,
    target: &LocatorTarget,
) -> Result<(), AllocError>
    ensures { OnOk result (code.new ≡ code.old ++ based_made (environment_of environment.now) (taken_of taken) line (variable_of variable) (area_of area) (target_of target.now)) }
{
    amounts_code(code, environment, taken, line, variable)?;
    let behind = behind_amounts(taken)?;
    let name = name_target(environment, behind, target)?;
    placing_code(alloc, code, environment, taken, variable, area, name)?;
    locator_set(alloc, code, environment, behind, target)
}

/// The generation of a CONTROLLED variable, once its amounts wait.
#[tactic(auto, unfolding(crate::specs::Pieces::generation_pushed))]
fn generation_pushed(
    alloc: Global,
    code: &mut Code,
    environment: &Environment,
    taken: Taken,
    variable: Variable,
) -> Result<(), AllocError>
    ensures { OnOk result (code.new ≡ code.old ++ generation_pushed (environment_of environment.now) (taken_of taken) (variable_of variable)) }
{
    let number = controlled_number(environment.known.typed, variable)?;
    let declaration = environment.declaration(variable)?;
    count(code, a0(), number)?;
    number_waiting(code, a1(), taken)?;
    initial_code(alloc, code, a2(), declaration)?;
    code.tested_service(16)
}

#[tactic(auto, using(crate::proofs::Walks::generations))]
fn controlled_code(
    alloc: Global,
    code: &mut Code,
    environment: &Environment,
    taken: Taken,
    line: u32,
    variable: Variable,
) -> Result<(), AllocError>
    ensures { OnOk result (code.new ≡ code.old ++ controlled_made (environment_of environment.now) (taken_of taken) line (variable_of variable)) }
{
    amounts_code(code, environment, taken, line, variable)?;
    generation_pushed(alloc, code, environment, taken, variable)
}

#[tactic(auto, unfolding(crate::specs::Pieces::based_made, crate::specs::Pieces::controlled_made))]
fn allocation_code(
    alloc: Global,
    code: &mut Code,
    environment: &Environment,
    taken: Taken,
    line: u32,
    allocation: &Allocation,
) -> Result<(), AllocError>
    ensures { OnOk result (code.new ≡ code.old ++ form.allocation_code (environment_of environment.now) (taken_of taken) line (allocation_of allocation.now)) }
{
    match allocation {
        Allocation::Based {
            variable,
            area,
            target,
        } => {
            based_code(
                alloc,
                code,
                environment,
                taken,
                line,
                *variable,
                *area,
                target,
            )
        }
        Allocation::Controlled(variable) => {
            controlled_code(alloc, code, environment, taken, line, *variable)
        }
    }
}

/// What ALLOCATE makes, one after the other, with the extents of each as an act on the statement's line.
#[tactic(auto, using(crate::proofs::Walks::allocations))]
pub fn allocations_code(
    alloc: Global,
    code: &mut Code,
    environment: &Environment,
    taken: Taken,
    line: u32,
    all: &[Allocation],
) -> Result<(), AllocError>
    ensures { OnOk result (code.new ≡ code.old ++ form.allocations_code (environment_of environment.now) (taken_of taken) line (map allocation_of all.now)) }
{
    for one in all {
        allocation_code(alloc, code, environment, taken, line, one)?;
    }
    Ok(())
}
