// FREE: generations that locators locate, in an area or anywhere, and the newest ones of CONTROLLED variables.

ghost use Rattle.std.specs.Prelude.{◌≡◌, map, ◌++◌, OnOk};
ghost use Rattle.pli_language.specs.View.{option_of};
ghost use Rattle.pli_typing.specs.TypedView.{area_of, pointer_of, variable_of};
ghost use Rattle.pli_typing.specs.TypedStatementView.{freeing_of};
ghost use Rattle.pli_coding.specs.Allocating as form;
ghost use Rattle.pli_frames.specs.TakenView.{taken_of};
ghost use Rattle.rv_address.specs.Around.{environment_of};
ghost use Rattle.rv_address.specs.Places.{name_of};
ghost use Rattle.rv_allocation.specs.Pieces.{generation_ended, located_freed, newest_freed};

use crate::amounts::based_number;
use crate::placing::area_or_heap;
use pli_frames::taken::Taken;
use pli_typing::typed::{Freeing, Pointer, Variable};
use rv_address::controlled::controlled_number;
use rv_address::environment::Environment;
use rv_address::names::{NamePlace, name_offset, number_loaded};
use rv_address::number::count;
use rv_assembly::code::Code;
use rv_assembly::registers::{a0, a1, a2};
use rv_expr::locator::pointer_code;
use rv_operation::pointer::waiting_place;
use rv_operation::standing::standing_name;
use std::alloc::{AllocError, Global};

/// The generation whose name stands there ends.
#[tactic(auto, unfolding(crate::specs::Pieces::generation_ended))]
fn generation_ended(
    code: &mut Code,
    environment: &Environment,
    taken: Taken,
    name: NamePlace,
    variable: Variable,
    area: Option<Variable>,
) -> Result<(), AllocError>
    ensures { OnOk result (code.new ≡ code.old ++ generation_ended (environment_of environment.now) (taken_of taken) (name_of name) (variable_of variable) (area_of area)) }
{
    name_offset(code, environment, a0(), name)?;
    let number = based_number(environment, variable)?;
    number_loaded(code, environment, a1(), number)?;
    area_or_heap(code, environment, a2(), taken, area)?;
    code.tested_service(11)
}

/// The newest generation of a CONTROLLED variable ends.
#[tactic(auto, unfolding(crate::specs::Pieces::newest_freed))]
fn newest_freed(
    code: &mut Code,
    environment: &Environment,
    variable: Variable,
) -> Result<(), AllocError>
    ensures { OnOk result (code.new ≡ code.old ++ newest_freed (environment_of environment.now) (variable_of variable)) }
{
    let number = controlled_number(environment.known.typed, variable)?;
    count(code, a0(), number)?;
    code.service(17)
}

/// The generation that a locator locates ends.
#[tactic(auto, using(crate::proofs::Walks::located))]
fn located_freed(
    alloc: Global,
    code: &mut Code,
    environment: &Environment,
    taken: Taken,
    variable: Variable,
    locator: &Pointer,
    area: Option<Variable>,
    standing: Option<NamePlace>,
) -> Result<(), AllocError>
    ensures { OnOk result (code.new ≡ code.old ++ located_freed (environment_of environment.now) (taken_of taken) (variable_of variable) (pointer_of locator.now) (area_of area) (option_of name_of standing)) }
{
    match standing {
        Some(name) => generation_ended(code, environment, taken, name, variable, area),
        None => {
            pointer_code(alloc, code, environment, taken, locator)?;
            let name = waiting_place(environment, taken)?;
            generation_ended(code, environment, taken, name, variable, area)
        }
    }
}

#[tactic(auto, using(crate::proofs::Walks::one_freed))]
fn freeing_code(
    alloc: Global,
    code: &mut Code,
    environment: &Environment,
    taken: Taken,
    freeing: &Freeing,
) -> Result<(), AllocError>
    ensures { OnOk result (code.new ≡ code.old ++ form.freeing_code (environment_of environment.now) (taken_of taken) (freeing_of freeing.now)) }
{
    match freeing {
        Freeing::Based {
            variable,
            locator,
            area,
        } => {
            let standing = standing_name(environment, locator)?;
            Ok(located_freed(
                alloc,
                code,
                environment,
                taken,
                *variable,
                locator,
                *area,
                standing,
            )?)
        }
        Freeing::Controlled(variable) => Ok(newest_freed(code, environment, *variable)?),
    }
}

/// What FREE ends, one after the other.
#[tactic(auto, using(crate::proofs::Walks::freeings))]
pub fn freeings_code(
    alloc: Global,
    code: &mut Code,
    environment: &Environment,
    taken: Taken,
    all: &[Freeing],
) -> Result<(), AllocError>
    ensures { OnOk result (code.new ≡ code.old ++ form.freeings_code (environment_of environment.now) (taken_of taken) (map freeing_of all.now)) }
{
    for one in all {
        freeing_code(alloc, code, environment, taken, one)?;
    }
    Ok(())
}
