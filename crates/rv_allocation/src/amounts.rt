// The signature's number and the extent for REFER of a variable's next generation: constants, or what the variable's routine gives.

ghost use Rattle.std.specs.Prelude.{◌≡◌, ◌++◌, OnOk, IfOk};
ghost use Rattle.pli_typing.specs.TypedView.{variable_of};
ghost use Rattle.pli_typing.specs.TypedStatementView.{declared_variable_of};
ghost use Rattle.pli_coding.specs.Environments.{declaration_of};
ghost use Rattle.pli_coding.specs.Expressions.{frame_given};
ghost use Rattle.pli_coding.specs.Locating as locating;
ghost use Rattle.pli_coding.specs.Allocating as form;
ghost use Rattle.pli_frames.specs.TakenView.{taken_of};
ghost use Rattle.rv_address.specs.Around.{environment_of};
ghost use Rattle.rv_address.specs.Places.{number_of};
ghost use Rattle.rv_allocation.specs.Pieces.{amounts_kept};

use crate::allocation::act_code;
use crate::words::both_kept;
use pli_frames::taken::Taken;
use pli_typing::typed::{DeclaredVariable, Variable};
use rv_address::environment::Environment;
use rv_address::names::{NumberPlace, frame_found, frame_in, number_loaded};
use rv_address::referred::needs_number_word;
use rv_assembly::code::Code;
use rv_assembly::item::{Item, Symbol};
use rv_assembly::registers::a0;
use rv_extent::amount::refer_amount;
use std::alloc::AllocError;

fn frame_given(code: &mut Code, environment: &Environment, level: usize) -> Result<(), AllocError>
    ensures { OnOk result (code.new ≡ code.old ++ frame_given (environment_of environment.now) level) }
{
    frame_found(code, environment, level, a0())?;
    code.copy(a0(), frame_in(environment, level, a0()))
}

/// A variable's routine is called in the frame of the block that declares it; its extents are an act.
fn routine_called(
    code: &mut Code,
    environment: &Environment,
    line: u32,
    variable: Variable,
) -> Result<(), AllocError>
    ensures { OnOk result (code.new ≡ code.old ++ form.routine_called (environment_of environment.now) line (variable_of variable)) }
{
    act_code(code, line)?;
    frame_given(code, environment, variable.level)?;
    code.push(Item::CallTo(Symbol::ExtentRoutine {
        block: variable.block,
        index: variable.index,
    }))
}

/// The number of a BASED variable's signature: that of the table, or a word that is filled in when the run begins.
pub fn based_number(
    environment: &Environment,
    variable: Variable,
) -> Result<NumberPlace, AllocError>
    ensures { IfOk result (λ n. number_of n ≡ locating.based_number (environment_of environment.now) (variable_of variable) (declaration_of (environment_of environment.now) (variable_of variable))) }
{
    let declaration = environment.declaration(variable)?;
    let number = environment.table_number(variable)?;
    if needs_number_word(declaration) {
        return Ok(NumberPlace::Word {
            block: variable.block,
            index: variable.index,
        });
    }
    if number >= 1 << 32 {
        return Err(AllocError);
    }
    Ok(NumberPlace::Known(number as u32))
}

fn constant_amounts(
    code: &mut Code,
    environment: &Environment,
    taken: Taken,
    variable: Variable,
    declaration: &DeclaredVariable,
) -> Result<(), AllocError>
    requires { declared_variable_of declaration.now ≡ declaration_of (environment_of environment.now) (variable_of variable) }
    ensures { OnOk result (code.new ≡ code.old ++ form.constant_amounts (environment_of environment.now) (taken_of taken) (variable_of variable) (declared_variable_of declaration.now)) }
{
    refer_amount(code, taken, declaration)?;
    let number = based_number(environment, variable)?;
    number_loaded(code, environment, a0(), number)
}

/// A lower bound beside REFER stands in no number that the routine gives.
fn number_beside_refer(
    code: &mut Code,
    environment: &Environment,
    variable: Variable,
    declaration: &DeclaredVariable,
) -> Result<(), AllocError>
    ensures { OnOk result (code.new ≡ code.old ++ form.number_beside_refer (environment_of environment.now) (variable_of variable) (declared_variable_of declaration.now)) }
{
    if !needs_number_word(declaration) {
        return Ok(());
    }
    let word = NumberPlace::Word {
        block: variable.block,
        index: variable.index,
    };
    number_loaded(code, environment, a0(), word)
}

/// The amounts of a variable's next generation begin to wait.
#[tactic(auto, unfolding(crate::specs::Pieces::amounts_kept))]
pub fn amounts_code(
    code: &mut Code,
    environment: &Environment,
    taken: Taken,
    line: u32,
    variable: Variable,
) -> Result<(), AllocError>
    ensures { OnOk result (code.new ≡ code.old ++ amounts_kept (environment_of environment.now) (taken_of taken) line (variable_of variable)) }
{
    amounts_found(code, environment, taken, line, variable)?;
    both_kept(code, taken)
}

fn amounts_found(
    code: &mut Code,
    environment: &Environment,
    taken: Taken,
    line: u32,
    variable: Variable,
) -> Result<(), AllocError>
    ensures { OnOk result (code.new ≡ code.old ++ form.amounts_found (environment_of environment.now) (taken_of taken) line (variable_of variable) (declaration_of (environment_of environment.now) (variable_of variable)) (declaration_of (environment_of environment.now) (variable_of variable)).evaluations) }
{
    let declaration = environment.declaration(variable)?;
    match declaration.evaluations.as_slice() {
        [] => constant_amounts(code, environment, taken, variable, declaration),
        _ => {
            routine_called(code, environment, line, variable)?;
            number_beside_refer(code, environment, variable, declaration)
        }
    }
}
