// Where variables are, by their classes.

ghost use Rattle.std.specs.Prelude.{◌≡◌, ◌+◌, ◌^◌, suc, pos, map, ◌++◌, OnOk, IfOk};
ghost use Rattle.pli_typing.specs.TypedView.{class_of, variable_of};
ghost use Rattle.pli_typing.specs.TypedStatementView.{declared_variable_of};
ghost use Rattle.pli_typing.specs.TypedTree.{AutomaticClass, ParameterClass, StaticClass, BasedClass, ControlledClass};
ghost use Rattle.pli_coding.specs.Environments.{declaration_of, no_declaration, none_taken};
ghost use Rattle.pli_coding.specs.Registers.{a0, a1};
ghost use Rattle.pli_coding.specs.Instructions.{number};
ghost use Rattle.pli_coding.specs.Frames as frames;
ghost use Rattle.pli_coding.specs.Locating as form;
ghost use Rattle.pli_frames.specs.Parts.{parts};
ghost use Rattle.pli_frames.specs.TakenView.{taken_of};
ghost use Rattle.rv_address.specs.Around.{environment_of};
ghost use Rattle.rv_address.specs.Pieces.{newest_kept};
ghost use Rattle.rv_address.specs.Places.{located_of, name_of, no_variable, number_of};

use crate::controlled::controlled_number;
use crate::environment::Environment;
use crate::frame::{automatic_place, number_of_parameter};
use crate::names::{Located, NamePlace, NumberPlace, own_place};
use crate::number::{count, signed};
use crate::referred::needs_number_word;
use crate::signature::is_open;
use pli_frames::fixed::{argument_at, words_place};
use pli_frames::size::{LAST_PLACE, constant_size};
use pli_frames::taken::Taken;
use pli_typing::typed::{DeclaredVariable, StorageClass, Variable};
use rv_assembly::code::Code;
use rv_assembly::registers;
use std::alloc::AllocError;

/// What means the signature that a variable's generation has.
const OWN_SIGNATURE: u32 = u32::MAX;

/// The number of a variable's signature in the table, as a word.
fn table_word(environment: &Environment, variable: Variable) -> Result<u32, AllocError>
    ensures { IfOk result (λ n. n ≡ form.table_number (environment_of environment.now) (declaration_of (environment_of environment.now) (variable_of variable))) }
{
    let number = environment.table_number(variable)?;
    if number >= 1 << 32 {
        return Err(AllocError);
    }
    Ok(number as u32)
}

fn known_or_own(environment: &Environment, variable: Variable) -> Result<NumberPlace, AllocError>
    ensures { IfOk result (λ n. number_of n ≡ form.known_or_own (environment_of environment.now) (declaration_of (environment_of environment.now) (variable_of variable))) }
{
    let declaration = environment.declaration(variable)?;
    let number = table_word(environment, variable)?;
    if is_open(declaration)? {
        Ok(NumberPlace::Known(OWN_SIGNATURE))
    } else {
        Ok(NumberPlace::Known(number))
    }
}

fn based_number(environment: &Environment, variable: Variable) -> Result<NumberPlace, AllocError>
    ensures { IfOk result (λ n. number_of n ≡ form.based_number (environment_of environment.now) (variable_of variable) (declaration_of (environment_of environment.now) (variable_of variable))) }
{
    let declaration = environment.declaration(variable)?;
    let number = table_word(environment, variable)?;
    if needs_number_word(declaration) {
        Ok(NumberPlace::Word {
            block: variable.block,
            index: variable.index,
        })
    } else {
        Ok(NumberPlace::Known(number))
    }
}

/// The bytes of a variable's static storage; more than a frame counts are want of memory.
pub fn static_bytes(declaration: &DeclaredVariable) -> Result<usize, AllocError>
    ensures { IfOk result (λ n. n ≡ frames.constant_size parts (declared_variable_of declaration.now)) }
{
    let bytes = constant_size(declaration);
    if bytes >= LAST_PLACE {
        return Err(AllocError);
    }
    Ok(bytes as usize)
}

/// The words of a name at the temporaries in use.
pub fn waiting_name(taken: Taken) -> Result<i32, AllocError>
    ensures { IfOk result (λ d. d ≡ form.waiting_name (taken_of taken)) }
{
    words_place(taken.words, 4)
}

/// The word behind them.
pub fn waiting_number(taken: Taken) -> Result<i32, AllocError>
    ensures { IfOk result (λ d. d ≡ form.waiting_number (taken_of taken)) }
{
    let behind = taken.with_words(4)?;
    words_place(behind.words, 1)
}

fn automatic_located(environment: &Environment, variable: Variable) -> Result<Located, AllocError>
    ensures { IfOk result (λ l. located_of l ≡ form.located_by_class (environment_of environment.now) none_taken (variable_of variable) (declaration_of (environment_of environment.now) (variable_of variable)) AutomaticClass) }
{
    let number = known_or_own(environment, variable)?;
    let place = signed(automatic_place(environment, variable)?)?;
    Ok(Located {
        name: NamePlace::Frame {
            level: variable.level,
            place,
        },
        number,
    })
}

fn parameter_located(environment: &Environment, variable: Variable) -> Result<Located, AllocError>
    ensures { IfOk result (λ l. located_of l ≡ form.located_by_class (environment_of environment.now) none_taken (variable_of variable) (declaration_of (environment_of environment.now) (variable_of variable)) ParameterClass) }
{
    let n = number_of_parameter(environment, variable);
    let place = argument_at(n, 0)?;
    let number = argument_at(n, 4)?;
    Ok(Located {
        name: NamePlace::List {
            level: variable.level,
            place,
        },
        number: NumberPlace::List {
            level: variable.level,
            place: number,
        },
    })
}

fn static_located(environment: &Environment, variable: Variable) -> Result<Located, AllocError>
    ensures { IfOk result (λ l. located_of l ≡ form.located_by_class (environment_of environment.now) none_taken (variable_of variable) (declaration_of (environment_of environment.now) (variable_of variable)) StaticClass) }
{
    let declaration = environment.declaration(variable)?;
    let bytes = static_bytes(declaration)?;
    let number = known_or_own(environment, variable)?;
    Ok(Located {
        name: NamePlace::Static {
            block: variable.block,
            index: variable.index,
            bytes,
        },
        number,
    })
}

fn based_located(
    environment: &Environment,
    taken: Taken,
    variable: Variable,
) -> Result<Located, AllocError>
    ensures { IfOk result (λ l. located_of l ≡ form.located_by_class (environment_of environment.now) (taken_of taken) (variable_of variable) (declaration_of (environment_of environment.now) (variable_of variable)) BasedClass) }
{
    let number = based_number(environment, variable)?;
    let place = waiting_name(taken)?;
    Ok(Located {
        name: NamePlace::Frame {
            level: environment.level,
            place,
        },
        number,
    })
}

/// A BASED variable whose name stands there.
pub fn located_at(
    environment: &Environment,
    variable: Variable,
    name: NamePlace,
) -> Result<Located, AllocError>
    ensures { IfOk result (λ l. located_of l ≡ form.based_located (environment_of environment.now) (variable_of variable) (name_of name)) }
{
    let number = based_number(environment, variable)?;
    Ok(Located { name, number })
}

fn controlled_located(environment: &Environment, taken: Taken) -> Result<Located, AllocError>
    ensures { IfOk result (λ l. located_of l ≡ form.located_by_class (environment_of environment.now) (taken_of taken) no_variable no_declaration ControlledClass) }
{
    let place = waiting_name(taken)?;
    let number = waiting_number(taken)?;
    Ok(Located {
        name: NamePlace::Frame {
            level: environment.level,
            place,
        },
        number: NumberPlace::Frame {
            level: environment.level,
            place: number,
        },
    })
}

/// Where a variable's name and its signature's number are.
pub fn located(
    environment: &Environment,
    taken: Taken,
    variable: Variable,
) -> Result<Located, AllocError>
    ensures { IfOk result (λ l. located_of l ≡ form.located (environment_of environment.now) (taken_of taken) (variable_of variable)) }
{
    match variable.class {
        StorageClass::Automatic => automatic_located(environment, variable),
        StorageClass::Parameter => parameter_located(environment, variable),
        StorageClass::Static => static_located(environment, variable),
        StorageClass::Based => based_located(environment, taken, variable),
        StorageClass::Controlled => controlled_located(environment, taken),
    }
}

/// What is kept of the newest generation, with its name's place in a1 and the variable's number in a0.
fn newest_kept(code: &mut Code, taken: Taken) -> Result<(), AllocError>
    ensures { OnOk result (code.new ≡ code.old ++ newest_kept (taken_of taken)) }
{
    code.service(18)?;
    let place = waiting_number(taken)?;
    code.store_word(registers::frame(), registers::a1(), place)?;
    code.copy(registers::a1(), registers::a0())?;
    code.status_tested()
}

/// The offset of the words in which the newest generation's name is to wait.
fn newest_name(code: &mut Code, environment: &Environment, taken: Taken) -> Result<(), AllocError>
    ensures { OnOk result (code.new ≡ code.old ++ form.own_place (environment_of environment.now) a1 (form.waiting_name (taken_of taken))) }
{
    let name = waiting_name(taken)?;
    own_place(code, environment, registers::a1(), name)
}

fn newest_number(
    code: &mut Code,
    environment: &Environment,
    variable: Variable,
) -> Result<(), AllocError>
    ensures { OnOk result (code.new ≡ code.old ++ number a0 (form.controlled_number (environment_of environment.now) (variable_of variable))) }
{
    let number = controlled_number(environment.known.typed, variable)?;
    count(code, registers::a0(), number)
}

/// The newest generation of a CONTROLLED variable: its name and its signature's number wait in words, and none is an error.
fn newest_found(
    code: &mut Code,
    environment: &Environment,
    taken: Taken,
    variable: Variable,
) -> Result<(), AllocError>
    ensures { OnOk result (code.new ≡ code.old ++ form.newest_found (environment_of environment.now) (taken_of taken) (variable_of variable)) }
{
    newest_name(code, environment, taken)?;
    newest_number(code, environment, variable)?;
    newest_kept(code, taken)
}

/// What has to be found before a variable of a class is located.
pub fn class_found(
    code: &mut Code,
    environment: &Environment,
    taken: Taken,
    variable: Variable,
) -> Result<(), AllocError>
    ensures { OnOk result (code.new ≡ code.old ++ form.class_found (environment_of environment.now) (taken_of taken) (variable_of variable) (variable_of variable).class) }
{
    match variable.class {
        StorageClass::Automatic => Ok(()),
        StorageClass::Parameter => Ok(()),
        StorageClass::Static => Ok(()),
        StorageClass::Based => Ok(()),
        StorageClass::Controlled => newest_found(code, environment, taken, variable),
    }
}
