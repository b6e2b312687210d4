// Simple numbers, which come straight into a register: constants, and variables whose data stands at a constant place.

ghost use Rattle.std.specs.Prelude.{◌≡◌, ◌++◌, OnOk, IfOk};
ghost use Rattle.pli_typing.specs.TypedTree.{NumberIn};
ghost use Rattle.pli_typing.specs.TypedView.{number_of, numbers_of, part_of, reference_of, variable_of};
ghost use Rattle.pli_coding.specs.Locating as form;
ghost use Rattle.rv_address.specs.Around.{environment_of};

use crate::direct::{direct_base, direct_place, direct_register};
use crate::environment::Environment;
use crate::leaf::is_direct;
use crate::number::{constant, signed};
use crate::transfer::{Address, loaded};
use pli_typing::typed::{Number, Numbers, Part, Reference, Variable};
use rv_assembly::code::Code;
use rv_meaning::instr::Register;
use std::alloc::AllocError;

#[tactic(auto, using(crate::proofs::Trees::references))]
fn is_simple_variable(environment: &Environment, reference: &Reference) -> Result<bool, AllocError>
    ensures { IfOk result (λ b. b ≡ form.is_simple (environment_of environment.now) (NumberIn (reference_of reference.now))) }
{
    match reference {
        Reference::Plain {
            variable,
            subscripts,
            ..
        } => match subscripts {
            Numbers::End => is_direct(environment, *variable),
            Numbers::More { .. } => Ok(false),
        },
        Reference::Located { .. } => Ok(false),
    }
}

/// Whether a number is simple.
#[tactic(auto, using(crate::proofs::Trees::forms))]
pub fn is_simple(environment: &Environment, number: &Number) -> Result<bool, AllocError>
    ensures { IfOk result (λ b. b ≡ form.is_simple (environment_of environment.now) (number_of number.now)) }
{
    match number {
        Number::Constant(_) => Ok(true),
        Number::In(reference) => is_simple_variable(environment, reference),
        _ => Ok(false),
    }
}

/// Whether all of these numbers are simple.
#[tactic(auto, using(crate::proofs::Trees::numbers))]
pub fn are_simple(environment: &Environment, numbers: &Numbers) -> Result<bool, AllocError>
    ensures { IfOk result (λ b. b ≡ form.are_simple (environment_of environment.now) (numbers_of numbers.now)) }
{
    match numbers {
        Numbers::End => Ok(true),
        Numbers::More { first, rest } => {
            if !is_simple(environment, first)? {
                return Ok(false);
            }
            are_simple(environment, rest)
        }
    }
}

fn variable_loaded(
    code: &mut Code,
    environment: &Environment,
    register: Register,
    variable: Variable,
    part: Part,
) -> Result<(), AllocError>
    ensures { OnOk result (code.new ≡ code.old ++ form.variable_loaded (environment_of environment.now) register (variable_of variable) (part_of part)) }
{
    let leaf = environment.leaf(variable, part.first)?;
    direct_base(code, environment, register, variable)?;
    let address = Address {
        register: direct_register(environment, register, variable),
        displacement: signed(direct_place(environment, variable, part.first)?)?,
    };
    loaded(code, leaf.kind, register, address)
}

#[tactic(auto, using(crate::proofs::Trees::references))]
fn reference_loaded(
    code: &mut Code,
    environment: &Environment,
    register: Register,
    reference: &Reference,
) -> Result<(), AllocError>
    ensures { OnOk result (code.new ≡ code.old ++ form.simple_loaded (environment_of environment.now) register (NumberIn (reference_of reference.now))) }
{
    match reference {
        Reference::Plain { variable, part, .. } => {
            variable_loaded(code, environment, register, *variable, *part)
        }
        Reference::Located { variable, part, .. } => {
            variable_loaded(code, environment, register, *variable, *part)
        }
    }
}

/// A simple number, in a register; no other one but u0 is written.
#[tactic(auto, using(crate::proofs::Trees::forms))]
pub fn simple_loaded(
    code: &mut Code,
    environment: &Environment,
    register: Register,
    number: &Number,
) -> Result<(), AllocError>
    ensures { OnOk result (code.new ≡ code.old ++ form.simple_loaded (environment_of environment.now) register (number_of number.now)) }
{
    match number {
        Number::Constant(value) => constant(code, register, i128::from(*value)),
        Number::In(reference) => reference_loaded(code, environment, register, reference),
        _ => Ok(()),
    }
}
