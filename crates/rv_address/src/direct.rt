// Variables whose data stands at a constant place: their base, what lies before a leaf, and names in leaves.

ghost use Rattle.std.specs.Prelude.{◌≡◌, ℕ, ◌+◌, pos, ◌++◌, OnOk, IfOk};
ghost use Rattle.pli_typing.specs.TypedView.{variable_of};
ghost use Rattle.pli_coding.specs.Environments.{declaration_of};
ghost use Rattle.pli_coding.specs.Locating as form;
ghost use Rattle.rv_address.specs.Around.{environment_of};
ghost use Rattle.rv_address.specs.Pieces.{direct_start, static_base};
ghost use Rattle.rv_address.specs.Places.{name_of};

use crate::environment::Environment;
use crate::frame::automatic_place;
use crate::located::static_bytes;
use crate::names::{NamePlace, frame_found, frame_in};
use crate::number::signed;
use crate::size::leaf_place;
use pli_typing::typed::{StorageClass, Variable};
use rv_assembly::code::Code;
use rv_assembly::item::{Datum, Item, Symbol};
use rv_assembly::registers;
use rv_meaning::instr::Register;
use std::alloc::AllocError;

fn static_base(
    code: &mut Code,
    environment: &Environment,
    register: Register,
    variable: Variable,
) -> Result<(), AllocError>
    ensures { OnOk result (code.new ≡ code.old ++ static_base (environment_of environment.now) register (variable_of variable)) }
{
    let declaration = environment.declaration(variable)?;
    let bytes = static_bytes(declaration)?;
    let datum = Datum::StaticStorage {
        block: variable.block,
        index: variable.index,
        bytes,
    };
    code.push(Item::BaseIn(register))?;
    code.push(Item::OffsetOf(registers::u0(), Symbol::DataPlace(datum)))?;
    code.add(register, register, registers::u0())
}

/// What finds the base of a variable whose data stands at a constant place, by way of a register.
pub fn direct_base(
    code: &mut Code,
    environment: &Environment,
    register: Register,
    variable: Variable,
) -> Result<(), AllocError>
    ensures { OnOk result (code.new ≡ code.old ++ form.direct_base (environment_of environment.now) register (variable_of variable) (variable_of variable).class) }
{
    let level = variable.level;
    match variable.class {
        StorageClass::Automatic => frame_found(code, environment, level, register),
        StorageClass::Parameter => frame_found(code, environment, level, register),
        StorageClass::Static => static_base(code, environment, register, variable),
        StorageClass::Based => frame_found(code, environment, level, register),
        StorageClass::Controlled => frame_found(code, environment, level, register),
    }
}

/// The register that has the base then.
pub fn direct_register(
    environment: &Environment,
    register: Register,
    variable: Variable,
) -> Register
    ensures { result ≡ form.direct_register (environment_of environment.now) register (variable_of variable) (variable_of variable).class }
{
    let level = variable.level;
    match variable.class {
        StorageClass::Automatic => frame_in(environment, level, register),
        StorageClass::Parameter => frame_in(environment, level, register),
        StorageClass::Static => register,
        StorageClass::Based => frame_in(environment, level, register),
        StorageClass::Controlled => frame_in(environment, level, register),
    }
}

/// The place of a variable's name behind its base.
fn direct_start(environment: &Environment, variable: Variable) -> Result<u32, AllocError>
    ensures { IfOk result (λ n. n ≡ direct_start (environment_of environment.now) (variable_of variable) (variable_of variable).class) }
{
    match variable.class {
        StorageClass::Automatic => automatic_place(environment, variable),
        StorageClass::Parameter => automatic_place(environment, variable),
        StorageClass::Static => Ok(0),
        StorageClass::Based => automatic_place(environment, variable),
        StorageClass::Controlled => automatic_place(environment, variable),
    }
}

/// The place of a leaf behind its variable's base.
#[tactic(auto, using(crate::proofs::Placing::number_is))]
pub fn direct_place(
    environment: &Environment,
    variable: Variable,
    leaf: usize,
) -> Result<u32, AllocError>
    ensures { IfOk result (λ n. n ≡ form.direct_place (environment_of environment.now) (variable_of variable) (variable_of variable).class leaf) }
{
    let start = direct_start(environment, variable)?;
    let inside = leaf_place(environment.declaration(variable)?, leaf)?;
    let place = u64::from(start) + 16 + u64::from(inside);
    if place >= 1 << 31 {
        return Err(AllocError);
    }
    Ok(place as u32)
}

fn name_in_frame(variable: Variable, place: u32) -> Result<NamePlace, AllocError>
    ensures { IfOk result (λ n. name_of n ≡ form.FrameName (variable_of variable).level (pos place)) }
{
    let place = signed(place)?;
    Ok(NamePlace::Frame {
        level: variable.level,
        place,
    })
}

fn name_in_static(
    environment: &Environment,
    variable: Variable,
    place: u32,
) -> Result<NamePlace, AllocError>
    ensures { IfOk result (λ n. name_of n ≡ form.NameInData (form.static_datum (environment_of environment.now) (variable_of variable).block (variable_of variable).index (declaration_of (environment_of environment.now) (variable_of variable))) place) }
{
    let bytes = static_bytes(environment.declaration(variable)?)?;
    Ok(NamePlace::InStatic {
        block: variable.block,
        index: variable.index,
        bytes,
        place,
    })
}

/// Where the name in a leaf stands, of a variable whose data has a constant place.
pub fn direct_name(
    environment: &Environment,
    variable: Variable,
    leaf: usize,
) -> Result<NamePlace, AllocError>
    ensures { IfOk result (λ n. name_of n ≡ form.direct_name (environment_of environment.now) (variable_of variable) (variable_of variable).class leaf) }
{
    let place = direct_place(environment, variable, leaf)?;
    match variable.class {
        StorageClass::Automatic => name_in_frame(variable, place),
        StorageClass::Parameter => name_in_frame(variable, place),
        StorageClass::Static => name_in_static(environment, variable, place),
        StorageClass::Based => name_in_frame(variable, place),
        StorageClass::Controlled => name_in_frame(variable, place),
    }
}
