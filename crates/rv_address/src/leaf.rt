// The leaf of a variable that lives: found by a service, or at a constant place.

ghost use Rattle.std.specs.Prelude.{◌≡◌, pos, ◌++◌, OnOk, IfOk};
ghost use Rattle.pli_typing.specs.TypedView.{class_of, variable_of};
ghost use Rattle.pli_coding.specs.Frames as frames;
ghost use Rattle.pli_coding.specs.Locating as form;
ghost use Rattle.rv_address.specs.Around.{environment_of};
ghost use Rattle.rv_address.specs.Places.{located_of};

use crate::environment::Environment;
use crate::names::{Located, name_offset, number_loaded, own_place};
use crate::number::{count, signed};
use pli_frames::fixed::buffer;
use pli_frames::size::has_constant_size;
use pli_typing::typed::{StorageClass, Variable};
use rv_assembly::code::Code;
use rv_assembly::registers;
use rv_meaning::instr::Register;
use std::alloc::AllocError;

fn is_direct_class(class: StorageClass) -> bool
    ensures { result ≡ form.is_direct_class (class_of class) }
{
    match class {
        StorageClass::Automatic => true,
        StorageClass::Parameter => false,
        StorageClass::Static => true,
        StorageClass::Based => false,
        StorageClass::Controlled => false,
    }
}

/// Whether a variable's data stands at a constant place.
pub fn is_direct(environment: &Environment, variable: Variable) -> Result<bool, AllocError>
    ensures { IfOk result (λ b. b ≡ form.is_direct (environment_of environment.now) (variable_of variable)) }
{
    let declaration = environment.declaration(variable)?;
    Ok(is_direct_class(variable.class) && has_constant_size(declaration))
}

/// The offset of the buffer where it is wanted, or else 0.
fn buffer_if(
    code: &mut Code,
    environment: &Environment,
    is_wanted: bool,
    register: Register,
) -> Result<(), AllocError>
    ensures { OnOk result (code.new ≡ code.old ++ form.buffer_if (environment_of environment.now) is_wanted register) }
{
    if is_wanted {
        let place = signed(buffer())?;
        own_place(code, environment, register, place)
    } else {
        code.small(register, 0)
    }
}

/// The extent that REFER tells, in a0.
pub fn refer_read(
    code: &mut Code,
    environment: &Environment,
    located: Located,
    is_wanted: bool,
) -> Result<(), AllocError>
    ensures { OnOk result (code.new ≡ code.old ++ form.refer_read (environment_of environment.now) (located_of located) is_wanted) }
{
    name_offset(code, environment, registers::a0(), located.name)?;
    number_loaded(code, environment, registers::a1(), located.number)?;
    buffer_if(code, environment, is_wanted, registers::a2())?;
    code.tested_service(15)
}

/// The offset of a leaf that lives, in a0.
pub fn leaf_resolved(
    code: &mut Code,
    environment: &Environment,
    located: Located,
    leaf: usize,
    is_wanted: bool,
) -> Result<(), AllocError>
    ensures { OnOk result (code.new ≡ code.old ++ form.leaf_resolved (environment_of environment.now) (located_of located) leaf is_wanted) }
{
    name_offset(code, environment, registers::a0(), located.name)?;
    number_loaded(code, environment, registers::a1(), located.number)?;
    count(code, registers::a2(), leaf)?;
    buffer_if(code, environment, is_wanted, registers::a3())?;
    code.small(registers::a4(), 0)?;
    code.tested_service(8)
}

fn refer_if(
    code: &mut Code,
    environment: &Environment,
    located: Located,
    is_wanted: bool,
    is_referred: bool,
) -> Result<(), AllocError>
    ensures { OnOk result (code.new ≡ code.old ++ form.refer_if (environment_of environment.now) (located_of located) is_wanted is_referred) }
{
    code.copy(registers::u3(), registers::a0())?;
    if is_referred {
        refer_read(code, environment, located, is_wanted)
    } else {
        Ok(())
    }
}

/// The offset of a part's first leaf, in u3; the extent that REFER tells, where it may, in a0.
pub fn leaf_found(
    code: &mut Code,
    environment: &Environment,
    located: Located,
    leaf: usize,
    is_wanted: bool,
    is_referred: bool,
) -> Result<(), AllocError>
    ensures { OnOk result (code.new ≡ code.old ++ form.leaf_found (environment_of environment.now) (located_of located) leaf is_wanted is_referred) }
{
    leaf_resolved(code, environment, located, leaf, is_wanted)?;
    refer_if(code, environment, located, is_wanted, is_referred)
}
