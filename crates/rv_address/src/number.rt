// Numbers of the tree, whatever their size, in the fields of instructions. What no 32 bits hold is want of memory.

ghost use Rattle.std.specs.Prelude.{◌≡◌, ◌+◌, ◌*◌, ℤ, pos, ◌++◌, OnOk, IfOk};
ghost use Rattle.pli_coding.specs.Instructions as form;
ghost use Rattle.pli_coding.specs.Locating.{place_behind};

use rv_assembly::code::Code;
use rv_meaning::instr::Register;
use std::alloc::AllocError;

/// A number in a register.
pub fn constant(code: &mut Code, register: Register, number: i128) -> Result<(), AllocError>
    ensures { OnOk result (code.new ≡ code.old ++ form.constant register number) }
{
    if number < -(1 << 31) || number >= 1 << 32 {
        return Err(AllocError);
    }
    if number < 0 {
        return Ok(code.constant(register, number as i32)?);
    }
    code.number(register, number as u32)
}

/// A count, place or number of a signature in a register.
pub fn count(code: &mut Code, register: Register, number: usize) -> Result<(), AllocError>
    ensures { OnOk result (code.new ≡ code.old ++ form.number register number) }
{
    if number >= 1 << 32 {
        return Err(AllocError);
    }
    code.number(register, number as u32)
}

/// A register's value and a number, in another register. 2^31 counts as the number that its word has with a sign.
#[tactic(auto, using(crate::proofs::Declared::least_stands))]
pub fn plus(code: &mut Code, rd: Register, rs: Register, number: i128) -> Result<(), AllocError>
    ensures { OnOk result (code.new ≡ code.old ++ form.plus rd rs number) }
{
    if number == 1 << 31 {
        return Ok(code.plus(rd, rs, i32::MIN)?);
    }
    if number < -(1 << 31) || number >= 1 << 31 {
        return Err(AllocError);
    }
    Ok(code.plus(rd, rs, number as i32)?)
}

/// A place so many bytes behind another one.
pub fn behind(count: u32, place: i32) -> Result<i32, AllocError>
    ensures { IfOk result (λ d. d ≡ place_behind count place) }
{
    let sum = i64::from(place) + i64::from(count);
    if sum >= 1 << 31 {
        return Err(AllocError);
    }
    Ok(sum as i32)
}

/// A place of a frame as a displacement.
pub fn signed(place: u32) -> Result<i32, AllocError>
    ensures { IfOk result (λ d. d ≡ pos place) }
{
    if place >= 1 << 31 {
        return Err(AllocError);
    }
    Ok(place as i32)
}
