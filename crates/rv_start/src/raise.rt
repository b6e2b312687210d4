// The routines of raises, each of which goes on in the one behind it.

ghost use Rattle.std.specs.Prelude.{◌≡◌, ◌<◌, ◌++◌, OnOk};
ghost use Rattle.pli_coding.specs.Images as form;

use rv_assembly::code::Code;
use rv_assembly::item::{Item, Symbol};
use rv_assembly::registers::{a0, a1, a2, return_register, u0, u1, zero};
use rv_meaning::instr::{BranchTest, Instr};
use std::alloc::AllocError;

/// The words of the end of a run with ERROR's code, and of all of ERROR's routine.
const END_WORDS: usize = 3;

const ERROR_WORDS: usize = 11;

/// A unit begins, with its offset in a0 and the frame of its ON in a1.
fn unit_begun(code: &mut Code) -> Result<(), AllocError>
    ensures { OnOk result (code.new ≡ code.old ++ form.unit_begun) }
{
    code.push(Item::BaseIn(u0()))?;
    code.add(u1(), u0(), a0())?;
    code.add(a0(), u0(), a1())?;
    code.plain(Instr::JumpRegister {
        rd: zero(),
        rs1: u1(),
        offset: 0,
    })
}

/// To the unit, where there is one, so many words behind this.
#[tactic(auto, using(rv_assembly::proofs::Patching::patching))]
fn to_unit(code: &mut Code, behind: usize) -> Result<(), AllocError>
    requires { behind < 2048 }
    ensures { OnOk result (code.new ≡ code.old ++ form.to_unit behind) }
{
    let place = code.keep_branch()?;
    code.push(Item::JumpAhead(behind))?;
    code.skip_where(place, BranchTest::Equal, a0(), zero());
    Ok(())
}

fn error_end(code: &mut Code) -> Result<(), AllocError>
    ensures { OnOk result (code.new ≡ code.old ++ form.error_end) }
{
    code.push(Item::Mark(Symbol::ErrorEnd))?;
    code.small(a0(), 2)?;
    code.service(2)
}

/// ERROR, with its code in a1.
fn error_code(code: &mut Code) -> Result<(), AllocError>
    ensures { OnOk result (code.new ≡ code.old ++ form.error_code) }
{
    code.push(Item::Mark(Symbol::RaiseError))?;
    code.small(a0(), 5)?;
    code.push(Item::OffsetOf(a2(), Symbol::ErrorEnd))?;
    code.service(30)?;
    to_unit(code, END_WORDS)?;
    error_end(code)
}

/// Another condition in a0, with its code in a1 and the place to go on in the return register.
fn condition_code(code: &mut Code) -> Result<(), AllocError>
    ensures { OnOk result (code.new ≡ code.old ++ form.condition_code) }
{
    code.push(Item::Mark(Symbol::RaiseCondition))?;
    code.push(Item::BaseIn(u0()))?;
    code.subtract(a2(), return_register(), u0())?;
    code.service(30)?;
    to_unit(code, ERROR_WORDS)
}

/// What is done where a condition is raised.
pub fn raise_code(code: &mut Code) -> Result<(), AllocError>
    ensures { OnOk result (code.new ≡ code.old ++ form.raise_code) }
{
    condition_code(code)?;
    error_code(code)?;
    unit_begun(code)
}
