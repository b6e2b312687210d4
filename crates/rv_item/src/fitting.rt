// Numbers from fields, of the precision that the buffer tells.

ghost use Rattle.std.specs.Prelude.{◌≡◌, ◌<◌, ◌++◌, OnOk};
ghost use Rattle.pli_coding.specs.Arithmetic as arithmetic;
ghost use Rattle.pli_coding.specs.Streams as form;
ghost use Rattle.pli_frames.specs.TakenView.{taken_of};
ghost use Rattle.rv_item.specs.Moved.{narrow_checked, number_shifted};

use crate::branch::skip_where;
use crate::element::size_in;
use pli_frames::taken::Taken;
use pli_language::condition::Condition;
use rv_address::taken::{fetch, save};
use rv_assembly::code::Code;
use rv_assembly::registers::{a0, u1, u2};
use rv_meaning::instr::{BranchTest, RegisterOp};
use rv_operation::arithmetic::raised;
use std::alloc::AllocError;

fn overflow_raised(code: &mut Code, taken: Taken) -> Result<(), AllocError>
    ensures { OnOk result (code.new ≡ code.old ++ arithmetic.overflow_raised (taken_of taken)) }
{
    save(code, a0(), taken)?;
    raised(code, Condition::FixedOverflow, 20)?;
    fetch(code, a0(), taken)
}

/// FIXEDOVERFLOW unless the number is u1, with u1 as what the program goes on with.
#[tactic(auto, using(rv_assembly::proofs::Patching::patching))]
fn narrow_checked(code: &mut Code, taken: Taken) -> Result<(), AllocError>
    ensures { OnOk result (code.new ≡ code.old ++ narrow_checked (taken_of taken)) }
{
    let place = code.keep_branch()?;
    code.copy(a0(), u1())?;
    overflow_raised(code, taken)?;
    skip_where(code, place, BranchTest::Equal, u1(), a0())
}

/// The lowest bits of a number, with their sign, in u1; the precision that they are by stands in u2.
fn number_shifted(code: &mut Code) -> Result<(), AllocError>
    ensures { OnOk result (code.new ≡ code.old ++ number_shifted) }
{
    code.small(u1(), 31)?;
    code.subtract(u2(), u1(), u2())?;
    code.registers(RegisterOp::ShiftLeft, u1(), a0(), u2())?;
    code.registers(RegisterOp::ShiftRightArithmetic, u1(), u1(), u2())
}

/// A number in a0 is made one of the precision that the buffer tells, and waits.
pub(crate) fn number_fitted(code: &mut Code, taken: Taken) -> Result<(), AllocError>
    ensures { OnOk result (code.new ≡ code.old ++ form.number_fitted (taken_of taken)) }
{
    size_in(code, u2())?;
    number_shifted(code)?;
    narrow_checked(code, taken)?;
    save(code, a0(), taken)
}

/// The top text as a number, with mode 1 as a bit.
pub(crate) fn text_converted(code: &mut Code, mode: u32) -> Result<(), AllocError>
    requires { mode < 2048 }
    ensures { OnOk result (code.new ≡ code.old ++ form.text_converted mode) }
{
    code.small(a0(), mode)?;
    code.tested_service(26)
}

/// The top text as a number, which waits.
pub(crate) fn text_fitted(code: &mut Code, taken: Taken) -> Result<(), AllocError>
    ensures { OnOk result (code.new ≡ code.old ++ (form.text_converted 0 ++ form.number_fitted (taken_of taken))) }
{
    text_converted(code, 0)?;
    number_fitted(code, taken)
}
