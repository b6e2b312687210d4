// Extents checked as soon as they are evaluated, with the value in a0. What doesn't hold is an error.

ghost use Rattle.std.specs.Prelude.{◌≡◌, ◌<◌, map, ◌++◌, OnOk};
ghost use Rattle.pli_typing.specs.TypedTree.{EvaluatedExtent};
ghost use Rattle.pli_typing.specs.TypedView.{bounds_of, extent_of, leaf_of};
ghost use Rattle.pli_typing.specs.TypedStatementView.{check_of};
ghost use Rattle.pli_meaning.specs.Codes.{extent_code};
ghost use Rattle.pli_coding.specs.Instructions.{error_raised, skip_where};
ghost use Rattle.pli_coding.specs.Extents as form;
ghost use Rattle.pli_frames.specs.TakenView.{taken_of};

use crate::fill::{bounds_filled, size_filled};
use crate::words::{lower_kept, lower_waiting};
use pli_frames::taken::Taken;
use pli_typing::typed::{Bounds, Check, Extent, Leaf};
use rv_address::number::constant;
use rv_assembly::code::Code;
use rv_assembly::registers::{a0, a2, a3, u1, zero};
use rv_meaning::instr::{BranchTest, ImmediateOp, Register};
use std::alloc::{AllocError, Global};

/// ERROR for an extent unless the test holds.
#[tactic(auto, using(rv_assembly::proofs::Patching::patching))]
pub fn error_unless(
    code: &mut Code,
    test: BranchTest,
    left: Register,
    right: Register,
) -> Result<(), AllocError>
    ensures { OnOk result (code.new ≡ code.old ++ skip_where test left right (error_raised extent_code)) }
{
    let place = code.keep_branch()?;
    code.error_raised(107)?;
    code.skip_where(place, test, left, right);
    Ok(())
}

/// A length from 0 to 1,024, to a3.
fn length_checked(code: &mut Code) -> Result<(), AllocError>
    ensures { OnOk result (code.new ≡ code.old ++ form.length_checked) }
{
    code.immediate(ImmediateOp::SetLessUnsigned, u1(), a0(), 1025)?;
    error_unless(code, BranchTest::NotEqual, u1(), zero())?;
    code.copy(a3(), a0())
}

/// A size from 0 on, to a3.
fn size_checked(code: &mut Code) -> Result<(), AllocError>
    ensures { OnOk result (code.new ≡ code.old ++ form.size_checked) }
{
    error_unless(code, BranchTest::GreaterOrEqual, a0(), zero())?;
    code.copy(a3(), a0())
}

/// The value of this evaluation, or of an earlier one, which is a lower bound.
fn value_given(
    code: &mut Code,
    taken: Taken,
    register: Register,
    place: usize,
    number: usize,
) -> Result<(), AllocError>
    ensures { OnOk result (code.new ≡ code.old ++ form.extent_given (taken_of taken) register place (EvaluatedExtent number)) }
{
    if number == place {
        code.copy(register, a0())
    } else {
        lower_waiting(code, taken, register)
    }
}

/// A bound, in a register.
fn extent_given(
    code: &mut Code,
    taken: Taken,
    register: Register,
    place: usize,
    extent: Extent,
) -> Result<(), AllocError>
    ensures { OnOk result (code.new ≡ code.old ++ form.extent_given (taken_of taken) register place (extent_of extent)) }
{
    match extent {
        Extent::Constant(number) => constant(code, register, number),
        Extent::Star => Ok(()),
        Extent::Refer => Ok(()),
        Extent::Evaluated(number) => value_given(code, taken, register, place, number),
    }
}

/// Bounds of which the upper one isn't below the lower one.
fn bounds_checked(
    code: &mut Code,
    taken: Taken,
    place: usize,
    bounds: Bounds,
) -> Result<(), AllocError>
    ensures { OnOk result (code.new ≡ code.old ++ form.bounds_checked (taken_of taken) place (bounds_of bounds)) }
{
    extent_given(code, taken, a2(), place, bounds.lower)?;
    extent_given(code, taken, a3(), place, bounds.upper)?;
    error_unless(code, BranchTest::GreaterOrEqual, a3(), a2())
}

/// The value of an evaluation by its place, checked, then filled in or kept for REFER; a lower bound only waits.
pub fn checked_code(
    alloc: Global,
    code: &mut Code,
    taken: Taken,
    place: usize,
    is_kept: bool,
    leaves: &[Leaf],
    check: Check,
) -> Result<(), AllocError>
    ensures { OnOk result (code.new ≡ code.old ++ form.checked_code (taken_of taken) place is_kept (map leaf_of leaves.now) (check_of check)) }
{
    match check {
        Check::None => lower_kept(code, taken),
        Check::Length => {
            length_checked(code)?;
            size_filled(alloc, code, taken, place, is_kept, leaves)
        }
        Check::Size => {
            size_checked(code)?;
            size_filled(alloc, code, taken, place, is_kept, leaves)
        }
        Check::Bounds(bounds) => {
            bounds_checked(code, taken, place, bounds)?;
            bounds_filled(alloc, code, taken, bounds, is_kept, leaves)
        }
    }
}
