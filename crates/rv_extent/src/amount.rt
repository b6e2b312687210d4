// What ALLOCATE sets a REFER member to, in a1. It fits the member, or is an error.

ghost use Rattle.std.specs.Prelude.{◌≡◌, ◌<◌, Some, map, ◌++◌, slice_get, OnOk};
ghost use Rattle.pli_typing.specs.TypedView.{extent_of, leaf_of};
ghost use Rattle.pli_typing.specs.TypedStatementView.{declared_variable_of, refer_member_of};
ghost use Rattle.pli_coding.specs.Extents as form;
ghost use Rattle.pli_frames.specs.TakenView.{taken_of};

use crate::check::error_unless;
use crate::words::amount_waiting;
use pli_frames::taken::Taken;
use pli_typing::typed::{DeclaredVariable, Extent, Leaf, LeafType, ReferMember};
use rv_address::number::constant;
use rv_assembly::code::Code;
use rv_assembly::registers::{a1, u1};
use rv_meaning::instr::{BranchTest, ShiftOp};
use std::alloc::AllocError;

/// The bits of numbers that aren't declared with fewer.
const OPERATOR_PRECISION: u64 = 31;

fn leaf_precision(leaf: &Leaf) -> u64
    ensures { result ≡ form.member_precision (Some (leaf_of leaf.now)) }
{
    match leaf.kind {
        LeafType::Fixed(precision) => precision,
        _ => OPERATOR_PRECISION,
    }
}

/// The precision of the leaf at a place.
#[tactic(auto, using(crate::proofs::Steps::member_here, crate::proofs::Steps::member_nowhere))]
fn member_precision(leaves: &[Leaf], member: usize) -> u64
    ensures { result ≡ form.member_precision (slice_get (map leaf_of leaves.now) member) }
{
    if member >= leaves.len() {
        return OPERATOR_PRECISION;
    }
    let leaf = &leaves[member];
    leaf_precision(leaf)
}

/// The lowest bits of the extent, with their sign, must be the extent.
fn narrow_checked(code: &mut Code, precision: u8) -> Result<(), AllocError>
    requires { precision < 31 }
    ensures { OnOk result (code.new ≡ code.old ++ form.narrow_checked precision) }
{
    let amount = 31 - precision;
    code.shift(ShiftOp::Left, u1(), a1(), amount)?;
    code.shift(ShiftOp::RightArithmetic, u1(), u1(), amount)?;
    error_unless(code, BranchTest::Equal, u1(), a1())
}

fn precision_checked(code: &mut Code, precision: u64) -> Result<(), AllocError>
    ensures { OnOk result (code.new ≡ code.old ++ form.precision_checked precision) }
{
    if precision < 31 {
        narrow_checked(code, precision as u8)
    } else {
        Ok(())
    }
}

/// The extent, which waits unless it is a constant.
fn amount_loaded(code: &mut Code, taken: Taken, amount: Extent) -> Result<(), AllocError>
    ensures { OnOk result (code.new ≡ code.old ++ form.amount_loaded (taken_of taken) (extent_of amount)) }
{
    match amount {
        Extent::Constant(number) => constant(code, a1(), number),
        Extent::Star => amount_waiting(code, taken),
        Extent::Refer => amount_waiting(code, taken),
        Extent::Evaluated(_) => amount_waiting(code, taken),
    }
}

fn member_amount(
    code: &mut Code,
    taken: Taken,
    leaves: &[Leaf],
    refer: ReferMember,
) -> Result<(), AllocError>
    ensures { OnOk result (code.new ≡ code.old ++ form.refer_amount (taken_of taken) (map leaf_of leaves.now) (Some (refer_member_of refer))) }
{
    amount_loaded(code, taken, refer.amount)?;
    let precision = member_precision(leaves, refer.member);
    precision_checked(code, precision)
}

/// What the REFER member of a variable's next generation is set to, 0 for none.
pub fn refer_amount(
    code: &mut Code,
    taken: Taken,
    variable: &DeclaredVariable,
) -> Result<(), AllocError>
    ensures { OnOk result (code.new ≡ code.old ++ form.refer_amount (taken_of taken) (declared_variable_of variable.now).leaves (declared_variable_of variable.now).refer) }
{
    match variable.refer {
        Some(refer) => member_amount(code, taken, &variable.leaves, refer),
        None => code.small(a1(), 0),
    }
}
