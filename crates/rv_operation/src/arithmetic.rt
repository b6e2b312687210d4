// Operators on numbers and bits: a right operand in a0 and a left one in u1 come to a result in a0.

ghost use Rattle.std.specs.Prelude.{◌≡◌, ◌-◌, ◌<◌, [], ◌∷◌, ◌++◌, true, OnOk};
ghost use Rattle.pli_typing.specs.TypedView.{arithmetic_of, bit_operator_of, comparison_of, extremum_of, sign_of};
ghost use Rattle.pli_coding.specs.Instructions.{skip_where};
ghost use Rattle.pli_coding.specs.Arithmetic as form;
ghost use Rattle.pli_frames.specs.TakenView.{taken_of};
ghost use Rattle.rv_operation.specs.Pieces.{constant_checked, constant_summed, divided_checked, divided_fitted, extreme_kept, narrow_checked, remainder_mended, right_sign};

use pli_frames::taken::Taken;
use pli_language::condition::Condition;
use pli_typing::typed::{ArithmeticOperator, BitOperator, Comparison, Extremum, Sign};
use rv_address::number::plus;
use rv_address::taken::{fetch, save};
use rv_assembly::code::Code;
use rv_assembly::item::{Item, Symbol};
use rv_assembly::registers::{a0, a1, u1, u2, u3, u4, zero};
use rv_meaning::instr::{BranchTest, ImmediateOp, Register, RegisterOp, ShiftOp};
use std::alloc::AllocError;

// ---- raises

fn condition_number(condition: Condition) -> u32
    ensures value { result ≡ form.condition_number condition }
    ensures small { result < 2048 }
{
    match condition {
        Condition::Area => 1,
        Condition::FixedOverflow => 2,
        Condition::ZeroDivide => 3,
        Condition::Endfile => 4,
        Condition::Error => 5,
    }
}

/// A condition other than ERROR; the program goes on behind this where its unit returns.
pub fn raised(code: &mut Code, condition: Condition, number: u32) -> Result<(), AllocError>
    requires { number < 2048 }
    ensures { OnOk result (code.new ≡ code.old ++ form.raised condition number) }
{
    code.small(a0(), condition_number(condition))?;
    code.small(a1(), number)?;
    code.push(Item::CallTo(Symbol::RaiseCondition))
}

/// FIXEDOVERFLOW, with the value in a0 with which the program goes on.
fn overflow_raised(code: &mut Code, taken: Taken) -> Result<(), AllocError>
    ensures { OnOk result (code.new ≡ code.old ++ form.overflow_raised (taken_of taken)) }
{
    save(code, a0(), taken)?;
    raised(code, Condition::FixedOverflow, 20)?;
    fetch(code, a0(), taken)
}

/// FIXEDOVERFLOW unless the test holds.
#[tactic(auto, using(rv_assembly::proofs::Patching::patching, crate::proofs::Sizes::short))]
fn overflow_unless(
    code: &mut Code,
    test: BranchTest,
    left: Register,
    right: Register,
    taken: Taken,
) -> Result<(), AllocError>
    ensures { OnOk result (code.new ≡ code.old ++ skip_where test left right (form.overflow_raised (taken_of taken))) }
{
    let place = code.keep_branch()?;
    overflow_raised(code, taken)?;
    code.skip_where(place, test, left, right);
    Ok(())
}

fn zero_divide_raised(code: &mut Code) -> Result<(), AllocError>
    ensures { OnOk result (code.new ≡ code.old ++ form.zero_divide_raised) }
{
    raised(code, Condition::ZeroDivide, 30)?;
    code.small(a0(), 0)
}

// ---- overflow

/// Whether a0 is below 0, in u4.
fn right_sign(code: &mut Code) -> Result<(), AllocError>
    ensures { OnOk result (code.new ≡ code.old ++ right_sign ∷ []) }
{
    code.immediate(ImmediateOp::SetLess, u4(), a0(), 0)
}

fn sum_code(code: &mut Code, taken: Taken) -> Result<(), AllocError>
    ensures { OnOk result (code.new ≡ code.old ++ form.sum_code (taken_of taken)) }
{
    code.add(u2(), u1(), a0())?;
    code.registers(RegisterOp::SetLess, u3(), u2(), u1())?;
    right_sign(code)?;
    code.copy(a0(), u2())?;
    overflow_unless(code, BranchTest::Equal, u3(), u4(), taken)
}

/// How a sum with a constant stands to its left operand unless it overflows.
fn order_of_sum(constant: i128) -> BranchTest
    ensures { result ≡ form.order_of_sum constant }
{
    if constant < 0 {
        BranchTest::Less
    } else {
        BranchTest::GreaterOrEqual
    }
}

/// The value in a0 in u1, and its sum with a constant in a0.
#[tactic(auto, unfolding(crate::specs::Pieces::constant_summed))]
fn constant_summed(code: &mut Code, constant: i128) -> Result<(), AllocError>
    ensures { OnOk result (code.new ≡ code.old ++ constant_summed constant) }
{
    code.copy(u1(), a0())?;
    plus(code, a0(), u1(), constant)
}

/// FIXEDOVERFLOW unless such a sum stands to its left operand as it must.
#[tactic(auto, unfolding(crate::specs::Pieces::constant_checked))]
fn constant_checked(code: &mut Code, taken: Taken, constant: i128) -> Result<(), AllocError>
    ensures { OnOk result (code.new ≡ code.old ++ constant_checked (taken_of taken) constant) }
{
    overflow_unless(code, order_of_sum(constant), a0(), u1(), taken)
}

/// A constant added to the value in a0.
pub fn constant_added(code: &mut Code, taken: Taken, constant: i128) -> Result<(), AllocError>
    ensures { OnOk result (code.new ≡ code.old ++ form.constant_added (taken_of taken) constant) }
{
    constant_summed(code, constant)?;
    Ok(constant_checked(code, taken, constant)?)
}

fn difference_code(code: &mut Code, taken: Taken) -> Result<(), AllocError>
    ensures { OnOk result (code.new ≡ code.old ++ form.difference_code (taken_of taken)) }
{
    code.subtract(u2(), u1(), a0())?;
    code.registers(RegisterOp::SetLess, u3(), u1(), u2())?;
    right_sign(code)?;
    code.copy(a0(), u2())?;
    overflow_unless(code, BranchTest::Equal, u3(), u4(), taken)
}

fn product_code(code: &mut Code, taken: Taken) -> Result<(), AllocError>
    ensures { OnOk result (code.new ≡ code.old ++ form.product_code (taken_of taken)) }
{
    code.registers(RegisterOp::Multiply, u2(), u1(), a0())?;
    code.registers(RegisterOp::MultiplyHigh, u3(), u1(), a0())?;
    code.shift(ShiftOp::RightArithmetic, u4(), u2(), 31)?;
    code.copy(a0(), u2())?;
    overflow_unless(code, BranchTest::Equal, u3(), u4(), taken)
}

/// The one quotient that is too large: divisor -1 and quotient -2^31.
fn quotient_checked(code: &mut Code, taken: Taken) -> Result<(), AllocError>
    ensures { OnOk result (code.new ≡ code.old ++ form.quotient_checked (taken_of taken)) }
{
    code.immediate(ImmediateOp::Add, u3(), a0(), 1)?;
    code.lowest_number(u4())?;
    code.registers(RegisterOp::Xor, u4(), u4(), u2())?;
    code.registers(RegisterOp::Or, u3(), u3(), u4())?;
    code.copy(a0(), u2())?;
    overflow_unless(code, BranchTest::NotEqual, u3(), zero(), taken)
}

/// A quotient that is checked for the one overflow.
fn divided_checked(code: &mut Code, taken: Taken) -> Result<(), AllocError>
    ensures { OnOk result (code.new ≡ code.old ++ divided_checked (taken_of taken)) }
{
    code.registers(RegisterOp::Divide, u2(), u1(), a0())?;
    quotient_checked(code, taken)
}

#[tactic(auto, using(rv_assembly::proofs::Patching::patching))]
fn quotient_code(code: &mut Code, taken: Taken) -> Result<(), AllocError>
    ensures { OnOk result (code.new ≡ code.old ++ form.quotient_code (taken_of taken)) }
{
    let branch = code.keep_branch()?;
    zero_divide_raised(code)?;
    let jump = code.keep_jump()?;
    divided_checked(code, taken)?;
    code.choose(branch, jump, BranchTest::NotEqual, a0(), zero());
    Ok(())
}

/// An operator between two numbers.
pub fn calculated_code(
    code: &mut Code,
    taken: Taken,
    operator: ArithmeticOperator,
) -> Result<(), AllocError>
    ensures { OnOk result (code.new ≡ code.old ++ form.calculated_code (taken_of taken) (arithmetic_of operator)) }
{
    match operator {
        ArithmeticOperator::Sum => sum_code(code, taken),
        ArithmeticOperator::Difference => difference_code(code, taken),
        ArithmeticOperator::Product => product_code(code, taken),
        ArithmeticOperator::Quotient => quotient_code(code, taken),
    }
}

// ---- precisions

/// FIXEDOVERFLOW unless a number is u1, with u1 as what the program goes on with.
#[tactic(auto, using(rv_assembly::proofs::Patching::patching, crate::proofs::Sizes::short_behind_move))]
fn narrow_checked(code: &mut Code, taken: Taken) -> Result<(), AllocError>
    ensures { OnOk result (code.new ≡ code.old ++ narrow_checked (taken_of taken)) }
{
    let place = code.keep_branch()?;
    code.copy(a0(), u1())?;
    overflow_raised(code, taken)?;
    code.skip_where(place, BranchTest::Equal, u1(), a0());
    Ok(())
}

/// A number where fewer than 31 bits are due: its lowest bits, with their sign, must be the number.
fn narrowed_code(code: &mut Code, taken: Taken, precision: u8) -> Result<(), AllocError>
    requires { precision < 31 }
    ensures { OnOk result (code.new ≡ code.old ++ form.narrowed_code (taken_of taken) precision) }
{
    let amount = 31 - precision;
    code.shift(ShiftOp::Left, u1(), a0(), amount)?;
    code.shift(ShiftOp::RightArithmetic, u1(), u1(), amount)?;
    narrow_checked(code, taken)
}

/// The value in a0 as a number of a precision.
pub fn fitted_code(code: &mut Code, taken: Taken, precision: u64) -> Result<(), AllocError>
    ensures { OnOk result (code.new ≡ code.old ++ form.fitted_code (taken_of taken) precision) }
{
    if precision < 31 {
        narrowed_code(code, taken, precision as u8)
    } else {
        Ok(())
    }
}

/// A quotient of a precision; one that is cut to fewer bits needs no other check.
fn divided_fitted(code: &mut Code, taken: Taken, precision: u64) -> Result<(), AllocError>
    ensures { OnOk result (code.new ≡ code.old ++ divided_fitted (taken_of taken) precision) }
{
    if precision < 31 {
        code.registers(RegisterOp::Divide, a0(), u1(), a0())?;
        narrowed_code(code, taken, precision as u8)
    } else {
        divided_checked(code, taken)
    }
}

/// DIVIDE.
#[tactic(auto, using(rv_assembly::proofs::Patching::patching))]
pub fn divided_code(code: &mut Code, taken: Taken, precision: u64) -> Result<(), AllocError>
    ensures { OnOk result (code.new ≡ code.old ++ form.divided_code (taken_of taken) precision) }
{
    let branch = code.keep_branch()?;
    zero_divide_raised(code)?;
    let jump = code.keep_jump()?;
    divided_fitted(code, taken, precision)?;
    code.choose(branch, jump, BranchTest::NotEqual, a0(), zero());
    Ok(())
}

// ---- one operand, in a0

/// The least number has no other sign.
fn lowest_checked(code: &mut Code, taken: Taken) -> Result<(), AllocError>
    ensures { OnOk result (code.new ≡ code.old ++ form.lowest_checked (taken_of taken)) }
{
    code.lowest_number(u1())?;
    overflow_unless(code, BranchTest::NotEqual, a0(), u1(), taken)
}

/// A prefix sign.
pub fn signed_code(code: &mut Code, taken: Taken, sign: Sign) -> Result<(), AllocError>
    ensures { OnOk result (code.new ≡ code.old ++ form.signed_code (taken_of taken) (sign_of sign)) }
{
    match sign {
        Sign::Positive => Ok(()),
        Sign::Negative => {
            code.subtract(a0(), zero(), a0())?;
            lowest_checked(code, taken)
        }
    }
}

fn absolute_bits(code: &mut Code) -> Result<(), AllocError>
    ensures { OnOk result (code.new ≡ code.old ++ form.absolute_bits) }
{
    code.shift(ShiftOp::RightArithmetic, u1(), a0(), 31)?;
    code.registers(RegisterOp::Xor, a0(), a0(), u1())?;
    code.subtract(a0(), a0(), u1())
}

/// ABS.
pub fn absolute_code(code: &mut Code, taken: Taken) -> Result<(), AllocError>
    ensures { OnOk result (code.new ≡ code.old ++ form.absolute_code (taken_of taken)) }
{
    absolute_bits(code)?;
    lowest_checked(code, taken)
}

/// SIGN.
pub fn sign_code(code: &mut Code) -> Result<(), AllocError>
    ensures { OnOk result (code.new ≡ code.old ++ form.sign_code) }
{
    code.immediate(ImmediateOp::SetLess, u1(), a0(), 0)?;
    code.registers(RegisterOp::SetLess, u2(), zero(), a0())?;
    code.subtract(a0(), u2(), u1())
}

/// A count of 2^31 or more isn't above 0 as a number.
pub fn count_checked(code: &mut Code, taken: Taken) -> Result<(), AllocError>
    ensures { OnOk result (code.new ≡ code.old ++ form.count_checked (taken_of taken)) }
{
    overflow_unless(code, BranchTest::Less, zero(), a0(), taken)
}

// ---- MOD, MAX, MIN

/// A negative remainder gets the absolute divisor added.
#[tactic(auto, using(rv_assembly::proofs::Patching::patching))]
fn remainder_mended(code: &mut Code) -> Result<(), AllocError>
    ensures { OnOk result (code.new ≡ code.old ++ remainder_mended) }
{
    let place = code.keep_branch()?;
    absolute_bits(code)?;
    code.add(u2(), u2(), a0())?;
    code.skip_where(place, BranchTest::GreaterOrEqual, u2(), zero());
    Ok(())
}

fn remainder_code(code: &mut Code) -> Result<(), AllocError>
    ensures { OnOk result (code.new ≡ code.old ++ form.remainder_code) }
{
    code.registers(RegisterOp::Remainder, u2(), u1(), a0())?;
    remainder_mended(code)?;
    code.copy(a0(), u2())
}

/// MOD.
#[tactic(auto, using(rv_assembly::proofs::Patching::patching))]
pub fn modulo_code(code: &mut Code) -> Result<(), AllocError>
    ensures { OnOk result (code.new ≡ code.old ++ form.modulo_code) }
{
    let branch = code.keep_branch()?;
    zero_divide_raised(code)?;
    let jump = code.keep_jump()?;
    remainder_code(code)?;
    code.choose(branch, jump, BranchTest::NotEqual, a0(), zero());
    Ok(())
}

/// MAX or MIN: the left value stays unless the right one is further.
#[tactic(auto, using(rv_assembly::proofs::Patching::patching))]
fn extreme_code(code: &mut Code, extremum: Extremum) -> Result<(), AllocError>
    ensures { OnOk result (code.new ≡ code.old ++ form.extreme_code (extremum_of extremum)) }
{
    let place = code.keep_branch()?;
    code.copy(a0(), u1())?;
    match extremum {
        Extremum::Greatest => code.skip_where(place, BranchTest::Less, u1(), a0()),
        Extremum::Least => code.skip_where(place, BranchTest::Less, a0(), u1()),
    }
    Ok(())
}

/// MAX or MIN of the value that waits and the one in a0.
#[tactic(auto, unfolding(crate::specs::Pieces::extreme_kept))]
pub fn extreme_kept(code: &mut Code, taken: Taken, extremum: Extremum) -> Result<(), AllocError>
    ensures { OnOk result (code.new ≡ code.old ++ extreme_kept (taken_of taken) (extremum_of extremum)) }
{
    fetch(code, u1(), taken)?;
    extreme_code(code, extremum)
}

// ---- bits and comparisons

/// The bit in a0 becomes the other one.
pub fn negated_code(code: &mut Code) -> Result<(), AllocError>
    ensures { OnOk result (code.new ≡ code.old ++ form.negated_code ∷ []) }
{
    code.immediate(ImmediateOp::Xor, a0(), a0(), 1)
}

/// An operator between two bits.
pub fn combined_code(code: &mut Code, operator: BitOperator) -> Result<(), AllocError>
    ensures { OnOk result (code.new ≡ code.old ++ form.combined_code (bit_operator_of operator) ∷ []) }
{
    match operator {
        BitOperator::Conjunction => code.registers(RegisterOp::And, a0(), u1(), a0()),
        BitOperator::Disjunction => code.registers(RegisterOp::Or, a0(), u1(), a0()),
    }
}

/// Whether two numbers are equal, or whether they aren't.
pub fn equal_code(code: &mut Code, equal: bool) -> Result<(), AllocError>
    ensures { OnOk result (code.new ≡ code.old ++ form.equal_code equal) }
{
    code.registers(RegisterOp::Xor, a0(), u1(), a0())?;
    if equal {
        code.immediate(ImmediateOp::SetLessUnsigned, a0(), a0(), 1)
    } else {
        code.registers(RegisterOp::SetLessUnsigned, a0(), zero(), a0())
    }
}

/// A comparison of two numbers.
pub fn compared_code(code: &mut Code, comparison: Comparison) -> Result<(), AllocError>
    ensures { OnOk result (code.new ≡ code.old ++ form.compared_code (comparison_of comparison)) }
{
    match comparison {
        Comparison::IsEqual => equal_code(code, true),
        Comparison::IsNotEqual => equal_code(code, false),
        Comparison::IsLess => code.registers(RegisterOp::SetLess, a0(), u1(), a0()),
        Comparison::IsGreater => code.registers(RegisterOp::SetLess, a0(), a0(), u1()),
        Comparison::IsLessOrEqual => {
            code.registers(RegisterOp::SetLess, a0(), a0(), u1())?;
            negated_code(code)
        }
        Comparison::IsGreaterOrEqual => {
            code.registers(RegisterOp::SetLess, a0(), u1(), a0())?;
            negated_code(code)
        }
    }
}
