// The code of numbers that are made from others, each form by a function of its own, so that a row of operators takes
// little of the host's stack.

ghost use Rattle.std.specs.Prelude.{◌≡◌, ◌++◌, OnOk};
ghost use Rattle.pli_typing.specs.TypedView.{arithmetic_of, extremum_of, number_of, numbers_of, reference_of};
ghost use Rattle.pli_typing.specs.TypedView.{sign_of, text_of};
ghost use Rattle.pli_coding.specs.Arithmetic.{absolute_code, calculated_code, divided_code, modulo_code, sign_code};
ghost use Rattle.pli_coding.specs.Arithmetic.{signed_code};
ghost use Rattle.pli_coding.specs.Environments.{fetch, save, with_number};
ghost use Rattle.pli_coding.specs.Expressions as form;
ghost use Rattle.pli_coding.specs.Registers.{a0, u1};
ghost use Rattle.pli_frames.specs.TakenView.{taken_of};
ghost use Rattle.rv_address.specs.Around.{environment_of};
ghost use Rattle.rv_operation.specs.Asked.{asked_of};
ghost use Rattle.rv_operation.specs.Pieces.{bound_told, index_found, text_measured, text_to_number, verified};
ghost use Rattle.rv_expr.specs.Forms.{both_numbers, locator_of};

use crate::expression::{locator_code, number_code, text_code};
use pli_frames::taken::Taken;
use pli_typing::typed::{ArithmeticOperator, Extremum, Number, Numbers, Reference, Sign, Text};
use rv_address::environment::Environment;
use rv_address::taken::{fetch, save};
use rv_assembly::code::Code;
use rv_assembly::registers::{a0, u1};
use rv_operation::arithmetic::{
    absolute_code, calculated_code, divided_code, extreme_kept, modulo_code, sign_code, signed_code,
};
use rv_operation::reference::{BoundAsked, bound_told};
use rv_operation::text::{index_found, text_measured, text_to_number, verified};
use std::alloc::{AllocError, Global};

/// A text as a number.
#[cycle(walk)]
#[inline(never)]
#[tactic(auto, using(crate::proofs::Walks::parts))]
pub(crate) fn text_number(
    alloc: Global,
    code: &mut Code,
    environment: &Environment,
    taken: Taken,
    text: &Text,
) -> Result<(), AllocError>
    ensures { OnOk result (code.new ≡ code.old ++
        (form.text_code (environment_of environment.now) (taken_of taken) (text_of text.now)
        ++ text_to_number)) }
{
    text_code(alloc, code, environment, taken, text)?;
    text_to_number(code)
}

/// An operand behind its sign.
#[cycle(walk)]
#[inline(never)]
#[tactic(auto, using(crate::proofs::Walks::parts))]
pub(crate) fn signed_number(
    alloc: Global,
    code: &mut Code,
    environment: &Environment,
    taken: Taken,
    sign: Sign,
    operand: &Number,
) -> Result<(), AllocError>
    ensures { OnOk result (code.new ≡ code.old ++
        (form.number_code (environment_of environment.now) (taken_of taken) (number_of operand.now)
        ++ signed_code (taken_of taken) (sign_of sign))) }
{
    number_code(alloc, code, environment, taken, operand)?;
    signed_code(code, taken, sign)
}

/// Two numbers and what is between them.
#[cycle(walk)]
#[inline(never)]
#[tactic(auto, using(crate::proofs::Walks::parts))]
pub(crate) fn calculated_number(
    alloc: Global,
    code: &mut Code,
    environment: &Environment,
    taken: Taken,
    operator: ArithmeticOperator,
    left: &Number,
    right: &Number,
) -> Result<(), AllocError>
    ensures { OnOk result (code.new ≡ code.old ++
        (both_numbers (environment_of environment.now) (taken_of taken) (number_of left.now) (number_of right.now)
        ++ calculated_code (taken_of taken) (arithmetic_of operator))) }
{
    both_numbers(alloc, code, environment, taken, left, right)?;
    calculated_code(code, taken, operator)
}

/// ABS.
#[cycle(walk)]
#[inline(never)]
#[tactic(auto, using(crate::proofs::Walks::parts))]
pub(crate) fn absolute_number(
    alloc: Global,
    code: &mut Code,
    environment: &Environment,
    taken: Taken,
    operand: &Number,
) -> Result<(), AllocError>
    ensures { OnOk result (code.new ≡ code.old ++
        (form.number_code (environment_of environment.now) (taken_of taken) (number_of operand.now)
        ++ absolute_code (taken_of taken))) }
{
    number_code(alloc, code, environment, taken, operand)?;
    absolute_code(code, taken)
}

/// SIGN.
#[cycle(walk)]
#[inline(never)]
#[tactic(auto, using(crate::proofs::Walks::parts))]
pub(crate) fn sign_number(
    alloc: Global,
    code: &mut Code,
    environment: &Environment,
    taken: Taken,
    operand: &Number,
) -> Result<(), AllocError>
    ensures { OnOk result (code.new ≡ code.old ++
        (form.number_code (environment_of environment.now) (taken_of taken) (number_of operand.now)
        ++ sign_code)) }
{
    number_code(alloc, code, environment, taken, operand)?;
    sign_code(code)
}

/// MAX or MIN.
#[cycle(walk)]
#[inline(never)]
#[tactic(auto, using(crate::proofs::Walks::parts))]
pub(crate) fn extreme_number(
    alloc: Global,
    code: &mut Code,
    environment: &Environment,
    taken: Taken,
    which: Extremum,
    first: &Number,
    more: &Numbers,
) -> Result<(), AllocError>
    ensures { OnOk result (code.new ≡ code.old ++
        (form.number_code (environment_of environment.now) (taken_of taken) (number_of first.now)
        ++ form.extremes_code (environment_of environment.now) (taken_of taken) (extremum_of which)
        (numbers_of more.now))) }
{
    number_code(alloc, code, environment, taken, first)?;
    extremes_code(alloc, code, environment, taken, which, more)
}

/// MOD.
#[cycle(walk)]
#[inline(never)]
#[tactic(auto, using(crate::proofs::Walks::parts))]
pub(crate) fn modulo_number(
    alloc: Global,
    code: &mut Code,
    environment: &Environment,
    taken: Taken,
    dividend: &Number,
    divisor: &Number,
) -> Result<(), AllocError>
    ensures { OnOk result (code.new ≡ code.old ++
        (both_numbers (environment_of environment.now) (taken_of taken) (number_of dividend.now)
        (number_of divisor.now)
        ++ modulo_code)) }
{
    both_numbers(alloc, code, environment, taken, dividend, divisor)?;
    modulo_code(code)
}

/// DIVIDE.
#[cycle(walk)]
#[inline(never)]
#[tactic(auto, using(crate::proofs::Walks::parts))]
pub(crate) fn divided_number(
    alloc: Global,
    code: &mut Code,
    environment: &Environment,
    taken: Taken,
    precision: u64,
    dividend: &Number,
    divisor: &Number,
) -> Result<(), AllocError>
    ensures { OnOk result (code.new ≡ code.old ++
        (both_numbers (environment_of environment.now) (taken_of taken) (number_of dividend.now)
        (number_of divisor.now)
        ++ divided_code (taken_of taken) precision)) }
{
    both_numbers(alloc, code, environment, taken, dividend, divisor)?;
    divided_code(code, taken, precision)
}

/// LENGTH.
#[cycle(walk)]
#[inline(never)]
#[tactic(auto, using(crate::proofs::Walks::parts))]
pub(crate) fn length_number(
    alloc: Global,
    code: &mut Code,
    environment: &Environment,
    taken: Taken,
    text: &Text,
) -> Result<(), AllocError>
    ensures { OnOk result (code.new ≡ code.old ++
        (form.text_code (environment_of environment.now) (taken_of taken) (text_of text.now)
        ++ text_measured)) }
{
    text_code(alloc, code, environment, taken, text)?;
    text_measured(code)
}

/// INDEX.
#[cycle(walk)]
#[inline(never)]
#[tactic(auto, using(crate::proofs::Walks::parts))]
pub(crate) fn index_number(
    alloc: Global,
    code: &mut Code,
    environment: &Environment,
    taken: Taken,
    searched: &Text,
    sought: &Text,
) -> Result<(), AllocError>
    ensures { OnOk result (code.new ≡ code.old ++
        (form.text_code (environment_of environment.now) (taken_of taken) (text_of searched.now)
        ++ (form.text_code (environment_of environment.now) (taken_of taken) (text_of sought.now) ++ index_found))) }
{
    text_code(alloc, code, environment, taken, searched)?;
    text_code(alloc, code, environment, taken, sought)?;
    index_found(code)
}

/// VERIFY.
#[cycle(walk)]
#[inline(never)]
#[tactic(auto, using(crate::proofs::Walks::parts))]
pub(crate) fn verify_number(
    alloc: Global,
    code: &mut Code,
    environment: &Environment,
    taken: Taken,
    searched: &Text,
    allowed: &Text,
) -> Result<(), AllocError>
    ensures { OnOk result (code.new ≡ code.old ++
        (form.text_code (environment_of environment.now) (taken_of taken) (text_of searched.now)
        ++ (form.text_code (environment_of environment.now) (taken_of taken) (text_of allowed.now) ++ verified))) }
{
    text_code(alloc, code, environment, taken, searched)?;
    text_code(alloc, code, environment, taken, allowed)?;
    verified(code)
}

/// LBOUND, HBOUND or DIM.
#[cycle(walk)]
#[inline(never)]
#[tactic(auto, using(crate::proofs::Walks::parts))]
pub(crate) fn bound_number(
    alloc: Global,
    code: &mut Code,
    environment: &Environment,
    taken: Taken,
    array: &Reference,
    asked: BoundAsked,
    dimension: u64,
) -> Result<(), AllocError>
    ensures { OnOk result (code.new ≡ code.old ++
        (locator_of (environment_of environment.now) (taken_of taken) (reference_of array.now)
        ++ bound_told (environment_of environment.now) (taken_of taken) (reference_of array.now)
        (asked_of asked) dimension)) }
{
    locator_code(alloc, code, environment, taken, array)?;
    bound_told(code, environment, taken, array, asked, dimension)
}

/// The left operand in u1 and the right one in a0.
#[cycle(walk)]
#[tactic(auto, using(crate::proofs::Walks::operands))]
pub(crate) fn both_numbers(
    alloc: Global,
    code: &mut Code,
    environment: &Environment,
    taken: Taken,
    left: &Number,
    right: &Number,
) -> Result<(), AllocError>
    ensures { OnOk result (code.new ≡ code.old ++
        both_numbers (environment_of environment.now) (taken_of taken) (number_of left.now) (number_of right.now)) }
{
    number_code(alloc, code, environment, taken, left)?;
    right_number(alloc, code, environment, taken, right)
}

/// The number in a0 in u1, and the right operand in a0.
#[cycle(walk)]
#[inline(never)]
#[tactic(auto, using(crate::proofs::Walks::parts))]
fn right_number(
    alloc: Global,
    code: &mut Code,
    environment: &Environment,
    taken: Taken,
    right: &Number,
) -> Result<(), AllocError>
    ensures { OnOk result (code.new ≡ code.old ++ (save a0 (taken_of taken)
        ++ (form.number_code (environment_of environment.now) (with_number (taken_of taken)) (number_of right.now)
        ++ fetch u1 (taken_of taken)))) }
{
    save(code, a0(), taken)?;
    number_code(alloc, code, environment, taken.with_number()?, right)?;
    fetch(code, u1(), taken)
}

/// A value in a0, and one after the other of these, for MAX or MIN.
#[cycle(walk)]
#[tactic(auto, using(crate::proofs::Walks::extremes))]
fn extremes_code(
    alloc: Global,
    code: &mut Code,
    environment: &Environment,
    taken: Taken,
    which: Extremum,
    more: &Numbers,
) -> Result<(), AllocError>
    ensures { OnOk result (code.new ≡ code.old ++
        form.extremes_code (environment_of environment.now) (taken_of taken) (extremum_of which)
        (numbers_of more.now)) }
{
    match more {
        Numbers::End => Ok(()),
        Numbers::More { first, rest } => {
            save(code, a0(), taken)?;
            number_code(alloc, code, environment, taken.with_number()?, first)?;
            extreme_kept(code, taken, which)?;
            extremes_code(alloc, code, environment, taken, which, rest)
        }
    }
}
