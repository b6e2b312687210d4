// The code of bits that are made from others, each form by a function of its own, so that a row of operators takes
// little of the host's stack.

ghost use Rattle.std.specs.Prelude.{◌≡◌, ◌∷◌, [], ◌++◌, OnOk};
ghost use Rattle.pli_typing.specs.TypedView.{bit_of, bit_operator_of, comparison_of, number_of, offset_of, text_of};
ghost use Rattle.pli_coding.specs.Arithmetic.{combined_code, compared_code, negated_code};
ghost use Rattle.pli_coding.specs.Environments.{fetch, save, with_number};
ghost use Rattle.pli_coding.specs.Registers.{a0, u1};
ghost use Rattle.pli_coding.specs.Expressions as form;
ghost use Rattle.pli_frames.specs.TakenView.{taken_of};
ghost use Rattle.rv_address.specs.Around.{environment_of};
ghost use Rattle.rv_operation.specs.Pieces.{offsets_compared, text_to_bit, texts_compared};
ghost use Rattle.rv_expr.specs.Forms.{both_bits, both_numbers};

use crate::expression::{bit_code, text_code};
use crate::locator::offset_code;
use crate::number::both_numbers;
use pli_frames::taken::Taken;
use pli_typing::typed::{Bit, BitOperator, Comparison, Number, Offset, Text};
use rv_address::environment::Environment;
use rv_address::taken::{fetch, save};
use rv_assembly::code::Code;
use rv_assembly::registers::{a0, u1};
use rv_operation::arithmetic::{combined_code, compared_code, negated_code};
use rv_operation::pointer::offsets_compared;
use rv_operation::text::{text_to_bit, texts_compared};
use std::alloc::{AllocError, Global};

/// A text as a bit.
#[cycle(walk)]
#[inline(never)]
#[tactic(auto, using(crate::proofs::Walks::parts))]
pub(crate) fn text_bit(
    alloc: Global,
    code: &mut Code,
    environment: &Environment,
    taken: Taken,
    text: &Text,
) -> Result<(), AllocError>
    ensures { OnOk result (code.new ≡ code.old ++
        (form.text_code (environment_of environment.now) (taken_of taken) (text_of text.now)
        ++ text_to_bit)) }
{
    text_code(alloc, code, environment, taken, text)?;
    text_to_bit(code)
}

/// The other bit.
#[cycle(walk)]
#[inline(never)]
#[tactic(auto, using(crate::proofs::Walks::parts))]
pub(crate) fn negated_bit(
    alloc: Global,
    code: &mut Code,
    environment: &Environment,
    taken: Taken,
    operand: &Bit,
) -> Result<(), AllocError>
    ensures { OnOk result (code.new ≡ code.old ++
        (form.bit_code (environment_of environment.now) (taken_of taken) (bit_of operand.now)
        ++ negated_code ∷ [])) }
{
    bit_code(alloc, code, environment, taken, operand)?;
    negated_code(code)
}

/// Two bits and what is between them.
#[cycle(walk)]
#[inline(never)]
#[tactic(auto, using(crate::proofs::Walks::parts))]
pub(crate) fn combined_bit(
    alloc: Global,
    code: &mut Code,
    environment: &Environment,
    taken: Taken,
    operator: BitOperator,
    left: &Bit,
    right: &Bit,
) -> Result<(), AllocError>
    ensures { OnOk result (code.new ≡ code.old ++
        (both_bits (environment_of environment.now) (taken_of taken) (bit_of left.now) (bit_of right.now)
        ++ combined_code (bit_operator_of operator) ∷ [])) }
{
    both_bits(alloc, code, environment, taken, left, right)?;
    combined_code(code, operator)
}

/// A comparison of two numbers.
#[cycle(walk)]
#[inline(never)]
#[tactic(auto, using(crate::proofs::Walks::parts))]
pub(crate) fn numbers_compared(
    alloc: Global,
    code: &mut Code,
    environment: &Environment,
    taken: Taken,
    comparison: Comparison,
    left: &Number,
    right: &Number,
) -> Result<(), AllocError>
    ensures { OnOk result (code.new ≡ code.old ++
        (both_numbers (environment_of environment.now) (taken_of taken) (number_of left.now) (number_of right.now)
        ++ compared_code (comparison_of comparison))) }
{
    both_numbers(alloc, code, environment, taken, left, right)?;
    compared_code(code, comparison)
}

/// A comparison of two texts.
#[cycle(walk)]
#[inline(never)]
#[tactic(auto, using(crate::proofs::Walks::parts))]
pub(crate) fn both_texts_compared(
    alloc: Global,
    code: &mut Code,
    environment: &Environment,
    taken: Taken,
    comparison: Comparison,
    left: &Text,
    right: &Text,
) -> Result<(), AllocError>
    ensures { OnOk result (code.new ≡ code.old ++
        (form.text_code (environment_of environment.now) (taken_of taken) (text_of left.now)
        ++ (form.text_code (environment_of environment.now) (taken_of taken)
        (text_of right.now) ++ texts_compared (comparison_of comparison)))) }
{
    text_code(alloc, code, environment, taken, left)?;
    text_code(alloc, code, environment, taken, right)?;
    texts_compared(code, comparison)
}

/// A comparison of two bits.
#[cycle(walk)]
#[inline(never)]
#[tactic(auto, using(crate::proofs::Walks::parts))]
pub(crate) fn bits_compared(
    alloc: Global,
    code: &mut Code,
    environment: &Environment,
    taken: Taken,
    comparison: Comparison,
    left: &Bit,
    right: &Bit,
) -> Result<(), AllocError>
    ensures { OnOk result (code.new ≡ code.old ++
        (both_bits (environment_of environment.now) (taken_of taken) (bit_of left.now) (bit_of right.now)
        ++ compared_code (comparison_of comparison))) }
{
    both_bits(alloc, code, environment, taken, left, right)?;
    compared_code(code, comparison)
}

/// Whether two OFFSET values are equal, or whether they aren't.
#[cycle(walk)]
#[inline(never)]
#[tactic(auto, using(crate::proofs::Walks::parts))]
pub(crate) fn both_offsets_compared(
    alloc: Global,
    code: &mut Code,
    environment: &Environment,
    taken: Taken,
    equal: bool,
    left: &Offset,
    right: &Offset,
) -> Result<(), AllocError>
    ensures { OnOk result (code.new ≡ code.old ++
        (form.offset_code (environment_of environment.now) (taken_of taken) (offset_of left.now)
        ++ (save a0 (taken_of taken) ++ (form.offset_code (environment_of environment.now) (with_number
        (taken_of taken)) (offset_of right.now) ++ offsets_compared (taken_of taken) equal)))) }
{
    offset_code(alloc, code, environment, taken, left)?;
    save(code, a0(), taken)?;
    offset_code(alloc, code, environment, taken.with_number()?, right)?;
    offsets_compared(code, taken, equal)
}

/// The left operand in u1 and the right one in a0.
#[cycle(walk)]
#[tactic(auto, using(crate::proofs::Walks::operands))]
fn both_bits(
    alloc: Global,
    code: &mut Code,
    environment: &Environment,
    taken: Taken,
    left: &Bit,
    right: &Bit,
) -> Result<(), AllocError>
    ensures { OnOk result (code.new ≡ code.old ++
        both_bits (environment_of environment.now) (taken_of taken) (bit_of left.now) (bit_of right.now)) }
{
    bit_code(alloc, code, environment, taken, left)?;
    right_bit(alloc, code, environment, taken, right)
}

/// The bit in a0 in u1, and the right operand in a0.
#[cycle(walk)]
#[inline(never)]
#[tactic(auto, using(crate::proofs::Walks::parts))]
fn right_bit(
    alloc: Global,
    code: &mut Code,
    environment: &Environment,
    taken: Taken,
    right: &Bit,
) -> Result<(), AllocError>
    ensures { OnOk result (code.new ≡ code.old ++ (save a0 (taken_of taken)
        ++ (form.bit_code (environment_of environment.now) (with_number (taken_of taken)) (bit_of right.now)
        ++ fetch u1 (taken_of taken)))) }
{
    save(code, a0(), taken)?;
    bit_code(alloc, code, environment, taken.with_number()?, right)?;
    fetch(code, u1(), taken)
}
