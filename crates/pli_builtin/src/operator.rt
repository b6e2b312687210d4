// The operators of expressions: which operands they take, and what they give.

ghost use Rattle.std.specs.Prelude.{◌≡◌, IfOk, OnOk};
ghost use Rattle.pli_typing.specs.Converting as C;
ghost use Rattle.pli_typing.specs.Operators as O;
ghost use Rattle.pli_typing.specs.TypedTree as Y;
ghost use Rattle.pli_typing.specs.TypedView.{arithmetic_of, bit_of, bit_operator_of, comparison_of, number_of, pointer_of, sign_of};
ghost use Rattle.pli_operand.specs.Notes.{noted};
ghost use Rattle.pli_operand.specs.Shown.{notes_of, operand_of, referent_of};

use crate::comparison::compared;
use crate::node;
use pli_language::expr::{InfixOp, PrefixOp};
use pli_operand::notes::Notes;
use pli_operand::operand::{Operand, Referent};
use pli_operand::value::{number_operand, operand_value, own_bit_operand, text_operand};
use pli_typing::typed::{
    ArithmeticOperator, Bit, BitOperator, Comparison, Number, Pointer, Sign, Value,
};
use std::alloc::{AllocError, Global};

/// Operators and constants have this precision.
pub const OPERATOR_DIGITS: u64 = 31;

/// A number that an operator gives.
pub fn number_answer<'t, 'a>(
    alloc: Global,
    number: Number<'a>,
) -> Result<Referent<'t, 'a>, AllocError>
    ensures { IfOk result (λ r. referent_of r ≡ O.number_answer (number_of number.entry)) }
{
    Ok(Referent::Gives(Value::Number {
        precision: OPERATOR_DIGITS,
        value: Box::new(alloc, number)?,
    }))
}

/// A POINTER that a built-in function gives.
pub fn pointer_answer<'t, 'a>(
    alloc: Global,
    pointer: Pointer<'a>,
) -> Result<Referent<'t, 'a>, AllocError>
    ensures { IfOk result (λ r. referent_of r ≡ C.Gives (Y.PointerValue (pointer_of pointer.entry))) }
{
    Ok(Referent::Gives(Value::Pointer(Box::new(alloc, pointer)?)))
}

fn bit_answer<'t, 'a>(alloc: Global, bit: Bit<'a>) -> Result<Referent<'t, 'a>, AllocError>
    ensures { IfOk result (λ r. referent_of r ≡ O.bit_answer (bit_of bit.entry)) }
{
    Ok(Referent::Gives(Value::Bit(Box::new(alloc, bit)?)))
}

/// A sign before an operand.
#[tactic(auto, using(pli_operand::proofs::Noting::noting))]
fn signed<'t, 'a>(
    alloc: Global,
    notes: &mut Notes,
    sign: Sign,
    operand: Operand<'t, 'a>,
) -> Result<Referent<'t, 'a>, AllocError>
    ensures noted { OnOk result (notes_of notes.new ≡ noted (notes_of notes.old) (C.number_operand (operand_of operand.entry))) }
    ensures value { IfOk result (λ r. referent_of r ≡ O.number_answer (Y.Signed (sign_of sign) (C.number_operand (operand_of operand.entry)).value)) }
{
    let number = number_operand(alloc, notes, operand)?;
    number_answer(alloc, node::signed(alloc, sign, number)?)
}

#[tactic(auto, using(pli_operand::proofs::Noting::noting))]
fn negated<'t, 'a>(
    alloc: Global,
    notes: &mut Notes,
    operand: Operand<'t, 'a>,
) -> Result<Referent<'t, 'a>, AllocError>
    ensures noted { OnOk result (notes_of notes.new ≡ noted (notes_of notes.old) (C.own_bit_operand (operand_of operand.entry))) }
    ensures value { IfOk result (λ r. referent_of r ≡ O.bit_answer (Y.Negated (C.own_bit_operand (operand_of operand.entry)).value)) }
{
    let bit = own_bit_operand(alloc, notes, operand)?;
    bit_answer(alloc, node::negated(alloc, bit)?)
}

/// An operator before an operand.
#[tactic(auto, using(pli_operand::proofs::Noting::noting))]
pub fn prefixed<'t, 'a>(
    alloc: Global,
    notes: &mut Notes,
    op: PrefixOp,
    operand: Operand<'t, 'a>,
) -> Result<Referent<'t, 'a>, AllocError>
    ensures noted { OnOk result (notes_of notes.new ≡ noted (notes_of notes.old) (O.prefixed op (operand_of operand.entry))) }
    ensures value { IfOk result (λ r. referent_of r ≡ (O.prefixed op (operand_of operand.entry)).value) }
{
    match op {
        PrefixOp::Plus => signed(alloc, notes, Sign::Positive, operand),
        PrefixOp::Minus => signed(alloc, notes, Sign::Negative, operand),
        PrefixOp::Not => negated(alloc, notes, operand),
    }
}

#[tactic(auto, using(pli_operand::proofs::Noting::noting))]
fn calculated<'t, 'a>(
    alloc: Global,
    notes: &mut Notes,
    operator: ArithmeticOperator,
    left: Operand<'t, 'a>,
    right: Operand<'t, 'a>,
) -> Result<Referent<'t, 'a>, AllocError>
    ensures noted { OnOk result (notes_of notes.new ≡ noted (notes_of notes.old) (O.calculated (arithmetic_of operator) (operand_of left.entry) (operand_of right.entry))) }
    ensures value { IfOk result (λ r. referent_of r ≡ (O.calculated (arithmetic_of operator) (operand_of left.entry) (operand_of right.entry)).value) }
{
    let left = number_operand(alloc, notes, left)?;
    let right = number_operand(alloc, notes, right)?;
    Ok(number_answer(alloc, node::calculated(alloc, operator, left, right)?)?)
}

#[tactic(auto, using(pli_operand::proofs::Noting::noting))]
fn joined<'t, 'a>(
    alloc: Global,
    notes: &mut Notes,
    left: Operand<'t, 'a>,
    right: Operand<'t, 'a>,
) -> Result<Referent<'t, 'a>, AllocError>
    ensures noted { OnOk result (notes_of notes.new ≡ noted (notes_of notes.old) (O.joined (operand_of left.entry) (operand_of right.entry))) }
    ensures value { IfOk result (λ r. referent_of r ≡ (O.joined (operand_of left.entry) (operand_of right.entry)).value) }
{
    let left = text_operand(alloc, notes, left)?;
    let right = text_operand(alloc, notes, right)?;
    let text = node::joined(alloc, left, right)?;
    Ok(Referent::Gives(Value::Text(Box::new(alloc, text)?)))
}

#[tactic(auto, using(pli_operand::proofs::Noting::noting))]
fn combined<'t, 'a>(
    alloc: Global,
    notes: &mut Notes,
    operator: BitOperator,
    left: Operand<'t, 'a>,
    right: Operand<'t, 'a>,
) -> Result<Referent<'t, 'a>, AllocError>
    ensures noted { OnOk result (notes_of notes.new ≡ noted (notes_of notes.old) (O.combined (bit_operator_of operator) (operand_of left.entry) (operand_of right.entry))) }
    ensures value { IfOk result (λ r. referent_of r ≡ (O.combined (bit_operator_of operator) (operand_of left.entry) (operand_of right.entry)).value) }
{
    let left = own_bit_operand(alloc, notes, left)?;
    let right = own_bit_operand(alloc, notes, right)?;
    Ok(bit_answer(alloc, node::combined(alloc, operator, left, right)?)?)
}

#[tactic(auto, using(pli_operand::proofs::Noting::noting))]
fn comparison<'t, 'a>(
    alloc: Global,
    notes: &mut Notes,
    comparison: Comparison,
    left: Operand<'t, 'a>,
    right: Operand<'t, 'a>,
) -> Result<Referent<'t, 'a>, AllocError>
    ensures noted { OnOk result (notes_of notes.new ≡ noted (notes_of notes.old) (O.comparison (comparison_of comparison) (operand_of left.entry) (operand_of right.entry))) }
    ensures value { IfOk result (λ r. referent_of r ≡ (O.comparison (comparison_of comparison) (operand_of left.entry) (operand_of right.entry)).value) }
{
    let left_place = left.place;
    let right_place = right.place;
    let left = operand_value(alloc, notes, left)?;
    let right = operand_value(alloc, notes, right)?;
    let bit = compared(
        alloc,
        notes,
        comparison,
        left_place,
        right_place,
        left,
        right,
    )?;
    bit_answer(alloc, bit)
}

/// An operator between two operands.
#[tactic(auto, using(pli_operand::proofs::Noting::noting))]
pub fn infixed<'t, 'a>(
    alloc: Global,
    notes: &mut Notes,
    op: InfixOp,
    left: Operand<'t, 'a>,
    right: Operand<'t, 'a>,
) -> Result<Referent<'t, 'a>, AllocError>
    ensures noted { OnOk result (notes_of notes.new ≡ noted (notes_of notes.old) (O.infixed op (operand_of left.entry) (operand_of right.entry))) }
    ensures value { IfOk result (λ r. referent_of r ≡ (O.infixed op (operand_of left.entry) (operand_of right.entry)).value) }
{
    match op {
        InfixOp::Add => calculated(alloc, notes, ArithmeticOperator::Sum, left, right),
        InfixOp::Subtract => calculated(alloc, notes, ArithmeticOperator::Difference, left, right),
        InfixOp::Multiply => calculated(alloc, notes, ArithmeticOperator::Product, left, right),
        InfixOp::Divide => calculated(alloc, notes, ArithmeticOperator::Quotient, left, right),
        InfixOp::Join => joined(alloc, notes, left, right),
        InfixOp::Equal => comparison(alloc, notes, Comparison::IsEqual, left, right),
        InfixOp::NotEqual => comparison(alloc, notes, Comparison::IsNotEqual, left, right),
        InfixOp::Less => comparison(alloc, notes, Comparison::IsLess, left, right),
        InfixOp::Greater => comparison(alloc, notes, Comparison::IsGreater, left, right),
        InfixOp::LessOrEqual => comparison(alloc, notes, Comparison::IsLessOrEqual, left, right),
        InfixOp::GreaterOrEqual => {
            comparison(alloc, notes, Comparison::IsGreaterOrEqual, left, right)
        }
        InfixOp::And => combined(alloc, notes, BitOperator::Conjunction, left, right),
        InfixOp::Or => combined(alloc, notes, BitOperator::Disjunction, left, right),
    }
}
