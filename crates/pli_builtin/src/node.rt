// Nodes of the typed tree over what stands below them.

ghost use Rattle.std.specs.Prelude.{◌≡◌, IfOk};
ghost use Rattle.pli_typing.specs.TypedTree as Y;
ghost use Rattle.pli_typing.specs.TypedView.{arithmetic_of, bit_of, bit_operator_of, comparison_of, extremum_of, number_of, numbers_of, offset_of, pointer_of, reference_of, sign_of, text_of, variable_of};

use pli_typing::typed::{
    ArithmeticOperator, Bit, BitOperator, Comparison, Extremum, Number, Numbers, Offset, Pointer,
    Reference, Sign, Text, Variable,
};
use std::alloc::{AllocError, Global};

/// A number behind a sign.
#[tactic(auto, unfolding(pli_typing::specs::TypedView::number_of))]
pub fn signed<'a>(alloc: Global, sign: Sign, operand: Number<'a>) -> Result<Number<'a>, AllocError>
    ensures { IfOk result (λ n. number_of n ≡ Y.Signed (sign_of sign) (number_of operand.entry)) }
{
    Ok(Number::Signed {
        sign,
        operand: Box::new(alloc, operand)?,
    })
}

/// Two numbers with an operator between them.
#[tactic(auto, unfolding(pli_typing::specs::TypedView::number_of))]
pub fn calculated<'a>(
    alloc: Global,
    operator: ArithmeticOperator,
    left: Number<'a>,
    right: Number<'a>,
) -> Result<Number<'a>, AllocError>
    ensures { IfOk result (λ n. number_of n ≡ Y.Calculated (arithmetic_of operator) (number_of left.entry) (number_of right.entry)) }
{
    Ok(Number::Calculated {
        operator,
        left: Box::new(alloc, left)?,
        right: Box::new(alloc, right)?,
    })
}

/// Two texts in a row.
#[tactic(auto, unfolding(pli_typing::specs::TypedView::text_of))]
pub fn joined<'a>(alloc: Global, left: Text<'a>, right: Text<'a>) -> Result<Text<'a>, AllocError>
    ensures { IfOk result (λ t. text_of t ≡ Y.Joined (text_of left.entry) (text_of right.entry)) }
{
    Ok(Text::Joined {
        left: Box::new(alloc, left)?,
        right: Box::new(alloc, right)?,
    })
}

/// The other bit.
#[tactic(auto, unfolding(pli_typing::specs::TypedView::bit_of))]
pub fn negated<'a>(alloc: Global, operand: Bit<'a>) -> Result<Bit<'a>, AllocError>
    ensures { IfOk result (λ b. bit_of b ≡ Y.Negated (bit_of operand.entry)) }
{
    Ok(Bit::Negated(Box::new(alloc, operand)?))
}

/// Two bits with an operator between them.
#[tactic(auto, unfolding(pli_typing::specs::TypedView::bit_of))]
pub fn combined<'a>(
    alloc: Global,
    operator: BitOperator,
    left: Bit<'a>,
    right: Bit<'a>,
) -> Result<Bit<'a>, AllocError>
    ensures { IfOk result (λ b. bit_of b ≡ Y.Combined (bit_operator_of operator) (bit_of left.entry) (bit_of right.entry)) }
{
    Ok(Bit::Combined {
        operator,
        left: Box::new(alloc, left)?,
        right: Box::new(alloc, right)?,
    })
}

/// Two numbers that are compared.
#[tactic(auto, unfolding(pli_typing::specs::TypedView::bit_of))]
pub fn numbers_compared<'a>(
    alloc: Global,
    comparison: Comparison,
    left: Number<'a>,
    right: Number<'a>,
) -> Result<Bit<'a>, AllocError>
    ensures { IfOk result (λ b. bit_of b ≡ Y.NumbersCompared (comparison_of comparison) (number_of left.entry) (number_of right.entry)) }
{
    Ok(Bit::NumbersCompared {
        comparison,
        left: Box::new(alloc, left)?,
        right: Box::new(alloc, right)?,
    })
}

/// Two texts that are compared.
#[tactic(auto, unfolding(pli_typing::specs::TypedView::bit_of))]
pub fn texts_compared<'a>(
    alloc: Global,
    comparison: Comparison,
    left: Text<'a>,
    right: Text<'a>,
) -> Result<Bit<'a>, AllocError>
    ensures { IfOk result (λ b. bit_of b ≡ Y.TextsCompared (comparison_of comparison) (text_of left.entry) (text_of right.entry)) }
{
    Ok(Bit::TextsCompared {
        comparison,
        left: Box::new(alloc, left)?,
        right: Box::new(alloc, right)?,
    })
}

/// Two bits that are compared.
#[tactic(auto, unfolding(pli_typing::specs::TypedView::bit_of))]
pub fn bits_compared<'a>(
    alloc: Global,
    comparison: Comparison,
    left: Bit<'a>,
    right: Bit<'a>,
) -> Result<Bit<'a>, AllocError>
    ensures { IfOk result (λ b. bit_of b ≡ Y.BitsCompared (comparison_of comparison) (bit_of left.entry) (bit_of right.entry)) }
{
    Ok(Bit::BitsCompared {
        comparison,
        left: Box::new(alloc, left)?,
        right: Box::new(alloc, right)?,
    })
}

/// Two POINTERs, for being equal or for not being so.
#[tactic(auto, unfolding(pli_typing::specs::TypedView::bit_of))]
pub fn pointers_compared<'a>(
    alloc: Global,
    equal: bool,
    left: Pointer<'a>,
    right: Pointer<'a>,
) -> Result<Bit<'a>, AllocError>
    ensures { IfOk result (λ b. bit_of b ≡ Y.PointersCompared equal (pointer_of left.entry) (pointer_of right.entry)) }
{
    Ok(Bit::PointersCompared {
        equal,
        left: Box::new(alloc, left)?,
        right: Box::new(alloc, right)?,
    })
}

/// Two OFFSETs, for being equal or for not being so.
#[tactic(auto, unfolding(pli_typing::specs::TypedView::bit_of))]
pub fn offsets_compared<'a>(
    alloc: Global,
    equal: bool,
    left: Offset<'a>,
    right: Offset<'a>,
) -> Result<Bit<'a>, AllocError>
    ensures { IfOk result (λ b. bit_of b ≡ Y.OffsetsCompared equal (offset_of left.entry) (offset_of right.entry)) }
{
    Ok(Bit::OffsetsCompared {
        equal,
        left: Box::new(alloc, left)?,
        right: Box::new(alloc, right)?,
    })
}

/// ABS of a number.
#[tactic(auto, unfolding(pli_typing::specs::TypedView::number_of))]
pub fn absolute<'a>(alloc: Global, operand: Number<'a>) -> Result<Number<'a>, AllocError>
    ensures { IfOk result (λ r. number_of r ≡ Y.Absolute (number_of operand.entry)) }
{
    Ok(Number::Absolute(Box::new(alloc, operand)?))
}

/// SIGN of a number.
#[tactic(auto, unfolding(pli_typing::specs::TypedView::number_of))]
pub fn sign_of<'a>(alloc: Global, operand: Number<'a>) -> Result<Number<'a>, AllocError>
    ensures { IfOk result (λ r. number_of r ≡ Y.SignOf (number_of operand.entry)) }
{
    Ok(Number::SignOf(Box::new(alloc, operand)?))
}

/// MAX or MIN of a number and others.
#[tactic(auto, unfolding(pli_typing::specs::TypedView::number_of))]
pub fn extreme<'a>(
    alloc: Global,
    which: Extremum,
    first: Number<'a>,
    more: Numbers<'a>,
) -> Result<Number<'a>, AllocError>
    ensures { IfOk result (λ r. number_of r ≡ Y.Extreme (extremum_of which) (number_of first.entry) (numbers_of more.entry)) }
{
    Ok(Number::Extreme {
        which,
        first: Box::new(alloc, first)?,
        more,
    })
}

/// MOD of two numbers.
#[tactic(auto, unfolding(pli_typing::specs::TypedView::number_of))]
pub fn modulo<'a>(
    alloc: Global,
    dividend: Number<'a>,
    divisor: Number<'a>,
) -> Result<Number<'a>, AllocError>
    ensures { IfOk result (λ r. number_of r ≡ Y.Modulo (number_of dividend.entry) (number_of divisor.entry)) }
{
    Ok(Number::Modulo {
        dividend: Box::new(alloc, dividend)?,
        divisor: Box::new(alloc, divisor)?,
    })
}

/// DIVIDE of two numbers, with a precision.
#[tactic(auto, unfolding(pli_typing::specs::TypedView::number_of))]
pub fn divided<'a>(
    alloc: Global,
    precision: u64,
    dividend: Number<'a>,
    divisor: Number<'a>,
) -> Result<Number<'a>, AllocError>
    ensures { IfOk result (λ r. number_of r ≡ Y.Divided precision (number_of dividend.entry) (number_of divisor.entry)) }
{
    Ok(Number::Divided {
        precision,
        dividend: Box::new(alloc, dividend)?,
        divisor: Box::new(alloc, divisor)?,
    })
}

/// LENGTH of a text.
#[tactic(auto, unfolding(pli_typing::specs::TypedView::number_of))]
pub fn length_of<'a>(alloc: Global, text: Text<'a>) -> Result<Number<'a>, AllocError>
    ensures { IfOk result (λ r. number_of r ≡ Y.LengthOf (text_of text.entry)) }
{
    Ok(Number::LengthOf(Box::new(alloc, text)?))
}

/// INDEX of a text in another.
#[tactic(auto, unfolding(pli_typing::specs::TypedView::number_of))]
pub fn index_of<'a>(
    alloc: Global,
    searched: Text<'a>,
    sought: Text<'a>,
) -> Result<Number<'a>, AllocError>
    ensures { IfOk result (λ r. number_of r ≡ Y.IndexOf (text_of searched.entry) (text_of sought.entry)) }
{
    Ok(Number::IndexOf {
        searched: Box::new(alloc, searched)?,
        sought: Box::new(alloc, sought)?,
    })
}

/// VERIFY of a text by another.
#[tactic(auto, unfolding(pli_typing::specs::TypedView::number_of))]
pub fn verify_of<'a>(
    alloc: Global,
    searched: Text<'a>,
    allowed: Text<'a>,
) -> Result<Number<'a>, AllocError>
    ensures { IfOk result (λ r. number_of r ≡ Y.VerifyOf (text_of searched.entry) (text_of allowed.entry)) }
{
    Ok(Number::VerifyOf {
        searched: Box::new(alloc, searched)?,
        allowed: Box::new(alloc, allowed)?,
    })
}

/// LBOUND of a dimension.
#[tactic(auto, unfolding(pli_typing::specs::TypedView::number_of))]
pub fn lower_bound<'a>(
    alloc: Global,
    array: Reference<'a>,
    dimension: u64,
) -> Result<Number<'a>, AllocError>
    ensures { IfOk result (λ r. number_of r ≡ Y.LowerBound (reference_of array.entry) dimension) }
{
    Ok(Number::LowerBound {
        array: Box::new(alloc, array)?,
        dimension,
    })
}

/// HBOUND of a dimension.
#[tactic(auto, unfolding(pli_typing::specs::TypedView::number_of))]
pub fn upper_bound<'a>(
    alloc: Global,
    array: Reference<'a>,
    dimension: u64,
) -> Result<Number<'a>, AllocError>
    ensures { IfOk result (λ r. number_of r ≡ Y.UpperBound (reference_of array.entry) dimension) }
{
    Ok(Number::UpperBound {
        array: Box::new(alloc, array)?,
        dimension,
    })
}

/// DIM of a dimension.
#[tactic(auto, unfolding(pli_typing::specs::TypedView::number_of))]
pub fn elements_of<'a>(
    alloc: Global,
    array: Reference<'a>,
    dimension: u64,
) -> Result<Number<'a>, AllocError>
    ensures { IfOk result (λ r. number_of r ≡ Y.ElementsOf (reference_of array.entry) dimension) }
{
    Ok(Number::ElementsOf {
        array: Box::new(alloc, array)?,
        dimension,
    })
}

/// A number before others.
#[tactic(auto, unfolding(pli_typing::specs::TypedView::numbers_of))]
pub fn number_then<'a>(
    alloc: Global,
    first: Number<'a>,
    rest: Numbers<'a>,
) -> Result<Numbers<'a>, AllocError>
    ensures { IfOk result (λ r. numbers_of r ≡ Y.NumberThen (number_of first.entry) (numbers_of rest.entry)) }
{
    Ok(Numbers::More {
        first: Box::new(alloc, first)?,
        rest: Box::new(alloc, rest)?,
    })
}

/// No number.
#[tactic(auto, unfolding(pli_typing::specs::TypedView::numbers_of))]
pub fn no_number<'a>() -> Numbers<'a>
    ensures { numbers_of result ≡ Y.NoNumber }
{
    Numbers::End
}

/// SUBSTR of a text from a place on.
#[tactic(auto, unfolding(pli_typing::specs::TypedView::text_of))]
pub fn substring_from<'a>(
    alloc: Global,
    text: Text<'a>,
    start: Number<'a>,
) -> Result<Text<'a>, AllocError>
    ensures { IfOk result (λ r. text_of r ≡ Y.SubstringFrom (text_of text.entry) (number_of start.entry)) }
{
    Ok(Text::SubstringFrom {
        text: Box::new(alloc, text)?,
        start: Box::new(alloc, start)?,
    })
}

/// SUBSTR of so many places of a text.
#[tactic(auto, unfolding(pli_typing::specs::TypedView::text_of))]
pub fn substring<'a>(
    alloc: Global,
    text: Text<'a>,
    start: Number<'a>,
    count: Number<'a>,
) -> Result<Text<'a>, AllocError>
    ensures { IfOk result (λ r. text_of r ≡ Y.Substring (text_of text.entry) (number_of start.entry) (number_of count.entry)) }
{
    Ok(Text::Substring {
        text: Box::new(alloc, text)?,
        start: Box::new(alloc, start)?,
        count: Box::new(alloc, count)?,
    })
}

/// ADDR of a generation.
#[tactic(auto, unfolding(pli_typing::specs::TypedView::pointer_of))]
pub fn address_of<'a>(alloc: Global, reference: Reference<'a>) -> Result<Pointer<'a>, AllocError>
    ensures { IfOk result (λ r. pointer_of r ≡ Y.AddressOf (reference_of reference.entry)) }
{
    Ok(Pointer::AddressOf(Box::new(alloc, reference)?))
}

/// POINTER of an OFFSET into an area.
#[tactic(auto, unfolding(pli_typing::specs::TypedView::pointer_of))]
pub fn pointer_into<'a>(
    alloc: Global,
    offset: Offset<'a>,
    area: Variable,
) -> Result<Pointer<'a>, AllocError>
    ensures { IfOk result (λ r. pointer_of r ≡ Y.PointerInto (offset_of offset.entry) (variable_of area)) }
{
    Ok(Pointer::Into {
        offset: Box::new(alloc, offset)?,
        area,
    })
}

/// OFFSET of a POINTER into an area.
#[tactic(auto, unfolding(pli_typing::specs::TypedView::offset_of))]
pub fn offset_into<'a>(
    alloc: Global,
    pointer: Pointer<'a>,
    area: Variable,
) -> Result<Offset<'a>, AllocError>
    ensures { IfOk result (λ r. offset_of r ≡ Y.OffsetInto (pointer_of pointer.entry) (variable_of area)) }
{
    Ok(Offset::Into {
        pointer: Box::new(alloc, pointer)?,
        area,
    })
}
