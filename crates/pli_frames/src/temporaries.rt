// What the temporaries of an expression take at most, registers and words of the frame, behind what is taken already.
// What 32 bits don't hold is want of memory.

ghost use Rattle.std.specs.Prelude.{◌≡◌, ◌+◌, OnOk, IfOk};
ghost use Rattle.pli_typing.specs.TypedView.{argument_of, arguments_of, bit_of, number_of, numbers_of, offset_of};
ghost use Rattle.pli_typing.specs.TypedView.{pointer_of, reference_of, stored_of, text_of, variable_of};
ghost use Rattle.pli_coding.specs.Environments.{with_words};
ghost use Rattle.pli_coding.specs.Locating as locating;
ghost use Rattle.pli_coding.specs.Expressions.{list_words};
ghost use Rattle.pli_coding.specs.Temporaries as form;
ghost use Rattle.pli_frames.specs.Beside.{beside};
ghost use Rattle.pli_frames.specs.TakenView.{taken_of};

use crate::taken::{Taken, none_taken};
use pli_typing::typed::{
    Argument, Arguments, Bit, Number, Numbers, Offset, Pointer, Reference, StorageClass, Stored,
    Text, Variable,
};
use std::alloc::AllocError;

/// Behind what a locator takes while subscripts are evaluated.
pub fn behind_locator(variable: Variable, taken: Taken) -> Result<Taken, AllocError>
    ensures { IfOk result (λ t. taken_of t ≡ locating.behind_locator (variable_of variable) (taken_of taken)) }
{
    match variable.class {
        StorageClass::Based => taken.with_words(5),
        StorageClass::Controlled => taken.with_words(5),
        _ => Ok(taken),
    }
}

/// Of a number.
#[tactic(auto, using(crate::proofs::Walks::walks))]
pub fn number_takes(taken: Taken, number: &Number) -> Result<Taken, AllocError>
    ensures { IfOk result (λ t. taken_of t ≡ form.number_takes (taken_of taken) (number_of number.now)) }
{
    let mut most = none_taken();
    most_of_number(&mut most, taken, number)?;
    Ok(most)
}

/// Of a text.
#[tactic(auto, using(crate::proofs::Walks::walks))]
pub fn text_takes(taken: Taken, text: &Text) -> Result<Taken, AllocError>
    ensures { IfOk result (λ t. taken_of t ≡ form.text_takes (taken_of taken) (text_of text.now)) }
{
    let mut most = none_taken();
    most_of_text(&mut most, taken, text)?;
    Ok(most)
}

/// Of a bit.
#[tactic(auto, using(crate::proofs::Walks::walks))]
pub fn bit_takes(taken: Taken, bit: &Bit) -> Result<Taken, AllocError>
    ensures { IfOk result (λ t. taken_of t ≡ form.bit_takes (taken_of taken) (bit_of bit.now)) }
{
    let mut most = none_taken();
    most_of_bit(&mut most, taken, bit)?;
    Ok(most)
}

/// Of a POINTER, with the four words of the name.
#[tactic(auto, using(crate::proofs::Walks::walks))]
pub fn pointer_takes(taken: Taken, pointer: &Pointer) -> Result<Taken, AllocError>
    ensures { IfOk result (λ t. taken_of t ≡ form.pointer_takes (taken_of taken) (pointer_of pointer.now)) }
{
    let mut most = none_taken();
    most_of_pointer(&mut most, taken, pointer)?;
    Ok(most)
}

/// Of a reference.
#[tactic(auto, using(crate::proofs::Walks::walks))]
pub fn reference_takes(taken: Taken, reference: &Reference) -> Result<Taken, AllocError>
    ensures { IfOk result (λ t. taken_of t ≡ form.reference_takes (taken_of taken) (reference_of reference.now)) }
{
    let mut most = none_taken();
    most_of_reference(&mut most, taken, reference)?;
    Ok(most)
}

/// Of a call, behind the list of its arguments.
#[tactic(auto, using(crate::proofs::Walks::walks))]
pub fn call_takes(taken: Taken, arguments: &Arguments) -> Result<Taken, AllocError>
    ensures { IfOk result (λ t. taken_of t ≡ form.arguments_take (with_words (list_words (arguments_of arguments.now)) (taken_of taken))
        (arguments_of arguments.now)) }
{
    let mut most = none_taken();
    most_of_call(&mut most, taken, arguments)?;
    Ok(most)
}

/// Of a value on its way into storage.
#[tactic(auto, using(crate::proofs::Walks::walks))]
pub fn stored_takes(taken: Taken, stored: &Stored) -> Result<Taken, AllocError>
    ensures { IfOk result (λ t. taken_of t ≡ form.stored_takes (taken_of taken) (stored_of stored.now)) }
{
    let mut most = none_taken();
    most_of_stored(&mut most, taken, stored)?;
    Ok(most)
}

// ---- beside the most so far: what is on the left comes last, so that a row of operators or locators takes no stack

#[tactic(auto, unfolding(crate::specs::Beside::beside))]
fn kept(most: &mut Taken, taken: Taken)
    ensures { taken_of most.new ≡ beside (taken_of most.old) (taken_of taken) }
{
    *most = (*most).most(taken);
}

/// Of a number.
#[cycle(walk)]
#[tactic(auto, using(crate::proofs::Walks::walks))]
fn most_of_number(most: &mut Taken, taken: Taken, number: &Number) -> Result<(), AllocError>
    ensures { OnOk result (taken_of most.new ≡ beside (taken_of most.old)
        (form.number_takes (taken_of taken) (number_of number.now))) }
{
    match number {
        Number::Constant(_) => {
            kept(most, taken);
            Ok(())
        }
        Number::In(reference) => most_of_reference(most, taken, reference),
        Number::From { arguments, .. } => most_of_call(most, taken, arguments),
        Number::OfText(text) => most_of_text(most, taken, text),
        Number::OfBit(bit) => most_of_bit(most, taken, bit),
        Number::Signed { operand, .. } => {
            kept(most, taken.with_number()?);
            most_of_number(most, taken, operand)
        }
        Number::Calculated { left, right, .. } => {
            most_of_number(most, taken.with_number()?, right)?;
            most_of_number(most, taken, left)
        }
        Number::Absolute(operand) => {
            kept(most, taken.with_number()?);
            most_of_number(most, taken, operand)
        }
        Number::SignOf(operand) => most_of_number(most, taken, operand),
        Number::Extreme { first, more, .. } => {
            most_of_numbers(most, taken.with_number()?, more)?;
            most_of_number(most, taken, first)
        }
        Number::Modulo { dividend, divisor } => {
            most_of_number(most, taken.with_number()?, divisor)?;
            most_of_number(most, taken, dividend)
        }
        Number::Divided {
            dividend,
            divisor,
            ..
        } => {
            most_of_number(most, taken.with_number()?, divisor)?;
            most_of_number(most, taken, dividend)
        }
        Number::LengthOf(text) => most_of_text(most, taken, text),
        Number::IndexOf { searched, sought } => {
            most_of_text(most, taken, sought)?;
            most_of_text(most, taken, searched)
        }
        Number::VerifyOf { searched, allowed } => {
            most_of_text(most, taken, allowed)?;
            most_of_text(most, taken, searched)
        }
        Number::LowerBound { array, .. } => most_of_reference(most, taken, array),
        Number::UpperBound { array, .. } => most_of_reference(most, taken, array),
        Number::ElementsOf { array, .. } => {
            let counted = taken.with_number()?;
            kept(most, counted);
            most_of_reference(most, taken, array)
        }
        Number::AllocationsOf(_) => {
            kept(most, taken);
            Ok(())
        }
        Number::OnCode => {
            kept(most, taken);
            Ok(())
        }
    }
}

/// Of numbers, one at a time.
#[cycle(walk)]
#[tactic(auto, using(crate::proofs::Walks::walks))]
fn most_of_numbers(most: &mut Taken, taken: Taken, numbers: &Numbers) -> Result<(), AllocError>
    ensures { OnOk result (taken_of most.new ≡ beside (taken_of most.old)
        (form.numbers_take (taken_of taken) (numbers_of numbers.now))) }
{
    match numbers {
        Numbers::End => {
            kept(most, taken);
            Ok(())
        }
        Numbers::More { first, rest } => {
            most_of_numbers(most, taken, rest)?;
            most_of_number(most, taken, first)
        }
    }
}

/// Of a text.
#[cycle(walk)]
#[tactic(auto, using(crate::proofs::Walks::walks))]
fn most_of_text(most: &mut Taken, taken: Taken, text: &Text) -> Result<(), AllocError>
    ensures { OnOk result (taken_of most.new ≡ beside (taken_of most.old)
        (form.text_takes (taken_of taken) (text_of text.now))) }
{
    match text {
        Text::Constant(_) => {
            kept(most, taken);
            Ok(())
        }
        Text::In(reference) => most_of_reference(most, taken, reference),
        Text::From { arguments, .. } => most_of_call(most, taken, arguments),
        Text::OfNumber { number, .. } => most_of_number(most, taken, number),
        Text::OfBit(bit) => most_of_bit(most, taken, bit),
        Text::Joined { left, right } => {
            most_of_text(most, taken, right)?;
            most_of_text(most, taken, left)
        }
        Text::SubstringFrom { text, start } => {
            most_of_number(most, taken, start)?;
            most_of_text(most, taken, text)
        }
        Text::Substring { text, start, count } => {
            most_of_number(most, taken.with_number()?, count)?;
            most_of_number(most, taken, start)?;
            most_of_text(most, taken, text)
        }
    }
}

/// Of a bit.
#[cycle(walk)]
#[tactic(auto, using(crate::proofs::Walks::walks))]
fn most_of_bit(most: &mut Taken, taken: Taken, bit: &Bit) -> Result<(), AllocError>
    ensures { OnOk result (taken_of most.new ≡ beside (taken_of most.old)
        (form.bit_takes (taken_of taken) (bit_of bit.now))) }
{
    match bit {
        Bit::Constant(_) => {
            kept(most, taken);
            Ok(())
        }
        Bit::In(reference) => most_of_reference(most, taken, reference),
        Bit::From { arguments, .. } => most_of_call(most, taken, arguments),
        Bit::OfText(text) => most_of_text(most, taken, text),
        Bit::Negated(operand) => most_of_bit(most, taken, operand),
        Bit::Combined { left, right, .. } => {
            most_of_bit(most, taken.with_number()?, right)?;
            most_of_bit(most, taken, left)
        }
        Bit::NumbersCompared { left, right, .. } => {
            most_of_number(most, taken.with_number()?, right)?;
            most_of_number(most, taken, left)
        }
        Bit::TextsCompared { left, right, .. } => {
            most_of_text(most, taken, right)?;
            most_of_text(most, taken, left)
        }
        Bit::BitsCompared { left, right, .. } => {
            most_of_bit(most, taken.with_number()?, right)?;
            most_of_bit(most, taken, left)
        }
        Bit::PointersCompared { left, right, .. } => {
            most_of_pointer(most, taken.with_words(4)?, right)?;
            most_of_pointer(most, taken, left)
        }
        Bit::OffsetsCompared { left, right, .. } => {
            most_of_offset(most, taken.with_number()?, right)?;
            most_of_offset(most, taken, left)
        }
    }
}

/// Of a POINTER, with the four words of the name.
#[cycle(walk)]
#[tactic(auto, using(crate::proofs::Walks::walks))]
fn most_of_pointer(most: &mut Taken, taken: Taken, pointer: &Pointer) -> Result<(), AllocError>
    ensures { OnOk result (taken_of most.new ≡ beside (taken_of most.old)
        (form.pointer_takes (taken_of taken) (pointer_of pointer.now))) }
{
    match pointer {
        Pointer::Null => {
            kept(most, taken.with_words(4)?);
            Ok(())
        }
        Pointer::In(reference) => {
            kept(most, taken.with_words(4)?);
            most_of_reference(most, taken, reference)
        }
        Pointer::From { arguments, .. } => {
            kept(most, taken.with_words(4)?);
            most_of_call(most, taken, arguments)
        }
        Pointer::AddressOf(reference) => {
            kept(most, taken.with_words(4)?);
            most_of_reference(most, taken, reference)
        }
        Pointer::Into { offset, .. } => {
            kept(most, taken.with_words(4)?);
            most_of_offset(most, taken, offset)
        }
    }
}

/// Of an OFFSET.
#[cycle(walk)]
#[tactic(auto, using(crate::proofs::Walks::walks))]
fn most_of_offset(most: &mut Taken, taken: Taken, offset: &Offset) -> Result<(), AllocError>
    ensures { OnOk result (taken_of most.new ≡ beside (taken_of most.old)
        (form.offset_takes (taken_of taken) (offset_of offset.now))) }
{
    match offset {
        Offset::Null => {
            kept(most, taken);
            Ok(())
        }
        Offset::In(reference) => most_of_reference(most, taken, reference),
        Offset::From { arguments, .. } => most_of_call(most, taken, arguments),
        Offset::Into { pointer, .. } => most_of_pointer(most, taken, pointer),
    }
}

/// Of a reference.
#[cycle(walk)]
#[tactic(auto, using(crate::proofs::Walks::walks))]
fn most_of_reference(
    most: &mut Taken,
    taken: Taken,
    reference: &Reference,
) -> Result<(), AllocError>
    ensures { OnOk result (taken_of most.new ≡ beside (taken_of most.old)
        (form.reference_takes (taken_of taken) (reference_of reference.now))) }
{
    match reference {
        Reference::Plain {
            variable,
            subscripts,
            ..
        } => {
            most_of_subscripts(most, behind_locator(*variable, taken)?, subscripts)?;
            kept(most, taken);
            Ok(())
        }
        Reference::Located {
            locator,
            variable,
            subscripts,
            ..
        } => {
            most_of_subscripts(most, behind_locator(*variable, taken)?, subscripts)?;
            most_of_pointer(most, taken, locator)
        }
    }
}

/// Of subscripts, which all wait.
#[cycle(walk)]
#[tactic(auto, using(crate::proofs::Walks::walks))]
fn most_of_subscripts(
    most: &mut Taken,
    taken: Taken,
    subscripts: &Numbers,
) -> Result<(), AllocError>
    ensures { OnOk result (taken_of most.new ≡ beside (taken_of most.old)
        (form.subscripts_take (taken_of taken) (numbers_of subscripts.now))) }
{
    match subscripts {
        Numbers::End => {
            kept(most, taken);
            Ok(())
        }
        Numbers::More { first, rest } => {
            most_of_subscripts(most, taken.with_number()?, rest)?;
            most_of_number(most, taken, first)
        }
    }
}

/// Of a call, behind the list of its arguments.
#[cycle(walk)]
#[tactic(auto, using(crate::proofs::Walks::walks))]
fn most_of_call(most: &mut Taken, taken: Taken, arguments: &Arguments) -> Result<(), AllocError>
    ensures { OnOk result (taken_of most.new ≡ beside (taken_of most.old)
        (form.arguments_take (with_words (list_words (arguments_of arguments.now)) (taken_of taken))
        (arguments_of arguments.now))) }
{
    let inside = taken.with_words(listed(arguments)?)?;
    most_of_arguments(most, inside, arguments)
}

/// The words of a list of arguments, six for each.
#[tactic(auto, using(crate::proofs::Walks::walks))]
fn listed(arguments: &Arguments) -> Result<u32, AllocError>
    ensures { IfOk result (λ n. n ≡ list_words (arguments_of arguments.now)) }
{
    match arguments {
        Arguments::End => Ok(0),
        Arguments::More { rest, .. } => six_more(listed(rest)?),
    }
}

fn six_more(words: u32) -> Result<u32, AllocError>
    ensures { IfOk result (λ n. n ≡ 6 + words) }
{
    words.checked_add(6).ok_or(AllocError)
}

/// Of arguments, one at a time.
#[cycle(walk)]
#[tactic(auto, using(crate::proofs::Walks::walks))]
fn most_of_arguments(
    most: &mut Taken,
    taken: Taken,
    arguments: &Arguments,
) -> Result<(), AllocError>
    ensures { OnOk result (taken_of most.new ≡ beside (taken_of most.old)
        (form.arguments_take (taken_of taken) (arguments_of arguments.now))) }
{
    match arguments {
        Arguments::End => {
            kept(most, taken);
            Ok(())
        }
        Arguments::More { first, rest } => {
            most_of_arguments(most, taken, rest)?;
            most_of_argument(most, taken, first)
        }
    }
}

/// Of an argument.
#[cycle(walk)]
#[tactic(auto, using(crate::proofs::Walks::walks))]
fn most_of_argument(most: &mut Taken, taken: Taken, argument: &Argument) -> Result<(), AllocError>
    ensures { OnOk result (taken_of most.new ≡ beside (taken_of most.old)
        (form.argument_takes (taken_of taken) (argument_of argument.now))) }
{
    match argument {
        Argument::ByReference(reference) => most_of_reference(most, taken, reference),
        Argument::ByCopy { value, .. } => most_of_stored(most, taken, value),
        Argument::ByOffsetInParameter { pointer, .. } => most_of_pointer(most, taken, pointer),
        Argument::ByOffsetInAutomatic(pointer) => most_of_pointer(most, taken, pointer),
    }
}

/// Of a value on its way into storage.
#[cycle(walk)]
#[tactic(auto, using(crate::proofs::Walks::walks))]
fn most_of_stored(most: &mut Taken, taken: Taken, stored: &Stored) -> Result<(), AllocError>
    ensures { OnOk result (taken_of most.new ≡ beside (taken_of most.old)
        (form.stored_takes (taken_of taken) (stored_of stored.now))) }
{
    match stored {
        Stored::Number { value, .. } => {
            kept(most, taken.with_number()?);
            most_of_number(most, taken, value)
        }
        Stored::Text(text) => most_of_text(most, taken, text),
        Stored::Bit(bit) => most_of_bit(most, taken, bit),
        Stored::Pointer(pointer) => most_of_pointer(most, taken, pointer),
        Stored::Offset(offset) => most_of_offset(most, taken, offset),
    }
}
