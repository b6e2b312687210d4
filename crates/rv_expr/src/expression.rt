// The code of expressions. A number, a bit or an OFFSET value comes in a0, a text on top of the text stack, and a POINTER value in
// the four words of the frame behind the temporaries in use.

ghost use Rattle.std.specs.Prelude.{◌≡◌, ◌++◌, is_some, OnOk, IfOk};
ghost use Rattle.pli_language.specs.View.{option_of};
ghost use Rattle.pli_typing.specs.TypedTree as Y;
ghost use Rattle.pli_typing.specs.TypedView.{argument_of, arguments_of, bit_of, number_of, numbers_of, part_of};
ghost use Rattle.pli_typing.specs.TypedView.{reference_of, stored_of, text_of, variable_of};
ghost use Rattle.pli_coding.specs.Expressions as form;
ghost use Rattle.pli_frames.specs.TakenView.{taken_of};
ghost use Rattle.rv_address.specs.Around.{environment_of};
ghost use Rattle.rv_address.specs.Places.{name_of};
ghost use Rattle.rv_operation.specs.Asked.{list_of};
ghost use Rattle.rv_operation.specs.Pieces.{value_loaded};
ghost use Rattle.rv_expr.specs.Forms.{behind, locator_of, reached_by, standing_at, standing_before, subscripted};
ghost use Rattle.rv_expr.specs.Forms.{waiting_at, waiting_locator};

use crate::bit::{
    bits_compared, both_offsets_compared, both_texts_compared, combined_bit, negated_bit,
    numbers_compared, text_bit,
};
use crate::locator::{offset_code, pointer_code, pointers_compared};
use crate::number::{
    absolute_number, bound_number, calculated_number, divided_number, extreme_number, index_number,
    length_number, modulo_number, sign_number, signed_number, text_number, verify_number,
};
use crate::text::{bit_text, end_text, joined_text, number_text, part_text, text_in};
use pli_frames::taken::Taken;
use pli_frames::temporaries::behind_locator;
use pli_typing::typed::{
    Argument, Arguments, Bit, Callee, Number, Numbers, Part, Reference, Stored, Text, Variable,
};
use rv_address::environment::Environment;
use rv_address::names::NamePlace;
use rv_address::subscript::is_given;
use rv_address::taken::save;
use rv_assembly::code::Code;
use rv_assembly::registers::a0;
use rv_operation::argument::{
    ArgumentList, arguments_entered, is_copy, list_at, name_to_argument, part_given,
    value_to_argument,
};
use rv_operation::arithmetic::fitted_code;
use rv_operation::constant::{bit_constant, generations_counted, number_constant};
use rv_operation::reference::{BoundAsked, element_reached, standing_reached, value_loaded};
use rv_operation::standing::standing_behind;
use rv_operation::text::constant_pushed;
use std::alloc::{AllocError, Global};

/// A number, in a0.
#[cycle(walk)]
#[tactic(auto, using(crate::proofs::Walks::numbers))]
pub fn number_code(
    alloc: Global,
    code: &mut Code,
    environment: &Environment,
    taken: Taken,
    number: &Number,
) -> Result<(), AllocError>
    ensures { OnOk result (code.new ≡ code.old ++ form.number_code (environment_of environment.now) (taken_of taken) (number_of number.now)) }
{
    match number {
        Number::Constant(value) => number_constant(code, *value),
        Number::In(reference) => loaded_code(alloc, code, environment, taken, reference),
        Number::From { callee, arguments } => {
            call_code(alloc, code, environment, taken, *callee, arguments)
        }
        Number::OfText(text) => text_number(alloc, code, environment, taken, text),
        Number::OfBit(bit) => bit_code(alloc, code, environment, taken, bit),
        Number::Signed { sign, operand } => {
            signed_number(alloc, code, environment, taken, *sign, operand)
        }
        Number::Calculated {
            operator,
            left,
            right,
        } => calculated_number(alloc, code, environment, taken, *operator, left, right),
        Number::Absolute(operand) => absolute_number(alloc, code, environment, taken, operand),
        Number::SignOf(operand) => sign_number(alloc, code, environment, taken, operand),
        Number::Extreme { which, first, more } => {
            extreme_number(alloc, code, environment, taken, *which, first, more)
        }
        Number::Modulo { dividend, divisor } => {
            modulo_number(alloc, code, environment, taken, dividend, divisor)
        }
        Number::Divided {
            precision,
            dividend,
            divisor,
        } => divided_number(
            alloc,
            code,
            environment,
            taken,
            *precision,
            dividend,
            divisor,
        ),
        Number::LengthOf(text) => length_number(alloc, code, environment, taken, text),
        Number::IndexOf { searched, sought } => {
            index_number(alloc, code, environment, taken, searched, sought)
        }
        Number::VerifyOf { searched, allowed } => {
            verify_number(alloc, code, environment, taken, searched, allowed)
        }
        Number::LowerBound { array, dimension } => bound_number(
            alloc,
            code,
            environment,
            taken,
            array,
            BoundAsked::Lower,
            *dimension,
        ),
        Number::UpperBound { array, dimension } => bound_number(
            alloc,
            code,
            environment,
            taken,
            array,
            BoundAsked::Upper,
            *dimension,
        ),
        Number::ElementsOf { array, dimension } => bound_number(
            alloc,
            code,
            environment,
            taken,
            array,
            BoundAsked::Elements,
            *dimension,
        ),
        Number::AllocationsOf(variable) => generations_counted(code, environment, *variable),
        Number::OnCode => code.service(33),
    }
}

/// A text, on top of the text stack.
#[cycle(walk)]
#[tactic(auto, using(crate::proofs::Walks::texts))]
pub fn text_code(
    alloc: Global,
    code: &mut Code,
    environment: &Environment,
    taken: Taken,
    text: &Text,
) -> Result<(), AllocError>
    ensures { OnOk result (code.new ≡ code.old ++ form.text_code (environment_of environment.now) (taken_of taken) (text_of text.now)) }
{
    match text {
        Text::Constant(bytes) => constant_pushed(alloc, code, bytes),
        Text::In(reference) => text_in(alloc, code, environment, taken, reference),
        Text::From { callee, arguments } => {
            call_code(alloc, code, environment, taken, *callee, arguments)
        }
        Text::OfNumber { precision, number } => {
            number_text(alloc, code, environment, taken, *precision, number)
        }
        Text::OfBit(bit) => bit_text(alloc, code, environment, taken, bit),
        Text::Joined { left, right } => joined_text(alloc, code, environment, taken, left, right),
        Text::SubstringFrom { text, start } => end_text(
            alloc,
            code,
            environment,
            taken,
            text,
            start,
        ),
        Text::Substring { text, start, count } => {
            part_text(alloc, code, environment, taken, text, start, count)
        }
    }
}

/// A bit, in a0.
#[cycle(walk)]
#[tactic(auto, using(crate::proofs::Walks::bits))]
pub fn bit_code(
    alloc: Global,
    code: &mut Code,
    environment: &Environment,
    taken: Taken,
    bit: &Bit,
) -> Result<(), AllocError>
    ensures { OnOk result (code.new ≡ code.old ++ form.bit_code (environment_of environment.now) (taken_of taken) (bit_of bit.now)) }
{
    match bit {
        Bit::Constant(value) => bit_constant(code, *value),
        Bit::In(reference) => loaded_code(alloc, code, environment, taken, reference),
        Bit::From { callee, arguments } => {
            call_code(alloc, code, environment, taken, *callee, arguments)
        }
        Bit::OfText(text) => text_bit(alloc, code, environment, taken, text),
        Bit::Negated(operand) => negated_bit(alloc, code, environment, taken, operand),
        Bit::Combined {
            operator,
            left,
            right,
        } => combined_bit(alloc, code, environment, taken, *operator, left, right),
        Bit::NumbersCompared {
            comparison,
            left,
            right,
        } => numbers_compared(alloc, code, environment, taken, *comparison, left, right),
        Bit::TextsCompared {
            comparison,
            left,
            right,
        } => both_texts_compared(alloc, code, environment, taken, *comparison, left, right),
        Bit::BitsCompared {
            comparison,
            left,
            right,
        } => bits_compared(alloc, code, environment, taken, *comparison, left, right),
        Bit::PointersCompared { equal, left, right } => {
            pointers_compared(alloc, code, environment, taken, *equal, left, right)
        }
        Bit::OffsetsCompared { equal, left, right } => {
            both_offsets_compared(alloc, code, environment, taken, *equal, left, right)
        }
    }
}

/// The value of a number, bit or OFFSET variable, in a0.
#[cycle(walk)]
#[inline(never)]
#[tactic(auto, using(crate::proofs::Walks::parts))]
pub(crate) fn loaded_code(
    alloc: Global,
    code: &mut Code,
    environment: &Environment,
    taken: Taken,
    reference: &Reference,
) -> Result<(), AllocError>
    ensures { OnOk result (code.new ≡ code.old ++ (form.reference_code (environment_of environment.now)
        (taken_of taken) (reference_of reference.now)
        ++ value_loaded (environment_of environment.now) (reference_of reference.now))) }
{
    reference_code(alloc, code, environment, taken, reference)?;
    value_loaded(code, environment, reference)
}

/// An element, or the first leaf of a part: the locator, then the subscripts, then the checks.
#[cycle(walk)]
#[tactic(auto, using(crate::proofs::Walks::references))]
pub fn reference_code(
    alloc: Global,
    code: &mut Code,
    environment: &Environment,
    taken: Taken,
    reference: &Reference,
) -> Result<(), AllocError>
    ensures { OnOk result (code.new ≡ code.old ++ form.reference_code (environment_of environment.now) (taken_of taken) (reference_of reference.now)) }
{
    waiting_locator(alloc, code, environment, taken, reference)?;
    behind_code(alloc, code, environment, taken, reference)
}

/// Where the name of the locator stands, if an element is reached from there.
#[inline(never)]
#[tactic(auto, using(crate::proofs::Walks::before))]
fn standing_before(
    environment: &Environment,
    reference: &Reference,
) -> Result<Option<NamePlace>, AllocError>
    ensures { IfOk result (λ n. option_of name_of n ≡ standing_before (environment_of environment.now)
        (reference_of reference.now)) }
{
    match reference {
        Reference::Plain { .. } => Ok(None),
        Reference::Located {
            locator,
            subscripts,
            ..
        } => standing_behind(environment, locator, subscripts),
    }
}

#[inline(never)]
fn is_standing(environment: &Environment, reference: &Reference) -> Result<bool, AllocError>
    ensures { IfOk result (λ b. b ≡ is_some (standing_before (environment_of environment.now)
        (reference_of reference.now))) }
{
    match standing_before(environment, reference)? {
        Some(_) => Ok(true),
        None => Ok(false),
    }
}

/// The locator of a reference, where its name waits.
#[cycle(walk)]
#[inline(never)]
#[tactic(auto, using(crate::proofs::Walks::behind_locators))]
fn waiting_locator(
    alloc: Global,
    code: &mut Code,
    environment: &Environment,
    taken: Taken,
    reference: &Reference,
) -> Result<(), AllocError>
    ensures { OnOk result (code.new ≡ code.old ++ waiting_locator (environment_of environment.now)
        (taken_of taken) (reference_of reference.now)) }
{
    if is_standing(environment, reference)? {
        return Ok(());
    }
    locator_code(alloc, code, environment, taken, reference)
}

/// An element, behind the code of its locator.
#[cycle(walk)]
#[inline(never)]
#[tactic(auto, using(crate::proofs::Walks::behind_locators))]
fn behind_code(
    alloc: Global,
    code: &mut Code,
    environment: &Environment,
    taken: Taken,
    reference: &Reference,
) -> Result<(), AllocError>
    ensures { OnOk result (code.new ≡ code.old ++ behind (environment_of environment.now) (taken_of taken)
        (reference_of reference.now)) }
{
    let standing = standing_before(environment, reference)?;
    reached_code(alloc, code, environment, taken, reference, standing)
}

/// An element behind the code of its locator, whose name stands there, or else waits.
#[cycle(walk)]
#[tactic(auto, using(crate::proofs::Walks::standing))]
fn reached_code(
    alloc: Global,
    code: &mut Code,
    environment: &Environment,
    taken: Taken,
    reference: &Reference,
    standing: Option<NamePlace>,
) -> Result<(), AllocError>
    ensures { OnOk result (code.new ≡ code.old ++ reached_by (environment_of environment.now) (taken_of taken)
        (reference_of reference.now) (option_of name_of standing)) }
{
    match standing {
        Some(name) => standing_code(alloc, code, environment, taken, reference, name),
        None => waiting_code(alloc, code, environment, taken, reference),
    }
}

/// An element of a BASED variable whose locator's name stands there.
#[cycle(walk)]
#[tactic(auto, using(crate::proofs::Walks::elements))]
fn standing_code(
    alloc: Global,
    code: &mut Code,
    environment: &Environment,
    taken: Taken,
    reference: &Reference,
    name: NamePlace,
) -> Result<(), AllocError>
    ensures { OnOk result (code.new ≡ code.old ++ standing_at (environment_of environment.now) (taken_of taken)
        (reference_of reference.now) (name_of name)) }
{
    match reference {
        Reference::Plain {
            variable,
            part,
            subscripts,
        } => {
            subscripts_code(alloc, code, environment, taken, subscripts)?;
            standing_reached(code, environment, name, taken, *variable, *part, subscripts)
        }
        Reference::Located {
            variable,
            part,
            subscripts,
            ..
        } => {
            subscripts_code(alloc, code, environment, taken, subscripts)?;
            standing_reached(code, environment, name, taken, *variable, *part, subscripts)
        }
    }
}

/// An element whose locator's name waits, or that has none.
#[cycle(walk)]
#[tactic(auto, using(crate::proofs::Walks::elements))]
fn waiting_code(
    alloc: Global,
    code: &mut Code,
    environment: &Environment,
    taken: Taken,
    reference: &Reference,
) -> Result<(), AllocError>
    ensures { OnOk result (code.new ≡ code.old ++ waiting_at (environment_of environment.now) (taken_of taken)
        (reference_of reference.now)) }
{
    match reference {
        Reference::Plain {
            variable,
            part,
            subscripts,
        } => subscripted_code(
            alloc,
            code,
            environment,
            taken,
            *variable,
            *part,
            subscripts,
        ),
        Reference::Located {
            variable,
            part,
            subscripts,
            ..
        } => subscripted_code(
            alloc,
            code,
            environment,
            taken,
            *variable,
            *part,
            subscripts,
        ),
    }
}

/// An element, behind its locator.
#[cycle(walk)]
#[tactic(auto, using(crate::proofs::Walks::subscripts))]
fn subscripted_code(
    alloc: Global,
    code: &mut Code,
    environment: &Environment,
    taken: Taken,
    variable: Variable,
    part: Part,
    subscripts: &Numbers,
) -> Result<(), AllocError>
    ensures { OnOk result (code.new ≡ code.old ++ subscripted (environment_of environment.now) (taken_of taken) (variable_of variable) (part_of part) (numbers_of subscripts.now)) }
{
    let waiting = behind_locator(variable, taken)?;
    subscripts_code(alloc, code, environment, waiting, subscripts)?;
    element_reached(
        code,
        environment,
        taken,
        waiting,
        variable,
        part,
        subscripts,
    )
}

/// The locator of a reference that has one.
#[cycle(walk)]
#[tactic(auto, using(crate::proofs::Walks::locators))]
pub fn locator_code(
    alloc: Global,
    code: &mut Code,
    environment: &Environment,
    taken: Taken,
    reference: &Reference,
) -> Result<(), AllocError>
    ensures { OnOk result (code.new ≡ code.old ++ locator_of (environment_of environment.now) (taken_of taken) (reference_of reference.now)) }
{
    match reference {
        Reference::Plain { .. } => Ok(()),
        Reference::Located { locator, .. } => {
            pointer_code(alloc, code, environment, taken, locator)
        }
    }
}

/// Subscripts, each of which waits, up to where all that are left are simple.
#[cycle(walk)]
#[tactic(auto, using(crate::proofs::Walks::subscripts))]
pub fn subscripts_code(
    alloc: Global,
    code: &mut Code,
    environment: &Environment,
    taken: Taken,
    subscripts: &Numbers,
) -> Result<(), AllocError>
    ensures { OnOk result (code.new ≡ code.old ++ form.subscripts_code (environment_of environment.now) (taken_of taken) (numbers_of subscripts.now)) }
{
    match subscripts {
        Numbers::End => Ok(()),
        Numbers::More { first, rest } => {
            if is_given(environment, first, rest)? {
                return Ok(());
            }
            number_code(alloc, code, environment, taken, first)?;
            save(code, a0(), taken)?;
            subscripts_code(alloc, code, environment, taken.with_number()?, rest)
        }
    }
}

/// A call of a procedure; a function's value comes in a0, or its text on the stack, or the address of its name in a0.
#[cycle(walk)]
#[tactic(auto, using(crate::proofs::Walks::calls))]
pub fn call_code(
    alloc: Global,
    code: &mut Code,
    environment: &Environment,
    taken: Taken,
    callee: Callee,
    arguments: &Arguments,
) -> Result<(), AllocError>
    ensures { OnOk result (code.new ≡ code.old ++ form.call_code (environment_of environment.now) (taken_of taken) (Y.Calling callee.procedure callee.level (arguments_of arguments.now))) }
{
    let list = list_at(taken, arguments)?;
    let behind = taken.with_words(list.words)?;
    arguments_code(alloc, code, environment, behind, list, 0, arguments)?;
    arguments_entered(code, environment, list, callee, arguments)
}

#[cycle(walk)]
#[tactic(auto, using(crate::proofs::Walks::arguments))]
fn arguments_code(
    alloc: Global,
    code: &mut Code,
    environment: &Environment,
    taken: Taken,
    list: ArgumentList,
    n: u32,
    arguments: &Arguments,
) -> Result<(), AllocError>
    ensures { OnOk result (code.new ≡ code.old ++ form.arguments_code (environment_of environment.now) (taken_of taken) (list_of list) n (arguments_of arguments.now)) }
{
    match arguments {
        Arguments::End => Ok(()),
        Arguments::More { first, rest } => {
            argument_code(alloc, code, environment, taken, list, n, first)?;
            let next = n.checked_add(1).ok_or(AllocError)?;
            arguments_code(alloc, code, environment, taken, list, next, rest)
        }
    }
}

#[cycle(walk)]
#[tactic(auto, using(crate::proofs::Walks::given))]
fn argument_code(
    alloc: Global,
    code: &mut Code,
    environment: &Environment,
    taken: Taken,
    list: ArgumentList,
    n: u32,
    argument: &Argument,
) -> Result<(), AllocError>
    ensures { OnOk result (code.new ≡ code.old ++ form.argument_code (environment_of environment.now) (taken_of taken) (list_of list) n (argument_of argument.now)) }
{
    match argument {
        Argument::ByReference(reference) => {
            locator_code(alloc, code, environment, taken, reference)?;
            part_given(code, environment, taken, list, n, reference)
        }
        Argument::ByCopy { value, .. } => {
            stored_code(alloc, code, environment, taken, value)?;
            value_to_argument(code, taken, list, n, value)?;
            is_copy(code, list, n)
        }
        Argument::ByOffsetInParameter { pointer, .. } => {
            pointer_code(alloc, code, environment, taken, pointer)?;
            name_to_argument(code, taken, list, n)?;
            is_copy(code, list, n)
        }
        Argument::ByOffsetInAutomatic(pointer) => {
            pointer_code(alloc, code, environment, taken, pointer)?;
            name_to_argument(code, taken, list, n)?;
            is_copy(code, list, n)
        }
    }
}

/// A value of the kind that is due.
#[cycle(walk)]
#[tactic(auto, using(crate::proofs::Walks::stored))]
pub fn stored_code(
    alloc: Global,
    code: &mut Code,
    environment: &Environment,
    taken: Taken,
    stored: &Stored,
) -> Result<(), AllocError>
    ensures { OnOk result (code.new ≡ code.old ++ form.stored_code (environment_of environment.now) (taken_of taken) (stored_of stored.now)) }
{
    match stored {
        Stored::Number { precision, value } => {
            number_code(alloc, code, environment, taken, value)?;
            fitted_code(code, taken, *precision)
        }
        Stored::Text(text) => text_code(alloc, code, environment, taken, text),
        Stored::Bit(bit) => bit_code(alloc, code, environment, taken, bit),
        Stored::Pointer(pointer) => pointer_code(alloc, code, environment, taken, pointer),
        Stored::Offset(offset) => offset_code(alloc, code, environment, taken, offset),
    }
}
