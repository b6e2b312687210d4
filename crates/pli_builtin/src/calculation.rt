// The built-in functions of numbers and texts.

ghost use Rattle.std.specs.Prelude.{◌≡◌, ◌≢◌, Some, ◌<◌, [], ◌∷◌, map, length, IfOk, OnOk, if◌then◌else◌};
ghost use Rattle.std.specs.Vec.Iter.{into_iter_items};
ghost use Rattle.pli_typing.specs.Builtins as B;
ghost use Rattle.pli_typing.specs.Converting.{Gives};
ghost use Rattle.pli_typing.specs.TypedTree as Y;
ghost use Rattle.pli_typing.specs.TypedView.{extremum_of, number_of, text_of};
ghost use Rattle.pli_operand.specs.Notes.{noted};
ghost use Rattle.pli_operand.specs.Shown.{notes_of, operand_of, referent_of};
ghost use Rattle.pli_builtin.specs.Parts.{extreme_of};
ghost use Rattle.pli_builtin.specs.Shown.{number_function_of, text_function_of};

use crate::argument::{
    Pair, Quadruple, Triple, bad_number, bad_text, constant_within, four, is_zero, one, three, two,
};
use crate::node;
use crate::numbers::numbers_left;
use crate::operator::{OPERATOR_DIGITS, number_answer};
use pli_language::expr::Place;
use pli_operand::notes::Notes;
use pli_operand::operand::{Operand, Referent};
use pli_operand::value::{number_operand, text_operand};
use pli_typing::typed::{Extremum, Number, Text, Value};
use std::alloc::{AllocError, Global};
use std::vec::IntoIter;

/// ABS or SIGN.
#[derive(Clone, Copy, PartialEq, Eq, Debug)]
pub enum NumberFunction {
    Absolute,
    Sign,
}

/// INDEX or VERIFY.
#[derive(Clone, Copy, PartialEq, Eq, Debug)]
pub enum TextFunction {
    Index,
    Verify,
}

fn made_of_number<'a>(
    alloc: Global,
    function: NumberFunction,
    number: Number<'a>,
) -> Result<Number<'a>, AllocError>
    ensures { IfOk result (λ n. number_of n ≡ number_function_of function (number_of number.entry)) }
{
    match function {
        NumberFunction::Absolute => node::absolute(alloc, number),
        NumberFunction::Sign => node::sign_of(alloc, number),
    }
}

fn made_of_texts<'a>(
    alloc: Global,
    function: TextFunction,
    first: Text<'a>,
    second: Text<'a>,
) -> Result<Number<'a>, AllocError>
    ensures { IfOk result (λ n. number_of n ≡ text_function_of function (text_of first.entry) (text_of second.entry)) }
{
    match function {
        TextFunction::Index => node::index_of(alloc, first, second),
        TextFunction::Verify => node::verify_of(alloc, first, second),
    }
}

/// A text that a built-in gives.
fn text_answer<'t, 'a>(alloc: Global, text: Text<'a>) -> Result<Referent<'t, 'a>, AllocError>
    ensures { IfOk result (λ r. referent_of r ≡ Gives (Y.TextValue (text_of text.entry))) }
{
    Ok(Referent::Gives(Value::Text(Box::new(alloc, text)?)))
}

#[tactic(auto, using(pli_operand::proofs::Noting::noting))]
fn of_one_number<'t, 'a>(
    alloc: Global,
    notes: &mut Notes,
    place: Place,
    function: NumberFunction,
    operand: Operand<'t, 'a>,
) -> Result<Referent<'t, 'a>, AllocError>
    ensures noted { OnOk result (notes_of notes.new ≡ noted (notes_of notes.old) (B.number_given (B.of_number place (number_function_of function) (operand_of operand.entry ∷ [])))) }
    ensures value { IfOk result (λ r. referent_of r ≡ (B.number_given (B.of_number place (number_function_of function) (operand_of operand.entry ∷ []))).value) }
{
    let number = number_operand(alloc, notes, operand)?;
    number_answer(alloc, made_of_number(alloc, function, number)?)
}

/// ABS and SIGN.
#[tactic(auto, using(pli_operand::proofs::Noting::noting, crate::proofs::Counted::bad_of_number))]
pub fn of_number<'t, 'a>(
    alloc: Global,
    notes: &mut Notes,
    place: Place,
    function: NumberFunction,
    operands: Vec<Operand<'t, 'a>>,
) -> Result<Referent<'t, 'a>, AllocError>
    ensures noted { OnOk result (notes_of notes.new ≡ noted (notes_of notes.old) (B.number_given (B.of_number place (number_function_of function) (map operand_of operands.entry.items)))) }
    ensures value { IfOk result (λ r. referent_of r ≡ (B.number_given (B.of_number place (number_function_of function) (map operand_of operands.entry.items))).value) }
{
    match one(operands.into_iter()) {
        Some(operand) => of_one_number(alloc, notes, place, function, operand),
        None => Ok(bad_number(alloc, notes, place)?),
    }
}

#[tactic(auto, using(pli_operand::proofs::Noting::noting))]
fn of_two_numbers<'t, 'a>(
    alloc: Global,
    notes: &mut Notes,
    place: Place,
    dividend: Operand<'t, 'a>,
    divisor: Operand<'t, 'a>,
) -> Result<Referent<'t, 'a>, AllocError>
    ensures noted { OnOk result (notes_of notes.new ≡ noted (notes_of notes.old) (B.number_given (B.of_numbers place Y.Modulo (operand_of dividend.entry ∷ operand_of divisor.entry ∷ [])))) }
    ensures value { IfOk result (λ r. referent_of r ≡ (B.number_given (B.of_numbers place Y.Modulo (operand_of dividend.entry ∷ operand_of divisor.entry ∷ []))).value) }
{
    let dividend = number_operand(alloc, notes, dividend)?;
    let divisor = number_operand(alloc, notes, divisor)?;
    Ok(number_answer(alloc, node::modulo(alloc, dividend, divisor)?)?)
}

/// MOD.
#[tactic(auto, using(pli_operand::proofs::Noting::noting, crate::proofs::Counted::bad_of_numbers))]
pub fn modulo<'t, 'a>(
    alloc: Global,
    notes: &mut Notes,
    place: Place,
    operands: Vec<Operand<'t, 'a>>,
) -> Result<Referent<'t, 'a>, AllocError>
    ensures noted { OnOk result (notes_of notes.new ≡ noted (notes_of notes.old) (B.number_given (B.of_numbers place Y.Modulo (map operand_of operands.entry.items)))) }
    ensures value { IfOk result (λ r. referent_of r ≡ (B.number_given (B.of_numbers place Y.Modulo (map operand_of operands.entry.items))).value) }
{
    match two(operands.into_iter()) {
        Some(
            Pair {
                first: dividend,
                second: divisor,
            },
        ) => of_two_numbers(alloc, notes, place, dividend, divisor),
        None => Ok(bad_number(alloc, notes, place)?),
    }
}

#[tactic(auto, using(pli_operand::proofs::Noting::noting))]
fn extreme<'t, 'a>(
    alloc: Global,
    notes: &mut Notes,
    which: Extremum,
    first: Operand<'t, 'a>,
    more: IntoIter<Operand<'t, 'a>>,
) -> Result<Referent<'t, 'a>, AllocError>
    ensures noted { OnOk result (notes_of notes.new ≡ noted (notes_of notes.old) (B.number_given (extreme_of (extremum_of which) (operand_of first.entry) (map operand_of (into_iter_items more.entry))))) }
    ensures value { IfOk result (λ r. referent_of r ≡ (B.number_given (extreme_of (extremum_of which) (operand_of first.entry) (map operand_of (into_iter_items more.entry)))).value) }
{
    let first = number_operand(alloc, notes, first)?;
    let more = numbers_left(alloc, notes, more)?;
    Ok(number_answer(alloc, node::extreme(alloc, which, first, more)?)?)
}

/// MAX or MIN of less than two.
#[tactic(auto, using(pli_operand::proofs::Noting::noting, crate::proofs::Counted::bad_of_many))]
fn too_few<'t, 'a>(
    alloc: Global,
    notes: &mut Notes,
    place: Place,
    which: Extremum,
    operands: Vec<Operand>,
) -> Result<Referent<'t, 'a>, AllocError>
    requires { length operands.items < 2 }
    ensures noted { OnOk result (notes_of notes.new ≡ noted (notes_of notes.old) (B.number_given (B.of_many place (extremum_of which) (map operand_of operands.entry.items)))) }
    ensures value { IfOk result (λ r. referent_of r ≡ (B.number_given (B.of_many place (extremum_of which) (map operand_of operands.entry.items))).value) }
{
    bad_number(alloc, notes, place)
}

/// MAX and MIN take two numbers or more.
#[tactic(auto, using(pli_operand::proofs::Noting::noting, crate::proofs::Counted::of_many_is))]
pub fn of_many<'t, 'a>(
    alloc: Global,
    notes: &mut Notes,
    place: Place,
    which: Extremum,
    operands: Vec<Operand<'t, 'a>>,
) -> Result<Referent<'t, 'a>, AllocError>
    ensures noted { OnOk result (notes_of notes.new ≡ noted (notes_of notes.old) (B.number_given (B.of_many place (extremum_of which) (map operand_of operands.entry.items)))) }
    ensures value { IfOk result (λ r. referent_of r ≡ (B.number_given (B.of_many place (extremum_of which) (map operand_of operands.entry.items))).value) }
{
    if operands.len() < 2 {
        return too_few(alloc, notes, place, which, operands);
    }
    let mut operands = operands.into_iter();
    match operands.next() {
        Some(first) => extreme(alloc, notes, which, first, operands),
        None => Ok(bad_number(alloc, notes, place)?),
    }
}

#[tactic(auto, using(pli_operand::proofs::Noting::noting))]
fn length_of<'t, 'a>(
    alloc: Global,
    notes: &mut Notes,
    place: Place,
    operand: Operand<'t, 'a>,
) -> Result<Referent<'t, 'a>, AllocError>
    ensures noted { OnOk result (notes_of notes.new ≡ noted (notes_of notes.old) (B.number_given (B.of_text place (operand_of operand.entry ∷ [])))) }
    ensures value { IfOk result (λ r. referent_of r ≡ (B.number_given (B.of_text place (operand_of operand.entry ∷ []))).value) }
{
    let text = text_operand(alloc, notes, operand)?;
    number_answer(alloc, node::length_of(alloc, text)?)
}

/// LENGTH.
#[tactic(auto, using(pli_operand::proofs::Noting::noting, crate::proofs::Counted::bad_of_text))]
pub fn of_text<'t, 'a>(
    alloc: Global,
    notes: &mut Notes,
    place: Place,
    operands: Vec<Operand<'t, 'a>>,
) -> Result<Referent<'t, 'a>, AllocError>
    ensures noted { OnOk result (notes_of notes.new ≡ noted (notes_of notes.old) (B.number_given (B.of_text place (map operand_of operands.entry.items)))) }
    ensures value { IfOk result (λ r. referent_of r ≡ (B.number_given (B.of_text place (map operand_of operands.entry.items))).value) }
{
    match one(operands.into_iter()) {
        Some(operand) => length_of(alloc, notes, place, operand),
        None => Ok(bad_number(alloc, notes, place)?),
    }
}

#[tactic(auto, using(pli_operand::proofs::Noting::noting))]
fn of_two_texts<'t, 'a>(
    alloc: Global,
    notes: &mut Notes,
    place: Place,
    function: TextFunction,
    first: Operand<'t, 'a>,
    second: Operand<'t, 'a>,
) -> Result<Referent<'t, 'a>, AllocError>
    ensures noted { OnOk result (notes_of notes.new ≡ noted (notes_of notes.old) (B.number_given (B.of_texts place (text_function_of function) (operand_of first.entry ∷ operand_of second.entry ∷ [])))) }
    ensures value { IfOk result (λ r. referent_of r ≡ (B.number_given (B.of_texts place (text_function_of function) (operand_of first.entry ∷ operand_of second.entry ∷ []))).value) }
{
    let first = text_operand(alloc, notes, first)?;
    let second = text_operand(alloc, notes, second)?;
    number_answer(alloc, made_of_texts(alloc, function, first, second)?)
}

/// INDEX and VERIFY.
#[tactic(auto, using(pli_operand::proofs::Noting::noting, crate::proofs::Counted::bad_of_texts))]
pub fn of_texts<'t, 'a>(
    alloc: Global,
    notes: &mut Notes,
    place: Place,
    function: TextFunction,
    operands: Vec<Operand<'t, 'a>>,
) -> Result<Referent<'t, 'a>, AllocError>
    ensures noted { OnOk result (notes_of notes.new ≡ noted (notes_of notes.old) (B.number_given (B.of_texts place (text_function_of function) (map operand_of operands.entry.items)))) }
    ensures value { IfOk result (λ r. referent_of r ≡ (B.number_given (B.of_texts place (text_function_of function) (map operand_of operands.entry.items))).value) }
{
    match two(operands.into_iter()) {
        Some(Pair { first, second }) => of_two_texts(alloc, notes, place, function, first, second),
        None => Ok(bad_number(alloc, notes, place)?),
    }
}

#[tactic(auto, using(pli_operand::proofs::Noting::noting))]
fn substring_from<'t, 'a>(
    alloc: Global,
    notes: &mut Notes,
    place: Place,
    text: Operand<'t, 'a>,
    start: Operand<'t, 'a>,
) -> Result<Referent<'t, 'a>, AllocError>
    ensures noted { OnOk result (notes_of notes.new ≡ noted (notes_of notes.old) (B.text_given (B.substring place (operand_of text.entry ∷ operand_of start.entry ∷ [])))) }
    ensures value { IfOk result (λ r. referent_of r ≡ (B.text_given (B.substring place (operand_of text.entry ∷ operand_of start.entry ∷ []))).value) }
{
    let text = text_operand(alloc, notes, text)?;
    let start = number_operand(alloc, notes, start)?;
    text_answer(alloc, node::substring_from(alloc, text, start)?)
}

#[tactic(auto, using(pli_operand::proofs::Noting::noting))]
fn substring_within<'t, 'a>(
    alloc: Global,
    notes: &mut Notes,
    place: Place,
    text: Operand<'t, 'a>,
    start: Operand<'t, 'a>,
    count: Operand<'t, 'a>,
) -> Result<Referent<'t, 'a>, AllocError>
    ensures noted { OnOk result (notes_of notes.new ≡ noted (notes_of notes.old) (B.text_given (B.substring place (operand_of text.entry ∷ operand_of start.entry ∷ operand_of count.entry ∷ [])))) }
    ensures value { IfOk result (λ r. referent_of r ≡ (B.text_given (B.substring place (operand_of text.entry ∷ operand_of start.entry ∷ operand_of count.entry ∷ []))).value) }
{
    let text = text_operand(alloc, notes, text)?;
    let start = number_operand(alloc, notes, start)?;
    let count = number_operand(alloc, notes, count)?;
    Ok(text_answer(alloc, node::substring(alloc, text, start, count)?)?)
}

/// SUBSTR of other than two.
#[tactic(auto, using(pli_operand::proofs::Noting::noting, crate::proofs::Counted::bad_substring))]
fn substring_of_three<'t, 'a>(
    alloc: Global,
    notes: &mut Notes,
    place: Place,
    operands: Vec<Operand<'t, 'a>>,
) -> Result<Referent<'t, 'a>, AllocError>
    requires { length operands.items ≢ 2 }
    ensures noted { OnOk result (notes_of notes.new ≡ noted (notes_of notes.old) (B.text_given (B.substring place (map operand_of operands.entry.items)))) }
    ensures value { IfOk result (λ r. referent_of r ≡ (B.text_given (B.substring place (map operand_of operands.entry.items))).value) }
{
    match three(operands.into_iter()) {
        Some(
            Triple {
                first: text,
                second: start,
                third: count,
            },
        ) => substring_within(alloc, notes, place, text, start, count),
        None => Ok(bad_text(alloc, notes, place)?),
    }
}

/// SUBSTR.
#[tactic(auto, using(pli_operand::proofs::Noting::noting))]
pub fn substring<'t, 'a>(
    alloc: Global,
    notes: &mut Notes,
    place: Place,
    operands: Vec<Operand<'t, 'a>>,
) -> Result<Referent<'t, 'a>, AllocError>
    ensures noted { OnOk result (notes_of notes.new ≡ noted (notes_of notes.old) (B.text_given (B.substring place (map operand_of operands.entry.items)))) }
    ensures value { IfOk result (λ r. referent_of r ≡ (B.text_given (B.substring place (map operand_of operands.entry.items))).value) }
{
    if operands.len() != 2 {
        return substring_of_three(alloc, notes, place, operands);
    }
    match two(operands.into_iter()) {
        Some(
            Pair {
                first: text,
                second: start,
            },
        ) => substring_from(alloc, notes, place, text, start),
        None => Ok(bad_text(alloc, notes, place)?),
    }
}

/// Without a right precision or scale.
#[tactic(auto, using(pli_operand::proofs::Noting::noting))]
fn no_quotient<'t, 'a>(
    alloc: Global,
    notes: &mut Notes,
    place: Place,
    _dividend: Operand,
    _divisor: Operand,
) -> Result<Referent<'t, 'a>, AllocError>
    ensures noted { OnOk result (notes_of notes.new ≡ noted (notes_of notes.old) (B.number_given (B.bad_number place))) }
    ensures value { IfOk result (λ r. referent_of r ≡ (B.number_given (B.bad_number place)).value) }
{
    bad_number(alloc, notes, place)
}

#[tactic(auto, using(pli_operand::proofs::Noting::noting))]
fn quotient_of<'t, 'a>(
    alloc: Global,
    notes: &mut Notes,
    place: Place,
    precision: u64,
    dividend: Operand<'t, 'a>,
    divisor: Operand<'t, 'a>,
) -> Result<Referent<'t, 'a>, AllocError>
    ensures noted { OnOk result (notes_of notes.new ≡ noted (notes_of notes.old) (B.number_given (B.divided place (Some precision) (operand_of dividend.entry) (operand_of divisor.entry)))) }
    ensures value { IfOk result (λ r. referent_of r ≡ (B.number_given (B.divided place (Some precision) (operand_of dividend.entry) (operand_of divisor.entry))).value) }
{
    let dividend = number_operand(alloc, notes, dividend)?;
    let divisor = number_operand(alloc, notes, divisor)?;
    Ok(number_answer(alloc, node::divided(alloc, precision, dividend, divisor)?)?)
}

#[tactic(auto, using(pli_operand::proofs::Noting::noting))]
fn divided<'t, 'a>(
    alloc: Global,
    notes: &mut Notes,
    place: Place,
    precision: Option<u64>,
    dividend: Operand<'t, 'a>,
    divisor: Operand<'t, 'a>,
) -> Result<Referent<'t, 'a>, AllocError>
    ensures noted { OnOk result (notes_of notes.new ≡ noted (notes_of notes.old) (B.number_given (B.divided place precision (operand_of dividend.entry) (operand_of divisor.entry)))) }
    ensures value { IfOk result (λ r. referent_of r ≡ (B.number_given (B.divided place precision (operand_of dividend.entry) (operand_of divisor.entry))).value) }
{
    match precision {
        None => Ok(no_quotient(alloc, notes, place, dividend, divisor)?),
        Some(precision) => quotient_of(alloc, notes, place, precision, dividend, divisor),
    }
}

#[tactic(auto, using(pli_operand::proofs::Noting::noting))]
fn scaled<'t, 'a>(
    alloc: Global,
    notes: &mut Notes,
    place: Place,
    precision: Option<u64>,
    scale: Option<i128>,
    dividend: Operand<'t, 'a>,
    divisor: Operand<'t, 'a>,
) -> Result<Referent<'t, 'a>, AllocError>
    ensures noted { OnOk result (notes_of notes.new ≡ noted (notes_of notes.old) (B.number_given (if B.is_zero scale then B.divided place precision (operand_of dividend.entry) (operand_of divisor.entry) else B.bad_number place))) }
    ensures value { IfOk result (λ r. referent_of r ≡ (B.number_given (if B.is_zero scale then B.divided place precision (operand_of dividend.entry) (operand_of divisor.entry) else B.bad_number place)).value) }
{
    if is_zero(scale) {
        return divided(alloc, notes, place, precision, dividend, divisor);
    }
    no_quotient(alloc, notes, place, dividend, divisor)
}

/// DIVIDE of other than three.
#[tactic(auto, using(pli_operand::proofs::Noting::noting, crate::proofs::Counted::bad_quotient))]
fn quotient_of_four<'t, 'a>(
    alloc: Global,
    notes: &mut Notes,
    place: Place,
    operands: Vec<Operand<'t, 'a>>,
) -> Result<Referent<'t, 'a>, AllocError>
    requires { length operands.items ≢ 3 }
    ensures noted { OnOk result (notes_of notes.new ≡ noted (notes_of notes.old) (B.number_given (B.quotient place (map operand_of operands.entry.items)))) }
    ensures value { IfOk result (λ r. referent_of r ≡ (B.number_given (B.quotient place (map operand_of operands.entry.items))).value) }
{
    match four(operands.into_iter()) {
        Some(
            Quadruple {
                first: dividend,
                second: divisor,
                third: precision,
                fourth: scale,
            },
        ) => {
            let precision = constant_within(OPERATOR_DIGITS, precision.constant);
            scaled(
                alloc,
                notes,
                place,
                precision,
                scale.constant,
                dividend,
                divisor,
            )
        }
        None => Ok(bad_number(alloc, notes, place)?),
    }
}

/// DIVIDE.
#[tactic(auto, using(pli_operand::proofs::Noting::noting))]
pub fn quotient<'t, 'a>(
    alloc: Global,
    notes: &mut Notes,
    place: Place,
    operands: Vec<Operand<'t, 'a>>,
) -> Result<Referent<'t, 'a>, AllocError>
    ensures noted { OnOk result (notes_of notes.new ≡ noted (notes_of notes.old) (B.number_given (B.quotient place (map operand_of operands.entry.items)))) }
    ensures value { IfOk result (λ r. referent_of r ≡ (B.number_given (B.quotient place (map operand_of operands.entry.items))).value) }
{
    if operands.len() != 3 {
        return quotient_of_four(alloc, notes, place, operands);
    }
    match three(operands.into_iter()) {
        Some(
            Triple {
                first: dividend,
                second: divisor,
                third: precision,
            },
        ) => {
            let precision = constant_within(OPERATOR_DIGITS, precision.constant);
            divided(alloc, notes, place, precision, dividend, divisor)
        }
        None => Ok(bad_number(alloc, notes, place)?),
    }
}
