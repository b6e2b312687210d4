// DO with a variable that counts: its start, limit and step, and how it goes on from turn to turn. Limit and step stand in two words
// as long as the turns go on, and the start in a third one until it is assigned. A step that is a constant stands in the code.

ghost use Rattle.std.specs.Prelude.{◌≡◌, ◌++◌, pos, OnOk, IfOk};
ghost use Rattle.pli_language.specs.View.{option_of};
ghost use Rattle.pli_typing.specs.TypedTree as Y;
ghost use Rattle.pli_typing.specs.TypedView.{number_of, sign_of, value_of};
ghost use Rattle.pli_typing.specs.TypedStatementView.{counter_of};
ghost use Rattle.pli_meaning.specs.Numbers.{signed_result};
ghost use Rattle.pli_coding.specs.Arithmetic.{sum_code};
ghost use Rattle.pli_coding.specs.Statements as form;
ghost use Rattle.pli_frames.specs.TakenView.{taken_of};
ghost use Rattle.rv_address.specs.Around.{environment_of};
ghost use Rattle.rv_statement.specs.Pieces.{act_begun, kept_added, limit_kept, start_kept, start_read, step_kept, step_loaded, stepped, summed_by};

use pli_frames::fixed::words_place;
use pli_frames::taken::Taken;
use pli_typing::typed::{ArithmeticOperator, Counter, Number, Sign, Value};
use rv_address::environment::Environment;
use rv_allocation::allocation::act_code;
use rv_assembly::code::Code;
use rv_assembly::registers::{a0, a1, frame, u1, u2, u3, zero};
use rv_assignment::scalar::{top_stored, word_stored};
use rv_expr::expression::{bit_code, number_code, reference_code, text_code};
use rv_meaning::instr::{BranchTest, RegisterOp};
use rv_operation::arithmetic::{calculated_code, constant_added, fitted_code};
use rv_operation::reference::{text_loaded, value_loaded};
use rv_operation::text::text_to_number;
use rv_stream::text::as_text;
use std::alloc::{AllocError, Global};

// ---- the words that wait

pub(crate) fn limit_place(taken: Taken) -> Result<i32, AllocError>
    ensures { IfOk result (λ d. d ≡ form.limit_place (taken_of taken)) }
{
    words_place(taken.words, 1)
}

pub(crate) fn step_place(taken: Taken) -> Result<i32, AllocError>
    ensures { IfOk result (λ d. d ≡ form.step_place (taken_of taken)) }
{
    let behind = taken.with_words(1)?;
    words_place(behind.words, 1)
}

fn start_place(taken: Taken) -> Result<i32, AllocError>
    ensures { IfOk result (λ d. d ≡ form.start_place (taken_of taken)) }
{
    let behind = taken.with_words(2)?;
    words_place(behind.words, 1)
}

/// What is in use while turns go on.
pub(crate) fn in_turns(taken: Taken) -> Result<Taken, AllocError>
    ensures { IfOk result (λ t. taken_of t ≡ form.in_turns (taken_of taken)) }
{
    taken.with_words(2)
}

fn before_turns(taken: Taken) -> Result<Taken, AllocError>
    ensures { IfOk result (λ t. taken_of t ≡ form.before_turns (taken_of taken)) }
{
    taken.with_words(3)
}

fn start_kept(code: &mut Code, taken: Taken) -> Result<(), AllocError>
    ensures { OnOk result (code.new ≡ code.old ++ start_kept (taken_of taken)) }
{
    let place = start_place(taken)?;
    code.store_word(frame(), a0(), place)
}

fn limit_kept(code: &mut Code, taken: Taken) -> Result<(), AllocError>
    ensures { OnOk result (code.new ≡ code.old ++ limit_kept (taken_of taken)) }
{
    let place = limit_place(taken)?;
    code.store_word(frame(), a0(), place)
}

fn step_kept(code: &mut Code, taken: Taken) -> Result<(), AllocError>
    ensures { OnOk result (code.new ≡ code.old ++ step_kept (taken_of taken)) }
{
    let place = step_place(taken)?;
    code.store_word(frame(), a0(), place)
}

fn start_loaded(code: &mut Code, taken: Taken) -> Result<(), AllocError>
    ensures { OnOk result (code.new ≡ code.old ++ form.start_loaded (taken_of taken)) }
{
    let place = start_place(taken)?;
    code.load_word(a0(), frame(), place)
}

// ---- steps that are constants

fn signed(sign: Sign, value: u64) -> i128
    ensures { result ≡ signed_result (sign_of sign) (pos value) }
{
    match sign {
        Sign::Positive => i128::from(value),
        Sign::Negative => -i128::from(value),
    }
}

#[tactic(auto, unfolding(pli_typing::specs::TypedView::number_of))]
fn signed_constant(sign: Sign, operand: &Number) -> Option<i128>
    ensures { result ≡ form.constant_step (Y.Signed (sign_of sign) (number_of operand.now)) }
{
    match operand {
        Number::Constant(value) => Some(signed(sign, *value)),
        _ => None,
    }
}

/// The constant that a step is, if it is one.
#[tactic(auto, unfolding(pli_typing::specs::TypedView::number_of))]
pub(crate) fn constant_step(step: &Number) -> Option<i128>
    ensures { result ≡ form.constant_step (number_of step.now) }
{
    match step {
        Number::Constant(value) => Some(i128::from(*value)),
        Number::Signed { sign, operand } => signed_constant(*sign, operand),
        _ => None,
    }
}

// ---- before the first turn

/// A start isn't converted before limit and step are evaluated; a text waits on the stack.
fn start_code(
    alloc: Global,
    code: &mut Code,
    environment: &Environment,
    taken: Taken,
    start: &Value,
) -> Result<(), AllocError>
    ensures { OnOk result (code.new ≡ code.old ++ form.start_code (environment_of environment.now) (taken_of taken) (value_of start.now)) }
{
    let before = before_turns(taken)?;
    match start {
        Value::Number { value, .. } => {
            number_code(alloc, code, environment, before, value)?;
            start_kept(code, taken)
        }
        Value::Text(text) => text_code(alloc, code, environment, before, text),
        Value::Bit(bit) => {
            bit_code(alloc, code, environment, before, bit)?;
            start_kept(code, taken)
        }
        Value::Pointer(_) => Ok(()),
        Value::Offset { .. } => Ok(()),
        Value::Null => Ok(()),
    }
}

fn limit_code(
    alloc: Global,
    code: &mut Code,
    environment: &Environment,
    taken: Taken,
    limit: &Option<Number>,
) -> Result<(), AllocError>
    ensures { OnOk result (code.new ≡ code.old ++ form.limit_code (environment_of environment.now) (taken_of taken) (option_of number_of limit.now)) }
{
    match limit {
        Some(limit) => {
            let before = before_turns(taken)?;
            number_code(alloc, code, environment, before, limit)?;
            limit_kept(code, taken)
        }
        None => Ok(()),
    }
}

fn step_code(
    alloc: Global,
    code: &mut Code,
    environment: &Environment,
    taken: Taken,
    step: &Number,
) -> Result<(), AllocError>
    ensures { OnOk result (code.new ≡ code.old ++ form.step_code (environment_of environment.now) (taken_of taken) (number_of step.now)) }
{
    match constant_step(step) {
        Some(_) => Ok(()),
        None => {
            let before = before_turns(taken)?;
            number_code(alloc, code, environment, before, step)?;
            step_kept(code, taken)
        }
    }
}

fn text_started(code: &mut Code, taken: Taken, start: &Value) -> Result<(), AllocError>
    ensures { OnOk result (code.new ≡ code.old ++ form.text_started (taken_of taken) (value_of start.now)) }
{
    match start {
        Value::Number { precision, .. } => {
            start_loaded(code, taken)?;
            as_text(code, *precision)
        }
        Value::Text(_) => Ok(()),
        Value::Bit(_) => {
            start_loaded(code, taken)?;
            as_text(code, 0)
        }
        Value::Pointer(_) => Ok(()),
        Value::Offset { .. } => Ok(()),
        Value::Null => Ok(()),
    }
}

fn start_read(code: &mut Code, taken: Taken, start: &Value) -> Result<(), AllocError>
    ensures { OnOk result (code.new ≡ code.old ++ start_read (taken_of taken) (value_of start.now)) }
{
    match start {
        Value::Number { .. } => start_loaded(code, taken),
        Value::Text(_) => {
            code.small(a0(), 0)?;
            code.tested_service(26)
        }
        Value::Bit(_) => start_loaded(code, taken),
        Value::Pointer(_) => start_loaded(code, taken),
        Value::Offset { .. } => start_loaded(code, taken),
        Value::Null => start_loaded(code, taken),
    }
}

#[tactic(auto, using(crate::proofs::Counted::number_started_is))]
fn number_started(
    code: &mut Code,
    taken: Taken,
    precision: u64,
    start: &Value,
) -> Result<(), AllocError>
    ensures { OnOk result (code.new ≡ code.old ++ form.number_started (taken_of taken) precision (value_of start.now)) }
{
    start_read(code, taken, start)?;
    fitted_code(code, in_turns(taken)?, precision)
}

/// The start, as the counter is to have it.
fn started_code(
    code: &mut Code,
    taken: Taken,
    counter: &Counter,
    start: &Value,
) -> Result<(), AllocError>
    ensures { OnOk result (code.new ≡ code.old ++ form.started_code (taken_of taken) (counter_of counter.now) (value_of start.now)) }
{
    match counter {
        Counter::Number { precision, .. } => number_started(code, taken, *precision, start),
        Counter::Text(_) => text_started(code, taken, start),
    }
}

/// Start, limit and step.
pub(crate) fn count_begun(
    alloc: Global,
    code: &mut Code,
    environment: &Environment,
    taken: Taken,
    counter: &Counter,
    start: &Value,
    limit: &Option<Number>,
    step: &Number,
) -> Result<(), AllocError>
    ensures { OnOk result (code.new ≡ code.old ++ form.count_begun (environment_of environment.now) (taken_of taken) (counter_of counter.now) (value_of start.now) (option_of number_of limit.now) (number_of step.now)) }
{
    start_code(alloc, code, environment, taken, start)?;
    limit_code(alloc, code, environment, taken, limit)?;
    step_code(alloc, code, environment, taken, step)?;
    started_code(code, taken, counter, start)
}

// ---- in each turn

/// The value in a0, or the top text, is assigned.
#[tactic(auto, unfolding(rv_assignment::specs::Pieces::word_put, rv_assignment::specs::Pieces::top_put))]
pub(crate) fn counter_stored(
    alloc: Global,
    code: &mut Code,
    environment: &Environment,
    taken: Taken,
    counter: &Counter,
) -> Result<(), AllocError>
    ensures { OnOk result (code.new ≡ code.old ++ form.counter_stored (environment_of environment.now) (taken_of taken) (counter_of counter.now)) }
{
    let inside = in_turns(taken)?;
    match counter {
        Counter::Number { reference, .. } => {
            word_stored(alloc, code, environment, inside, reference)
        }
        Counter::Text(reference) => top_stored(alloc, code, environment, inside, reference),
    }
}

#[tactic(auto, unfolding(rv_operation::specs::Pieces::value_loaded, rv_operation::specs::Pieces::text_loaded, rv_operation::specs::Pieces::text_to_number))]
pub(crate) fn counter_read(
    alloc: Global,
    code: &mut Code,
    environment: &Environment,
    taken: Taken,
    counter: &Counter,
) -> Result<(), AllocError>
    ensures { OnOk result (code.new ≡ code.old ++ form.counter_read (environment_of environment.now) (taken_of taken) (counter_of counter.now)) }
{
    let inside = in_turns(taken)?;
    match counter {
        Counter::Number { reference, .. } => {
            reference_code(alloc, code, environment, inside, reference)?;
            value_loaded(code, environment, reference)
        }
        Counter::Text(reference) => {
            reference_code(alloc, code, environment, inside, reference)?;
            text_loaded(code, environment, reference)?;
            text_to_number(code)
        }
    }
}

fn counter_converted(code: &mut Code, taken: Taken, counter: &Counter) -> Result<(), AllocError>
    ensures { OnOk result (code.new ≡ code.old ++ form.counter_converted (taken_of taken) (counter_of counter.now)) }
{
    match counter {
        Counter::Number { precision, .. } => fitted_code(code, in_turns(taken)?, *precision),
        Counter::Text(_) => as_text(code, 31),
    }
}

/// The act of a step.
#[tactic(auto, unfolding(crate::specs::Pieces::act_begun))]
fn act_begun(code: &mut Code, line: u32) -> Result<(), AllocError>
    ensures { OnOk result (code.new ≡ code.old ++ act_begun line) }
{
    code.number(a0(), line)?;
    code.small(a1(), 1)?;
    code.service(1)
}

fn step_loaded(code: &mut Code, taken: Taken) -> Result<(), AllocError>
    ensures { OnOk result (code.new ≡ code.old ++ step_loaded (taken_of taken)) }
{
    let place = step_place(taken)?;
    code.load_word(a0(), frame(), place)
}

fn summed(code: &mut Code, taken: Taken) -> Result<(), AllocError>
    ensures { OnOk result (code.new ≡ code.old ++ sum_code (form.in_turns (taken_of taken))) }
{
    let inside = in_turns(taken)?;
    calculated_code(code, inside, ArithmeticOperator::Sum)
}

#[tactic(auto, unfolding(crate::specs::Pieces::kept_added))]
fn kept_added(code: &mut Code, taken: Taken) -> Result<(), AllocError>
    ensures { OnOk result (code.new ≡ code.old ++ kept_added (taken_of taken)) }
{
    code.copy(u1(), a0())?;
    step_loaded(code, taken)?;
    summed(code, taken)
}

/// The step and the value in a0.
#[tactic(auto, unfolding(crate::specs::Pieces::summed_by, crate::specs::Pieces::kept_added))]
fn summed_by(code: &mut Code, taken: Taken, step: Option<i128>) -> Result<(), AllocError>
    ensures { OnOk result (code.new ≡ code.old ++ summed_by (taken_of taken) step) }
{
    match step {
        Some(constant) => constant_added(code, in_turns(taken)?, constant),
        None => kept_added(code, taken),
    }
}

/// The next value, with the line of the DO.
#[tactic(auto, using(crate::proofs::Counted::steps))]
pub(crate) fn stepped_code(
    alloc: Global,
    code: &mut Code,
    environment: &Environment,
    taken: Taken,
    counter: &Counter,
    step: Option<i128>,
    line: u32,
) -> Result<(), AllocError>
    ensures { OnOk result (code.new ≡ code.old ++ stepped (environment_of environment.now) (taken_of taken) (counter_of counter.now) step line) }
{
    act_begun(code, line)?;
    counter_read(alloc, code, environment, taken, counter)?;
    summed_by(code, taken, step)?;
    counter_converted(code, taken, counter)
}
