// What DO says of its turns takes, behind what is taken already.

ghost use Rattle.std.specs.Prelude.{◌≡◌, IfOk};
ghost use Rattle.pli_language.specs.View.{option_of};
ghost use Rattle.pli_typing.specs.TypedView.{number_of, bit_of, value_of};
ghost use Rattle.pli_typing.specs.TypedStatementView.{counter_of, turns_of};
ghost use Rattle.pli_coding.specs.Statements as form;
ghost use Rattle.pli_frames.specs.TakenView.{taken_of};
ghost use Rattle.pli_frames.specs.Turns as turning;

use crate::forms::{assigned_takes, value_takes};
use crate::taken::Taken;
use crate::temporaries::{bit_takes, number_takes, reference_takes};
use pli_typing::statement::Turns;
use pli_typing::typed::{Bit, Counter, Number, Value};
use std::alloc::AllocError;

fn bit_if_takes(taken: Taken, condition: &Option<Bit>) -> Result<Taken, AllocError>
    ensures { IfOk result (λ t. taken_of t ≡ form.bit_if_takes (taken_of taken) (option_of bit_of condition.now)) }
{
    match condition {
        Some(condition) => bit_takes(taken, condition),
        None => Ok(taken),
    }
}

fn number_if_takes(taken: Taken, number: &Option<Number>) -> Result<Taken, AllocError>
    ensures { IfOk result (λ t. taken_of t ≡ form.number_if_takes (taken_of taken) (option_of number_of number.now)) }
{
    match number {
        Some(number) => number_takes(taken, number),
        None => Ok(taken),
    }
}

fn counter_takes(taken: Taken, counter: &Counter) -> Result<Taken, AllocError>
    ensures { IfOk result (λ t. taken_of t ≡ form.counter_takes (taken_of taken) (counter_of counter.now)) }
{
    let behind = taken.with_number()?;
    match counter {
        Counter::Number { reference, .. } => reference_takes(behind, reference),
        Counter::Text(reference) => reference_takes(behind, reference),
    }
}

/// Start, limit and step, which are evaluated before the first turn.
fn begun_takes(
    taken: Taken,
    start: &Value,
    limit: &Option<Number>,
    step: &Number,
) -> Result<Taken, AllocError>
    ensures { IfOk result (λ t. taken_of t ≡ form.begun_takes (taken_of taken) (value_of start.now) (option_of number_of limit.now) (number_of step.now)) }
{
    let counted = number_if_takes(taken, limit)?.most(number_takes(taken, step)?);
    Ok(value_takes(taken, start)?.most(counted))
}

/// What each turn takes, with its body.
fn turn_takes(
    taken: Taken,
    counter: &Counter,
    condition: &Option<Bit>,
    body: Taken,
) -> Result<Taken, AllocError>
    ensures { IfOk result (λ t. taken_of t ≡ form.turn_takes (taken_of taken) (counter_of counter.now) (option_of bit_of condition.now) (taken_of body)) }
{
    let turn = bit_if_takes(taken, condition)?.most(body);
    Ok(counter_takes(taken, counter)?.most(turn))
}

/// The temporaries in use behind which the body of a DO with these turns begins: limit and step wait.
pub fn behind_turns(turns: &Turns, taken: Taken) -> Result<Taken, AllocError>
    ensures { IfOk result (λ t. taken_of t ≡ turning.behind_turns (turns_of turns.now) (taken_of taken)) }
{
    match turns {
        Turns::Once { .. } => Ok(taken),
        Turns::Counted { .. } => taken.with_words(2),
    }
}

/// Of a DO with these turns, whose body takes so much.
pub fn turns_take(taken: Taken, turns: &Turns, body: Taken) -> Result<Taken, AllocError>
    ensures { IfOk result (λ t. taken_of t ≡ turning.turns_take (taken_of taken) (turns_of turns.now) (taken_of body)) }
{
    match turns {
        Turns::Once {
            variable,
            start,
            condition,
        } => {
            let turn = bit_if_takes(taken, condition)?.most(body);
            Ok(assigned_takes(taken, variable, start)?.most(turn))
        }
        Turns::Counted {
            counter,
            start,
            limit,
            step,
            condition,
        } => {
            let before = begun_takes(taken.with_words(3)?, start, limit, step)?;
            Ok(before.most(turn_takes(taken.with_words(2)?, counter, condition, body)?))
        }
    }
}
