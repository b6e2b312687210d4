// Turns of DO: what stands before their body and behind it.

ghost use Rattle.std.specs.Prelude.{◌≡◌, ◌++◌, OnOk, IfOk};
ghost use Rattle.pli_language.specs.View.{option_of};
ghost use Rattle.pli_typing.specs.TypedView.{bit_of, number_of};
ghost use Rattle.pli_typing.specs.TypedStatementView.{counter_of};
ghost use Rattle.pli_frames.specs.TakenView.{taken_of};
ghost use Rattle.rv_address.specs.Around.{environment_of};
ghost use Rattle.rv_assembly.specs.Places.{IsPlace, jumped_over};
ghost use Rattle.rv_statement.specs.Ahead.{ComesToIf, IsJumpIf, jumped_if, turned_back};
ghost use Rattle.rv_statement.specs.Pieces.{stepped};
ghost use Rattle.rv_statement.specs.Turning.{TurnBegun, WhileBegun, turn_opening};

use crate::ahead::{jump_over_if, turned_back};
use crate::counter::{counter_stored, stepped_code};
use crate::tested::{limit_tested, test_begun, while_tested};
use pli_frames::taken::Taken;
use pli_typing::typed::{Bit, Counter, Number};
use rv_address::environment::Environment;
use rv_allocation::allocation::act_code;
use rv_assembly::code::Code;
use rv_assembly::place::Place;
use std::alloc::{AllocError, Global};

/// A turn that has begun: how many words stood before it, and its jumps past the last one.
#[derive(Clone, Copy, PartialEq, Eq, Debug)]
pub(crate) struct Turn {
    pub start: usize,
    pub limit: Option<Place>,
    pub condition: Option<Place>,
}

/// What goes on while a condition holds: how many words stood before its test, and the jump past all.
#[derive(Clone, Copy, PartialEq, Eq, Debug)]
pub(crate) struct Repeat {
    pub start: usize,
    pub place: Place,
}

/// The value in a0, or the top text, is assigned; then come the act of the test and the limit.
fn turn_opening(
    alloc: Global,
    code: &mut Code,
    environment: &Environment,
    taken: Taken,
    counter: &Counter,
    limit: &Option<Number>,
    step: Option<i128>,
    line: u32,
) -> Result<Option<Place>, AllocError>
    ensures written { OnOk result (code.new ≡ code.old ++ turn_opening (environment_of environment.now) (taken_of taken) (counter_of counter.now) (option_of number_of limit.now) step line 0) }
    ensures place { IfOk result (λ p. ComesToIf code.new p (λ n. code.old ++ turn_opening (environment_of environment.now) (taken_of taken) (counter_of counter.now) (option_of number_of limit.now) step line n)) }
{
    counter_stored(alloc, code, environment, taken, counter)?;
    act_code(code, line)?;
    Ok(limit_tested(alloc, code, environment, taken, counter, limit, step)?)
}

/// A turn up to its body.
pub(crate) fn turn_begun(
    alloc: Global,
    code: &mut Code,
    environment: &Environment,
    taken: Taken,
    counter: &Counter,
    limit: &Option<Number>,
    step: Option<i128>,
    condition: &Option<Bit>,
    line: u32,
) -> Result<Turn, AllocError>
    ensures { IfOk result (λ u. TurnBegun code.old code.new u (environment_of environment.now) (taken_of taken) (counter_of counter.now) (option_of number_of limit.now) step (option_of bit_of condition.now) line) }
{
    let start = code.size();
    let limit = turn_opening(alloc, code, environment, taken, counter, limit, step, line)?;
    let condition = while_tested(alloc, code, environment, taken, condition)?;
    Ok(Turn {
        start,
        limit,
        condition,
    })
}

/// A turn behind its body, and the way back to its beginning.
pub(crate) fn turn_ended(
    alloc: Global,
    code: &mut Code,
    environment: &Environment,
    taken: Taken,
    counter: &Counter,
    step: Option<i128>,
    line: u32,
    turn: Turn,
) -> Result<(), AllocError>
    requires limit { IsJumpIf code.old turn.limit }
    requires condition { IsJumpIf code.old turn.condition }
    ensures { OnOk result (code.new ≡ jumped_if (jumped_if (turned_back (code.old ++ stepped (environment_of environment.now) (taken_of taken) (counter_of counter.now) step line) turn.start) turn.condition) turn.limit) }
{
    stepped_code(alloc, code, environment, taken, counter, step, line)?;
    turned_back(code, turn.start)?;
    jump_over_if(code, turn.condition);
    jump_over_if(code, turn.limit);
    Ok(())
}

/// The act of a DO WHILE, and its test up to the body.
pub(crate) fn while_begun(
    alloc: Global,
    code: &mut Code,
    environment: &Environment,
    taken: Taken,
    condition: &Bit,
    line: u32,
) -> Result<Repeat, AllocError>
    ensures { IfOk result (λ r. WhileBegun code.old code.new r (environment_of environment.now) (taken_of taken) (bit_of condition.now) line) }
{
    act_code(code, line)?;
    let start = code.size();
    let place = test_begun(alloc, code, environment, taken, condition, line)?;
    Ok(Repeat { start, place })
}

/// Back to the test.
pub(crate) fn while_ended(code: &mut Code, repeat: Repeat) -> Result<(), AllocError>
    requires { IsPlace 2 code.old repeat.place }
    ensures { OnOk result (code.new ≡ jumped_over (turned_back code.old repeat.start) repeat.place) }
{
    turned_back(code, repeat.start)?;
    code.jump_over(repeat.place);
    Ok(())
}
