// Tests of statements: what follows is jumped over where they aren't met.

ghost use Rattle.std.specs.Prelude.{◌≡◌, ◌++◌, None, OnOk, IfOk};
ghost use Rattle.pli_language.specs.View.{option_of};
ghost use Rattle.pli_typing.specs.TypedView.{bit_of, number_of};
ghost use Rattle.pli_typing.specs.TypedStatementView.{counter_of};
ghost use Rattle.pli_coding.specs.Statements as form;
ghost use Rattle.pli_frames.specs.TakenView.{taken_of};
ghost use Rattle.rv_address.specs.Around.{environment_of};
ghost use Rattle.rv_statement.specs.Ahead.{ComesTo, ComesToIf};
ghost use Rattle.rv_statement.specs.Pieces.{bit_tested, flag_tested, limit_ahead, limit_compared, limit_loaded, step_beside, test_begun, turned_if_negative};

use crate::ahead::ahead_unless;
use crate::counter::{counter_read, in_turns, limit_place, step_place};
use pli_frames::taken::Taken;
use pli_typing::typed::{Bit, Counter, Number};
use rv_address::environment::Environment;
use rv_allocation::allocation::act_code;
use rv_assembly::code::Code;
use rv_assembly::place::Place;
use rv_assembly::registers::{a0, frame, u1, u2, u3, zero};
use rv_expr::expression::bit_code;
use rv_meaning::instr::{BranchTest, RegisterOp};
use std::alloc::{AllocError, Global};

/// Past what is written from here on, unless a bit is 1.
pub(crate) fn bit_tested(
    alloc: Global,
    code: &mut Code,
    environment: &Environment,
    taken: Taken,
    bit: &Bit,
) -> Result<Place, AllocError>
    ensures written { OnOk result (code.new ≡ code.old ++ bit_tested (environment_of environment.now) (taken_of taken) (bit_of bit.now) 0) }
    ensures place { IfOk result (λ p. ComesTo code.new p (λ n. code.old ++ bit_tested (environment_of environment.now) (taken_of taken) (bit_of bit.now) n)) }
{
    bit_code(alloc, code, environment, taken, bit)?;
    Ok(ahead_unless(code, BranchTest::NotEqual, a0(), zero())?)
}

/// The same behind an act.
pub(crate) fn test_begun(
    alloc: Global,
    code: &mut Code,
    environment: &Environment,
    taken: Taken,
    bit: &Bit,
    line: u32,
) -> Result<Place, AllocError>
    ensures written { OnOk result (code.new ≡ code.old ++ test_begun (environment_of environment.now) (taken_of taken) (bit_of bit.now) line 0) }
    ensures place { IfOk result (λ p. ComesTo code.new p (λ n. code.old ++ test_begun (environment_of environment.now) (taken_of taken) (bit_of bit.now) line n)) }
{
    act_code(code, line)?;
    Ok(bit_tested(alloc, code, environment, taken, bit)?)
}

// ---- of each turn

/// A step below 0 compares the other way.
#[tactic(auto, using(rv_assembly::proofs::Patching::patching))]
fn turned_if_negative(code: &mut Code) -> Result<(), AllocError>
    ensures { OnOk result (code.new ≡ code.old ++ turned_if_negative) }
{
    let place = code.keep_branch()?;
    code.registers(RegisterOp::SetLess, u3(), a0(), u1())?;
    code.skip_where(place, BranchTest::GreaterOrEqual, u2(), zero());
    Ok(())
}

fn limit_loaded(code: &mut Code, taken: Taken) -> Result<(), AllocError>
    ensures { OnOk result (code.new ≡ code.old ++ limit_loaded (taken_of taken)) }
{
    let place = limit_place(taken)?;
    code.load_word(u1(), frame(), place)
}

fn step_beside(code: &mut Code, taken: Taken) -> Result<(), AllocError>
    ensures { OnOk result (code.new ≡ code.old ++ step_beside (taken_of taken)) }
{
    let place = step_place(taken)?;
    code.load_word(u2(), frame(), place)
}

/// Whether the value in a0 has passed the limit in u1, in u3.
#[tactic(auto, unfolding(crate::specs::Pieces::limit_compared))]
fn limit_compared(code: &mut Code, taken: Taken) -> Result<(), AllocError>
    ensures { OnOk result (code.new ≡ code.old ++ limit_compared (taken_of taken)) }
{
    step_beside(code, taken)?;
    code.registers(RegisterOp::SetLess, u3(), u1(), a0())?;
    turned_if_negative(code)
}

/// Past what is written from here on, where u3 is 1.
fn flag_tested(code: &mut Code) -> Result<Place, AllocError>
    ensures written { OnOk result (code.new ≡ code.old ++ flag_tested 0) }
    ensures place { IfOk result (λ p. ComesTo code.new p (λ n. code.old ++ flag_tested n)) }
{
    Ok(ahead_unless(code, BranchTest::Equal, u3(), zero())?)
}

/// Past what is written from here on, where a0 is above u1, or where turns go down and it is below u1.
fn passed(code: &mut Code, falls: bool) -> Result<Place, AllocError>
    ensures written { OnOk result (code.new ≡ code.old ++ form.passed falls 0) }
    ensures place { IfOk result (λ p. ComesTo code.new p (λ n. code.old ++ form.passed falls n)) }
{
    if falls {
        Ok(ahead_unless(code, BranchTest::GreaterOrEqual, a0(), u1())?)
    } else {
        Ok(ahead_unless(code, BranchTest::GreaterOrEqual, u1(), a0())?)
    }
}

/// The same by the step that waits.
fn passed_by_word(code: &mut Code, taken: Taken) -> Result<Place, AllocError>
    ensures written { OnOk result (code.new ≡ code.old ++ form.passed_by (taken_of taken) None 0) }
    ensures place { IfOk result (λ p. ComesTo code.new p (λ n. code.old ++ form.passed_by (taken_of taken) None n)) }
{
    limit_compared(code, taken)?;
    Ok(flag_tested(code)?)
}

/// Past what is written from here on, where the value in a0 has passed the limit in u1.
fn passed_by(code: &mut Code, taken: Taken, step: Option<i128>) -> Result<Place, AllocError>
    ensures written { OnOk result (code.new ≡ code.old ++ form.passed_by (taken_of taken) step 0) }
    ensures place { IfOk result (λ p. ComesTo code.new p (λ n. code.old ++ form.passed_by (taken_of taken) step n)) }
{
    match step {
        Some(constant) => Ok(passed(code, constant < 0)?),
        None => Ok(passed_by_word(code, taken)?),
    }
}

/// Past what is written from here on, where the counter has passed the limit.
fn limit_ahead(
    alloc: Global,
    code: &mut Code,
    environment: &Environment,
    taken: Taken,
    counter: &Counter,
    step: Option<i128>,
) -> Result<Place, AllocError>
    ensures written { OnOk result (code.new ≡ code.old ++ limit_ahead (environment_of environment.now) (taken_of taken) (counter_of counter.now) step 0) }
    ensures place { IfOk result (λ p. ComesTo code.new p (λ n. code.old ++ limit_ahead (environment_of environment.now) (taken_of taken) (counter_of counter.now) step n)) }
{
    counter_read(alloc, code, environment, taken, counter)?;
    limit_loaded(code, taken)?;
    Ok(passed_by(code, taken, step)?)
}

/// The test against the limit, if there is one.
pub(crate) fn limit_tested(
    alloc: Global,
    code: &mut Code,
    environment: &Environment,
    taken: Taken,
    counter: &Counter,
    limit: &Option<Number>,
    step: Option<i128>,
) -> Result<Option<Place>, AllocError>
    ensures written { OnOk result (code.new ≡ code.old ++ form.limit_kept (environment_of environment.now) (taken_of taken) (counter_of counter.now) (option_of number_of limit.now) step 0) }
    ensures place { IfOk result (λ p. ComesToIf code.new p (λ n. code.old ++ form.limit_kept (environment_of environment.now) (taken_of taken) (counter_of counter.now) (option_of number_of limit.now) step n)) }
{
    match limit {
        Some(_) => Ok(Some(limit_ahead(alloc, code, environment, taken, counter, step)?)),
        None => Ok(None),
    }
}

/// The test of WHILE, if there is one.
pub(crate) fn while_tested(
    alloc: Global,
    code: &mut Code,
    environment: &Environment,
    taken: Taken,
    condition: &Option<Bit>,
) -> Result<Option<Place>, AllocError>
    ensures written { OnOk result (code.new ≡ code.old ++ form.while_kept (environment_of environment.now) (taken_of taken) (option_of bit_of condition.now) 0) }
    ensures place { IfOk result (λ p. ComesToIf code.new p (λ n. code.old ++ form.while_kept (environment_of environment.now) (taken_of taken) (option_of bit_of condition.now) n)) }
{
    match condition {
        Some(condition) => {
            let inside = in_turns(taken)?;
            Ok(Some(bit_tested(alloc, code, environment, inside, condition)?))
        }
        None => Ok(None),
    }
}
