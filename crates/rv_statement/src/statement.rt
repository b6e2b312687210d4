// The code of statements. Each begins with its act, which sets its line.

ghost use Rattle.std.specs.Prelude.{◌≡◌, ◌++◌, OnOk};
ghost use Rattle.pli_language.specs.View.{option_of};
ghost use Rattle.pli_typing.specs.TypedView.{bit_of, number_of, reference_of, stored_of, value_of};
ghost use Rattle.pli_typing.specs.TypedStatementView.{block_head_of, counter_of, stmt_of, stmts_of, turns_of};
ghost use Rattle.pli_coding.specs.Environments as environments;
ghost use Rattle.pli_coding.specs.Statements as form;
ghost use Rattle.pli_frames.specs.TakenView.{taken_of};
ghost use Rattle.rv_address.specs.Around.{environment_of};
ghost use Rattle.rv_statement.specs.Pieces.{begin_statement, count_statement, if_else_statement, if_statement, once_statement, turns_statement, unit_statement, while_statement};

use crate::ahead::{jump_over_if, otherwise};
use crate::counter::{constant_step, in_turns};
use crate::enclosing::{
    block_begun, block_ended, counting, once_begun, owner_of_unit, unit_announced, unit_begun,
    unit_ended,
};
use crate::goto::marked;
use crate::held::held_with;
use crate::single::{
    acted, aggregate_statement, allocate_statement, area_statement, assign_statement,
    call_statement, elements_statement, emptied_statement, free_statement, get_statement,
    goto_statement, put_statement, return_statement, revert_statement, signal_statement,
    stop_statement, system_statement, value_statement,
};
use crate::temporaries::{block_takes, unit_takes};
use crate::tested::test_begun;
use crate::turn::{turn_begun, turn_ended, while_begun, while_ended};
use pli_frames::taken::{Taken, none_taken};
use pli_language::condition::Condition;
use pli_typing::statement::{BlockHead, Stmt, Stmts, Turns};
use pli_typing::typed::{Bit, Counter, Number, Reference, Stored, Value};
use rv_address::environment::Environment;
use rv_assembly::code::Code;
use std::alloc::{AllocError, Global};

/// A statement.
#[cycle(walk)]
#[tactic(auto, using(crate::proofs::Walks::statements))]
pub fn stmt_code(
    alloc: Global,
    code: &mut Code,
    environment: &Environment,
    taken: Taken,
    statement: &Stmt,
) -> Result<(), AllocError>
    ensures { OnOk result (code.new ≡ code.old ++ form.stmt_code (environment_of environment.now) (taken_of taken) (stmt_of statement.now)) }
{
    match statement {
        Stmt::Null { line } => acted(code, *line),
        Stmt::Assign {
            target,
            source,
            line,
        } => assign_statement(alloc, code, environment, taken, target, source, *line),
        Stmt::AssignElements {
            target,
            source,
            line,
        } => elements_statement(alloc, code, environment, taken, target, source, *line),
        Stmt::AssignAggregate {
            target,
            source,
            line,
        } => aggregate_statement(alloc, code, environment, taken, target, source, *line),
        Stmt::AssignArea {
            target,
            source,
            line,
        } => area_statement(code, environment, taken, *target, *source, *line),
        Stmt::EmptyArea { target, line } => {
            emptied_statement(code, environment, taken, *target, *line)
        }
        Stmt::If {
            condition,
            unit,
            line,
        } => if_code(alloc, code, environment, taken, condition, unit, *line),
        Stmt::IfElse {
            condition,
            unit,
            otherwise,
            line,
        } => if_else_code(
            alloc,
            code,
            environment,
            taken,
            condition,
            unit,
            otherwise,
            *line,
        ),
        Stmt::Do { body, line } => {
            acted(code, *line)?;
            stmts_code(alloc, code, environment, taken, body)
        }
        Stmt::DoWhile {
            condition,
            body,
            line,
        } => while_code(alloc, code, environment, taken, condition, body, *line),
        Stmt::DoTurns { turns, body, line } => {
            turns_code(alloc, code, environment, taken, turns, body, *line)
        }
        Stmt::Begin { head, body } => begin_code(alloc, code, environment, *head, body),
        Stmt::OnSystem { condition, line } => system_statement(code, *condition, *line),
        Stmt::OnUnit {
            condition,
            head,
            body,
            line,
        } => unit_code(alloc, code, environment, *condition, *head, body, *line),
        Stmt::Call { call, line } => {
            call_statement(alloc, code, environment, taken, call, *line)
        }
        Stmt::Return { line } => return_statement(code, environment, *line),
        Stmt::ReturnValue { kind, value, line } => {
            value_statement(alloc, code, environment, taken, *kind, value, *line)
        }
        Stmt::Goto { level, label, line } => {
            goto_statement(alloc, code, environment, *level, label, *line)
        }
        Stmt::Stop { line } => stop_statement(code, *line),
        Stmt::Signal { condition, line } => signal_statement(code, *condition, *line),
        Stmt::Revert { condition, line } => revert_statement(code, *condition, *line),
        Stmt::Allocate { allocations, line } => {
            allocate_statement(alloc, code, environment, taken, allocations, *line)
        }
        Stmt::Free { freeings, line } => {
            free_statement(alloc, code, environment, taken, freeings, *line)
        }
        Stmt::Get { skip, pairs, line } => {
            get_statement(alloc, code, environment, taken, *skip, pairs, *line)
        }
        Stmt::Put { skip, pairs, line } => {
            put_statement(alloc, code, environment, taken, *skip, pairs, *line)
        }
    }
}

#[cycle(walk)]
fn if_code(
    alloc: Global,
    code: &mut Code,
    environment: &Environment,
    taken: Taken,
    condition: &Bit,
    unit: &Stmt,
    line: u32,
) -> Result<(), AllocError>
    ensures { OnOk result (code.new ≡ code.old ++ if_statement (environment_of environment.now) (taken_of taken) (bit_of condition.now) (form.stmt_code (environment_of environment.now) (taken_of taken) (stmt_of unit.now)) line) }
{
    let met = test_begun(alloc, code, environment, taken, condition, line)?;
    stmt_code(alloc, code, environment, taken, unit)?;
    code.jump_over(met);
    Ok(())
}

#[cycle(walk)]
fn if_else_code(
    alloc: Global,
    code: &mut Code,
    environment: &Environment,
    taken: Taken,
    condition: &Bit,
    unit: &Stmt,
    other: &Stmt,
    line: u32,
) -> Result<(), AllocError>
    ensures { OnOk result (code.new ≡ code.old ++ if_else_statement (environment_of environment.now) (taken_of taken) (bit_of condition.now) (form.stmt_code (environment_of environment.now) (taken_of taken) (stmt_of unit.now)) (form.stmt_code (environment_of environment.now) (taken_of taken) (stmt_of other.now)) line) }
{
    let met = test_begun(alloc, code, environment, taken, condition, line)?;
    stmt_code(alloc, code, environment, taken, unit)?;
    let end = otherwise(code, met)?;
    stmt_code(alloc, code, environment, taken, other)?;
    code.jump_over(end);
    Ok(())
}

#[cycle(walk)]
fn while_code(
    alloc: Global,
    code: &mut Code,
    environment: &Environment,
    taken: Taken,
    condition: &Bit,
    body: &Stmts,
    line: u32,
) -> Result<(), AllocError>
    ensures { OnOk result (code.new ≡ code.old ++ while_statement (environment_of environment.now) (taken_of taken) (bit_of condition.now) (form.stmts_code (environment_of environment.now) (taken_of taken) (stmts_of body.now)) line) }
{
    let repeat = while_begun(alloc, code, environment, taken, condition, line)?;
    stmts_code(alloc, code, environment, taken, body)?;
    while_ended(code, repeat)?;
    Ok(())
}

/// DO with a variable, by what it says of its turns.
#[cycle(walk)]
#[tactic(auto, using(crate::proofs::Walks::turns))]
fn turns_code(
    alloc: Global,
    code: &mut Code,
    environment: &Environment,
    taken: Taken,
    turns: &Turns,
    body: &Stmts,
    line: u32,
) -> Result<(), AllocError>
    ensures { OnOk result (code.new ≡ code.old ++ turns_statement (environment_of environment.now) (taken_of taken) (turns_of turns.now) (stmts_of body.now) line) }
{
    match turns {
        Turns::Once {
            variable,
            start,
            condition,
        } => once_code(
            alloc,
            code,
            environment,
            taken,
            variable,
            start,
            condition,
            body,
            line,
        ),
        Turns::Counted {
            counter,
            start,
            limit,
            step,
            condition,
        } => count_code(
            alloc,
            code,
            environment,
            taken,
            counter,
            start,
            limit,
            step,
            condition,
            body,
            line,
        ),
    }
}

#[cycle(walk)]
fn once_code(
    alloc: Global,
    code: &mut Code,
    environment: &Environment,
    taken: Taken,
    variable: &Reference,
    start: &Stored,
    condition: &Option<Bit>,
    body: &Stmts,
    line: u32,
) -> Result<(), AllocError>
    ensures { OnOk result (code.new ≡ code.old ++ once_statement (environment_of environment.now) (taken_of taken) (reference_of variable.now) (stored_of start.now) (option_of bit_of condition.now) (form.stmts_code (environment_of environment.now) (taken_of taken) (stmts_of body.now)) line) }
{
    let end = once_begun(
        alloc,
        code,
        environment,
        taken,
        variable,
        start,
        condition,
        line,
    )?;
    stmts_code(alloc, code, environment, taken, body)?;
    jump_over_if(code, end);
    Ok(())
}

#[cycle(walk)]
fn count_code(
    alloc: Global,
    code: &mut Code,
    environment: &Environment,
    taken: Taken,
    counter: &Counter,
    start: &Value,
    limit: &Option<Number>,
    step: &Number,
    condition: &Option<Bit>,
    body: &Stmts,
    line: u32,
) -> Result<(), AllocError>
    ensures { OnOk result (code.new ≡ code.old ++ count_statement (environment_of environment.now) (taken_of taken) (counter_of counter.now) (value_of start.now) (option_of number_of limit.now) (number_of step.now) (option_of bit_of condition.now) (form.stmts_code (environment_of environment.now) (form.in_turns (taken_of taken)) (stmts_of body.now)) line) }
{
    counting(
        alloc,
        code,
        environment,
        taken,
        counter,
        start,
        limit,
        step,
        line,
    )?;
    let fixed = constant_step(step);
    let turn = turn_begun(
        alloc,
        code,
        environment,
        taken,
        counter,
        limit,
        fixed,
        condition,
        line,
    )?;
    let inside = in_turns(taken)?;
    stmts_code(alloc, code, environment, inside, body)?;
    turn_ended(alloc, code, environment, taken, counter, fixed, line, turn)?;
    Ok(())
}

/// A begin block. No temporaries wait in registers where it begins.
#[cycle(walk)]
fn begin_code(
    alloc: Global,
    code: &mut Code,
    environment: &Environment,
    head: BlockHead,
    body: &Stmts,
) -> Result<(), AllocError>
    ensures { OnOk result (code.new ≡ code.old ++ begin_statement (environment_of environment.now) (block_head_of head) (form.block_words (environment_of environment.now) head.number (stmts_of body.now)) (form.stmts_code (form.begin_environment (block_head_of head) (environment_of environment.now)) environments.none_taken (stmts_of body.now))) }
{
    let own = block_takes(environment, head.number, body)?;
    let inside = environment.in_frame(head.number, head.level);
    block_begun(alloc, code, &inside, head.level, own.words, head.line)?;
    stmts_code(alloc, code, &inside, none_taken(), body)?;
    block_ended(code, own.words)?;
    Ok(())
}

/// An on-unit, which stands where it is established, and is jumped over.
#[cycle(walk)]
fn unit_code(
    alloc: Global,
    code: &mut Code,
    environment: &Environment,
    condition: Condition,
    head: BlockHead,
    body: &Stmts,
    line: u32,
) -> Result<(), AllocError>
    ensures { OnOk result (code.new ≡ code.old ++ unit_statement (environment_of environment.now) condition (block_head_of head) (form.unit_words (environment_of environment.now) (block_head_of head) (block_head_of head).kind (stmts_of body.now)) (form.unit_held (environment_of environment.now) (block_head_of head) (block_head_of head).kind (stmts_of body.now)) (form.stmts_code (form.unit_environment (block_head_of head) (environment_of environment.now)) environments.none_taken (stmts_of body.now)) line) }
{
    let own = unit_takes(environment, head, body)?;
    let held = held_with(environment, own.registers, body)?;
    let inside = environment
        .in_frame(head.number, head.level)
        .owned_by(owner_of_unit(head));
    let end = unit_announced(code, condition, line)?;
    unit_begun(alloc, code, &inside, head, own.words, held)?;
    stmts_code(alloc, code, &inside, none_taken(), body)?;
    unit_ended(code, head, own.words, held)?;
    code.jump_over(end);
    Ok(())
}

/// Statements in their order, each behind its labels.
#[cycle(walk)]
pub fn stmts_code(
    alloc: Global,
    code: &mut Code,
    environment: &Environment,
    taken: Taken,
    statements: &Stmts,
) -> Result<(), AllocError>
    ensures { OnOk result (code.new ≡ code.old ++ form.stmts_code (environment_of environment.now) (taken_of taken) (stmts_of statements.now)) }
{
    let mut rest = statements;
    loop {
        match rest {
            Stmts::End { labels } => {
                marked(alloc, code, environment.block, labels)?;
                return Ok(());
            }
            Stmts::More {
                labels,
                first,
                rest: behind,
            } => {
                marked(alloc, code, environment.block, labels)?;
                stmt_code(alloc, code, environment, taken, first)?;
                rest = behind;
            }
        }
    }
}
