// What the temporaries of statements take at most, behind what is taken already; a block among them has a frame of its
// own.

ghost use Rattle.std.specs.Prelude.{◌≡◌, IfOk};
ghost use Rattle.pli_typing.specs.TypedStatementView.{block_head_of, stmt_of, stmts_of};
ghost use Rattle.pli_coding.specs.Statements as form;
ghost use Rattle.pli_frames.specs.TakenView.{taken_of};
ghost use Rattle.rv_address.specs.Around.{environment_of};

use pli_frames::forms::{
    aggregate_takes, allocations_take, assigned_takes, elements_takes, freeings_take, get_takes,
    put_takes,
};
use pli_frames::frame::variables_take;
use pli_frames::taken::{Taken, none_taken};
use pli_frames::temporaries::{bit_takes, call_takes, stored_takes};
use pli_frames::turns::{behind_turns, turns_take};
use pli_typing::statement::{BlockHead, BlockKind, Stmt, Stmts};
use rv_address::environment::{Environment, variables_of_block};
use std::alloc::AllocError;

// ---- statements

/// What a statement takes.
#[cycle(takes)]
#[tactic(auto, using(crate::proofs::Taking::statements))]
fn stmt_takes(taken: Taken, statement: &Stmt) -> Result<Taken, AllocError>
    ensures { IfOk result (λ t. taken_of t ≡ form.stmt_takes (taken_of taken) (stmt_of statement.now)) }
{
    match statement {
        Stmt::Assign { target, source, .. } => assigned_takes(taken, target, source),
        Stmt::AssignElements { target, source, .. } => elements_takes(taken, target, source),
        Stmt::AssignAggregate { target, source, .. } => {
            Ok(aggregate_takes(taken, target)?.most(aggregate_takes(taken, source)?))
        }
        Stmt::If {
            condition,
            unit,
            ..
        } => Ok(bit_takes(taken, condition)?.most(stmt_takes(taken, unit)?)),
        Stmt::IfElse {
            condition,
            unit,
            otherwise,
            ..
        } => {
            let test = bit_takes(taken, condition)?;
            let unit = stmt_takes(taken, unit)?;
            Ok(test.most(unit.most(stmt_takes(taken, otherwise)?)))
        }
        Stmt::Do { body, .. } => stmts_take(taken, body),
        Stmt::DoWhile {
            condition,
            body,
            ..
        } => Ok(bit_takes(taken, condition)?.most(stmts_take(taken, body)?)),
        Stmt::DoTurns { turns, body, .. } => {
            let body = stmts_take(behind_turns(turns, taken)?, body)?;
            turns_take(taken, turns, body)
        }
        Stmt::Call { call, .. } => call_takes(taken, &call.arguments),
        Stmt::ReturnValue { value, .. } => stored_takes(taken, value),
        Stmt::Allocate { allocations, .. } => allocations_take(taken, allocations),
        Stmt::Free { freeings, .. } => freeings_take(taken, freeings),
        Stmt::Get { pairs, .. } => get_takes(taken, pairs),
        Stmt::Put { pairs, .. } => put_takes(taken, pairs),
        Stmt::Begin { .. } => Ok(taken),
        Stmt::OnUnit { .. } => Ok(taken),
        Stmt::Null { .. } => Ok(taken),
        Stmt::AssignArea { .. } => Ok(taken),
        Stmt::EmptyArea { .. } => Ok(taken),
        Stmt::OnSystem { .. } => Ok(taken),
        Stmt::Return { .. } => Ok(taken),
        Stmt::Goto { .. } => Ok(taken),
        Stmt::Stop { .. } => Ok(taken),
        Stmt::Signal { .. } => Ok(taken),
        Stmt::Revert { .. } => Ok(taken),
    }
}

/// What statements take, without the blocks among them.
#[cycle(takes)]
#[tactic(auto, using(crate::proofs::Taking::statements))]
pub fn stmts_take(taken: Taken, body: &Stmts) -> Result<Taken, AllocError>
    ensures { IfOk result (λ t. taken_of t ≡ form.stmts_take (taken_of taken) (stmts_of body.now)) }
{
    let mut most = none_taken();
    let mut rest = body;
    while let Stmts::More {
        first,
        rest: behind,
        ..
    } = rest
    {
        most = most.most(stmt_takes(taken, first)?);
        rest = behind;
    }
    Ok(most.most(taken))
}

// ---- blocks

/// What a block takes, with its variables' extents.
pub fn block_takes(
    environment: &Environment,
    block: usize,
    body: &Stmts,
) -> Result<Taken, AllocError>
    ensures { IfOk result (λ t. taken_of t ≡ form.block_takes (environment_of environment.now).program block (stmts_of body.now)) }
{
    let variables = variables_of_block(environment.known.typed, block)?;
    Ok(variables_take(variables)?.most(stmts_take(none_taken(), body)?))
}

/// What an on-unit takes; a simple one declares nothing.
pub(crate) fn unit_takes(
    environment: &Environment,
    head: BlockHead,
    body: &Stmts,
) -> Result<Taken, AllocError>
    ensures { IfOk result (λ t. taken_of t ≡ form.unit_takes (environment_of environment.now).program (block_head_of head) (block_head_of head).kind (stmts_of body.now)) }
{
    match head.kind {
        BlockKind::SimpleUnit => stmts_take(none_taken(), body),
        BlockKind::Procedure => block_takes(environment, head.number, body),
        BlockKind::Begin => block_takes(environment, head.number, body),
        BlockKind::Unit => block_takes(environment, head.number, body),
    }
}
