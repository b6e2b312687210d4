// How many of the registers that hold temporaries procedures and on-units save.

ghost use Rattle.std.specs.Prelude.{◌≡◌, max, min, map, IfOk};
ghost use Rattle.pli_language.specs.View.{name_of};
ghost use Rattle.pli_typing.specs.Resolving.{letters_of};
ghost use Rattle.pli_typing.specs.TypedStatementView.{stmt_of, stmts_of};
ghost use Rattle.pli_coding.specs.Registers.{held_registers};
ghost use Rattle.pli_coding.specs.Statements as form;
ghost use Rattle.rv_address.specs.Around.{environment_of};

use crate::temporaries::block_takes;
use pli_language::expr::Name;
use pli_typing::statement::{Stmt, Stmts};
use rv_address::environment::Environment;
use std::alloc::AllocError;

fn most(first: u8, second: u8) -> u8
    ensures { result ≡ max first second }
{
    first.max(second)
}

/// All, where a label stands: a GOTO to it leaves those of the frames above unrestored.
#[tactic(auto, using(crate::proofs::HeldTaken::no_label, crate::proofs::HeldTaken::some_label))]
fn labels_held(labels: &[Name]) -> u8
    ensures { result ≡ form.labels_held (letters_of (map name_of labels.now)) }
{
    if labels.len() == 0 { 0 } else { 7 }
}

/// Those that a begin block's own temporaries take.
fn block_registers(environment: &Environment, block: usize, body: &Stmts) -> Result<u8, AllocError>
    ensures { IfOk result (λ n. n ≡ (form.block_takes (environment_of environment.now).program block (stmts_of body.now)).registers) }
{
    let taken = block_takes(environment, block, body)?;
    Ok(taken.registers)
}

/// Those of the begin blocks in a statement, which save none, and of its labels.
#[cycle(held)]
#[tactic(auto, using(crate::proofs::HeldTaken::held))]
fn stmt_held(environment: &Environment, statement: &Stmt) -> Result<u8, AllocError>
    ensures { IfOk result (λ n. n ≡ form.stmt_held (environment_of environment.now).program (stmt_of statement.now)) }
{
    match statement {
        Stmt::If { unit, .. } => Ok(stmt_held(environment, unit)?),
        Stmt::IfElse {
            unit,
            otherwise,
            ..
        } => {
            let unit = stmt_held(environment, unit)?;
            Ok(unit.max(stmt_held(environment, otherwise)?))
        }
        Stmt::Do { body, .. } => Ok(stmts_held(environment, body)?),
        Stmt::DoWhile { body, .. } => Ok(stmts_held(environment, body)?),
        Stmt::DoTurns { body, .. } => Ok(stmts_held(environment, body)?),
        Stmt::Begin { head, body } => {
            let own = block_registers(environment, head.number, body)?;
            Ok(own.max(stmts_held(environment, body)?))
        }
        Stmt::OnUnit { .. } => Ok(0),
        Stmt::Assign { .. } => Ok(0),
        Stmt::AssignElements { .. } => Ok(0),
        Stmt::AssignAggregate { .. } => Ok(0),
        Stmt::AssignArea { .. } => Ok(0),
        Stmt::EmptyArea { .. } => Ok(0),
        Stmt::Call { .. } => Ok(0),
        Stmt::ReturnValue { .. } => Ok(0),
        Stmt::Allocate { .. } => Ok(0),
        Stmt::Free { .. } => Ok(0),
        Stmt::Get { .. } => Ok(0),
        Stmt::Put { .. } => Ok(0),
        Stmt::Null { .. } => Ok(0),
        Stmt::OnSystem { .. } => Ok(0),
        Stmt::Return { .. } => Ok(0),
        Stmt::Goto { .. } => Ok(0),
        Stmt::Stop { .. } => Ok(0),
        Stmt::Signal { .. } => Ok(0),
        Stmt::Revert { .. } => Ok(0),
    }
}

/// The same of a list of statements.
#[cycle(held)]
#[tactic(auto, using(crate::proofs::HeldTaken::held))]
fn stmts_held(environment: &Environment, body: &Stmts) -> Result<u8, AllocError>
    ensures { IfOk result (λ n. n ≡ form.stmts_held (environment_of environment.now).program (stmts_of body.now)) }
{
    let mut count = 0;
    let mut rest = body;
    loop {
        match rest {
            Stmts::End { labels } => return Ok(most(count, labels_held(labels))),
            Stmts::More {
                labels,
                first,
                rest: behind,
            } => {
                let here = most(labels_held(labels), stmt_held(environment, first)?);
                count = most(count, here);
                rest = behind;
            }
        }
    }
}

/// What a frame saves of registers that its temporaries take.
pub fn held_for(registers: u8) -> u8
    ensures { result ≡ min held_registers registers }
{
    registers.min(7)
}

/// What a frame saves whose own temporaries take so many registers.
pub fn held_with(environment: &Environment, registers: u8, body: &Stmts) -> Result<u8, AllocError>
    ensures { IfOk result (λ n. n ≡ form.held_with (environment_of environment.now).program registers (stmts_of body.now)) }
{
    let inner = stmts_held(environment, body)?;
    Ok(held_for(registers.max(inner)))
}
