// What is judged outside extents, with the least rule that is broken so far: conditions, turns, and statements that hold no
// other.

ghost use Rattle.std.specs.Prelude.{◌≡◌, IfOk, OnOk};
ghost use Rattle.pli_language.specs.Refusals.{soonest};
ghost use Rattle.pli_typing.specs.SingleStatements as S;
ghost use Rattle.pli_typing.specs.TypedStatementView.{stmt_of as typed_of, turns_of};
ghost use Rattle.pli_typing.specs.TypedView.{bit_of};
ghost use Rattle.pli_language.specs.View.{counting_of, expr_of, stmt_of};
ghost use Rattle.pli_operand.specs.Notes.{noted};
ghost use Rattle.pli_operand.specs.Shown.{notes_of};
ghost use Rattle.pli_reference.specs.Shown.{scope_of};
ghost use Rattle.pli_tree.specs.Shown.{alone, context_of, plain};

use crate::call::call_statement;
use crate::context::Context;
use crate::label::goto_statement;
use crate::returned::return_statement;
use crate::single::{
    allocate_statement, assign_statement, free_statement, get_statement, put_statement,
};
use crate::turn::{condition, turns};
use crate::walked::Walked;
use pli_language::expr::Expr;
use pli_language::stmt;
use pli_language::stmt::Counting;
use pli_operand::notes::Notes;
use pli_typing::statement::{Stmt, Turns};
use pli_typing::typed::Bit;
use std::alloc::{AllocError, Global};

/// The expression of IF or WHILE.
pub fn condition_at<'a>(
    alloc: Global,
    context: &Context<'_, '_, 'a>,
    walked: &mut Walked<'a>,
    expr: &'a Expr,
) -> Result<Bit<'a>, AllocError>
    ensures found { OnOk result (walked.new.found ≡ soonest walked.old.found (S.condition (scope_of context.now.scope) (expr_of expr.now)).faults) }
    ensures procedures { walked.new.procedures ≡ walked.old.procedures }
    ensures next { walked.new.next ≡ walked.old.next }
    ensures value { IfOk result (λ b. bit_of b ≡ (S.condition (scope_of context.now.scope) (expr_of expr.now)).value) }
{
    let mut notes = walked.notes();
    let condition = condition(alloc, context.scope, &mut notes, expr)?;
    walked.found = notes.found;
    Ok(condition)
}

/// What DO says of its turns.
pub fn turns_at<'a>(
    alloc: Global,
    context: &Context<'_, '_, 'a>,
    walked: &mut Walked<'a>,
    counting: &'a Counting,
) -> Result<Turns<'a>, AllocError>
    ensures found { OnOk result (walked.new.found ≡ soonest walked.old.found (S.turns (scope_of context.now.scope) (counting_of counting.now)).faults) }
    ensures procedures { walked.new.procedures ≡ walked.old.procedures }
    ensures next { walked.new.next ≡ walked.old.next }
    ensures value { IfOk result (λ t. turns_of t ≡ (S.turns (scope_of context.now.scope) (counting_of counting.now)).value) }
{
    let mut notes = walked.notes();
    let turns = turns(alloc, context.scope, &mut notes, counting)?;
    walked.found = notes.found;
    Ok(turns)
}

/// A statement without parts.
#[tactic(auto, using(crate::proofs::Forms::plains), unfolding(pli_typing::specs::TypedStatementView::stmt_of))]
fn plain<'a>(written: &'a stmt::Stmt) -> Stmt<'a>
    ensures { typed_of result ≡ plain (stmt_of written.now) }
{
    match written {
        stmt::Stmt::OnSystem { condition, place } => Stmt::OnSystem {
            condition: *condition,
            line: place.line,
        },
        stmt::Stmt::Stop { place } => Stmt::Stop { line: place.line },
        stmt::Stmt::Signal { condition, place } => Stmt::Signal {
            condition: *condition,
            line: place.line,
        },
        stmt::Stmt::Revert { condition, place } => Stmt::Revert {
            condition: *condition,
            line: place.line,
        },
        stmt::Stmt::Null { place } => Stmt::Null { line: place.line },
        _ => Stmt::Null { line: 0 },
    }
}

/// A statement that holds no other.
#[tactic(auto, using(pli_operand::proofs::Noting::noting, crate::proofs::Forms::singles))]
fn noted_alone<'a>(
    alloc: Global,
    context: &Context<'_, '_, 'a>,
    notes: &mut Notes,
    written: &'a stmt::Stmt,
) -> Result<Stmt<'a>, AllocError>
    ensures noted { OnOk result (notes_of notes.new ≡ noted (notes_of notes.old) (alone (context_of context.now) (stmt_of written.now))) }
    ensures value { IfOk result (λ s. typed_of s ≡ (alone (context_of context.now) (stmt_of written.now)).value) }
{
    let scope = context.scope;
    match written {
        stmt::Stmt::Assign {
            target,
            source,
            place,
        } => assign_statement(alloc, scope, notes, target, source, *place),
        stmt::Stmt::Call {
            procedure,
            arguments,
            place,
        } => call_statement(alloc, scope, notes, procedure, arguments, *place),
        stmt::Stmt::Return { value, place } => {
            return_statement(alloc, context, notes, value, *place)
        }
        stmt::Stmt::Goto { label, place } => Ok(goto_statement(notes, context, label, *place)),
        stmt::Stmt::Allocate { allocations, place } => {
            allocate_statement(alloc, scope, notes, allocations, *place)
        }
        stmt::Stmt::Free { freeings, place } => {
            free_statement(alloc, scope, notes, freeings, *place)
        }
        stmt::Stmt::Get { skip, pairs, place } => {
            get_statement(alloc, scope, notes, *skip, pairs, *place)
        }
        stmt::Stmt::Put { skip, pairs, place } => {
            put_statement(alloc, scope, notes, *skip, pairs, *place)
        }
        stmt::Stmt::Null { .. }
        | stmt::Stmt::If { .. }
        | stmt::Stmt::IfElse { .. }
        | stmt::Stmt::Do { .. }
        | stmt::Stmt::DoWhile { .. }
        | stmt::Stmt::DoCount { .. }
        | stmt::Stmt::Begin { .. }
        | stmt::Stmt::OnSystem { .. }
        | stmt::Stmt::OnUnit { .. }
        | stmt::Stmt::Stop { .. }
        | stmt::Stmt::Signal { .. }
        | stmt::Stmt::Revert { .. } => Ok(plain(written)),
    }
}

/// A statement that holds no other, with the least that is broken so far.
pub fn alone<'a>(
    alloc: Global,
    context: &Context<'_, '_, 'a>,
    walked: &mut Walked<'a>,
    written: &'a stmt::Stmt,
) -> Result<Stmt<'a>, AllocError>
    ensures found { OnOk result (walked.new.found ≡ soonest walked.old.found (alone (context_of context.now) (stmt_of written.now)).faults) }
    ensures procedures { walked.new.procedures ≡ walked.old.procedures }
    ensures next { walked.new.next ≡ walked.old.next }
    ensures value { IfOk result (λ s. typed_of s ≡ (alone (context_of context.now) (stmt_of written.now)).value) }
{
    let mut notes = walked.notes();
    let statement = noted_alone(alloc, context, &mut notes, written)?;
    walked.found = notes.found;
    Ok(statement)
}
