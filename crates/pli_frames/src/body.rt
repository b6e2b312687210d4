// The blocks of a program as they begin, outer ones first, with the words that the temporaries of their statements take.

ghost use Rattle.std.specs.Prelude.{◌≡◌, ◌∷◌, ◌++◌, map, IfOk, OnOk};
ghost use Rattle.pli_typing.specs.TypedStatementView.{block_head_of, procedure_of, stmt_of, stmts_of};
ghost use Rattle.pli_coding.specs.Statements as form;
ghost use Rattle.pli_frames.specs.Blocks.{block_words_of, with_words, blocks_in, blocks_among, blocks_of};
ghost use Rattle.pli_frames.specs.TakenView.{taken_of};

use crate::forms::{
    aggregate_takes, allocations_take, assigned_takes, elements_takes, freeings_take, get_takes,
    put_takes,
};
use crate::taken::{Taken, none_taken};
use crate::temporaries::{bit_takes, call_takes, stored_takes};
use crate::turns::{behind_turns, turns_take};
use pli_typing::statement::{BlockHead, Procedure, Stmt, Stmts};
use std::alloc::{AllocError, Global};

/// A block and the words that its statements take at most, without those of blocks among them.
#[derive(Clone, Copy, PartialEq, Eq, Debug)]
pub struct BlockWords {
    pub head: BlockHead,
    pub words: u32,
}

/// A block that stands among statements, or that of a procedure.
#[cycle(walk)]
#[tactic(auto, using(crate::proofs::Bodies::bodies))]
fn block(blocks: &mut Vec<BlockWords>, head: BlockHead, body: &Stmts) -> Result<(), AllocError>
    ensures { OnOk result (map block_words_of blocks.new.items ≡ map block_words_of blocks.old.items ++ (with_words (block_head_of head) (stmts_of body.now) ∷ blocks_among (stmts_of body.now))) }
{
    let place = blocks.len();
    blocks.push(BlockWords { head, words: 0 })?;
    let taken = statements(blocks, none_taken(), body)?;
    blocks[place] = BlockWords {
        head,
        words: taken.words,
    };
    Ok(())
}

/// What a statement takes, and the blocks in it.
#[cycle(walk)]
#[tactic(auto, using(crate::proofs::Bodies::bodies))]
fn statement(blocks: &mut Vec<BlockWords>, taken: Taken, stmt: &Stmt) -> Result<Taken, AllocError>
    ensures taken { IfOk result (λ t. taken_of t ≡ form.stmt_takes (taken_of taken) (stmt_of stmt.now)) }
    ensures blocks { OnOk result (map block_words_of blocks.new.items ≡ map block_words_of blocks.old.items ++ blocks_in (stmt_of stmt.now)) }
{
    match stmt {
        Stmt::Assign { target, source, .. } => assigned_takes(taken, target, source),
        Stmt::AssignElements { target, source, .. } => elements_takes(taken, target, source),
        Stmt::AssignAggregate { target, source, .. } => {
            Ok(aggregate_takes(taken, target)?.most(aggregate_takes(taken, source)?))
        }
        Stmt::If {
            condition,
            unit,
            ..
        } => Ok(bit_takes(taken, condition)?.most(statement(blocks, taken, unit)?)),
        Stmt::IfElse {
            condition,
            unit,
            otherwise,
            ..
        } => {
            let test = bit_takes(taken, condition)?;
            let unit = statement(blocks, taken, unit)?;
            Ok(test.most(unit.most(statement(blocks, taken, otherwise)?)))
        }
        Stmt::Do { body, .. } => statements(blocks, taken, body),
        Stmt::DoWhile {
            condition,
            body,
            ..
        } => Ok(bit_takes(taken, condition)?.most(statements(blocks, taken, body)?)),
        Stmt::DoTurns { turns, body, .. } => {
            let body = statements(blocks, behind_turns(turns, taken)?, body)?;
            turns_take(taken, turns, body)
        }
        Stmt::Begin { head, body } => {
            block(blocks, *head, body)?;
            Ok(taken)
        }
        Stmt::OnUnit { head, body, .. } => {
            block(blocks, *head, body)?;
            Ok(taken)
        }
        Stmt::Call { call, .. } => call_takes(taken, &call.arguments),
        Stmt::ReturnValue { value, .. } => stored_takes(taken, value),
        Stmt::Allocate { allocations, .. } => allocations_take(taken, allocations),
        Stmt::Free { freeings, .. } => freeings_take(taken, freeings),
        Stmt::Get { pairs, .. } => get_takes(taken, pairs),
        Stmt::Put { pairs, .. } => put_takes(taken, pairs),
        Stmt::Null { .. } => Ok(taken),
        Stmt::AssignArea { .. } => Ok(taken),
        Stmt::EmptyArea { .. } => Ok(taken),
        Stmt::OnSystem { .. } => Ok(taken),
        Stmt::Return { .. } => Ok(taken),
        Stmt::Goto { .. } => Ok(taken),
        Stmt::Stop { .. } => Ok(taken),
        Stmt::Signal { .. } => Ok(taken),
        Stmt::Revert { .. } => Ok(taken),
    }
}

/// What statements take, and the blocks among them.
#[cycle(walk)]
#[tactic(auto, using(crate::proofs::Bodies::bodies))]
fn statements(blocks: &mut Vec<BlockWords>, taken: Taken, body: &Stmts) -> Result<Taken, AllocError>
    ensures taken { IfOk result (λ t. taken_of t ≡ form.stmts_take (taken_of taken) (stmts_of body.now)) }
    ensures blocks { OnOk result (map block_words_of blocks.new.items ≡ map block_words_of blocks.old.items ++ blocks_among (stmts_of body.now)) }
{
    let mut most = none_taken();
    let mut rest = body;
    while let Stmts::More {
        first,
        rest: behind,
        ..
    } = rest
    {
        most = most.most(statement(blocks, taken, first)?);
        rest = behind;
    }
    Ok(most.most(taken))
}

/// The blocks of procedures, in their order.
#[tactic(auto, using(crate::proofs::Bodies::next_procedure, std::proofs::Common::append_assoc))]
pub fn blocks_of(alloc: Global, procedures: &[Procedure]) -> Result<Vec<BlockWords>, AllocError>
    ensures { IfOk result (λ bs. map block_words_of bs.items ≡ blocks_of (map procedure_of procedures.now)) }
{
    let mut blocks = Vec::new(alloc);
    for procedure in procedures {
        block(&mut blocks, procedure.block.head, &procedure.block.body)?;
    }
    Ok(blocks)
}
