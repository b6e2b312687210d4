// Blocks, on-units and procedures from their lists.

ghost use Rattle.std.specs.Prelude.{◌≡◌, [], IfOk};
ghost use Rattle.pli_typing.specs.Resolving as Z;
ghost use Rattle.pli_typing.specs.TypedStatementView.{block_head_of, block_kind_of, block_of, procedure_of, stmt_of, stmts_of};
ghost use Rattle.pli_typing.specs.TypedTree as Y;
ghost use Rattle.pli_typing.specs.Variables.{level_of_block};
ghost use Rattle.pli_language.specs.View.{procedure_head_of};
ghost use Rattle.pli_tree.specs.Shown.{context_of};

use crate::context::Context;
use crate::walked::after;
use pli_language::expr::Place;
use pli_language::stmt::ProcedureHead;
use pli_typing::statement::{Block, BlockHead, BlockKind, Procedure, Stmt, Stmts};
use std::alloc::{AllocError, Global};

/// The head of the block with a number.
pub fn block_head(context: &Context, kind: BlockKind, number: usize, place: Place) -> BlockHead
    ensures { block_head_of result ≡ record { kind = block_kind_of kind; number = number; level = level_of_block (context_of context.now).scope.blocks number; line = place.line } }
{
    BlockHead {
        kind,
        number,
        level: context.scope.tables.level_of_block(number),
        line: place.line,
    }
}

/// A single statement as a list.
#[tactic(auto, unfolding(pli_typing::specs::TypedStatementView::stmts_of))]
fn one_statement<'a>(alloc: Global, unit: Stmt<'a>) -> Result<Stmts<'a>, AllocError>
    ensures { IfOk result (λ ss. stmts_of ss ≡ Y.StmtThen [] (stmt_of unit.entry) (Y.EndOfList [])) }
{
    let first = Box::new(alloc, unit)?;
    let rest = Box::new(alloc, Stmts::End { labels: &[] })?;
    Ok(Stmts::More {
        labels: &[],
        first,
        rest,
    })
}

/// A single statement as an on-unit, a level further in than its block.
fn simple_unit<'a>(
    alloc: Global,
    context: &Context,
    place: Place,
    unit: Stmt<'a>,
) -> Result<Block<'a>, AllocError>
    ensures { IfOk result (λ b. block_of b ≡ Z.simple_unit (context_of context.now) place.line (stmt_of unit.entry)) }
{
    let head = block_head(context, BlockKind::SimpleUnit, context.scope.block, place);
    let level = after(head.level)?;
    Ok(Block {
        head: BlockHead { level, ..head },
        body: one_statement(alloc, unit)?,
    })
}

/// An on-unit: the block of its BEGIN, or one around its single statement.
#[tactic(auto, unfolding(pli_typing::specs::TypedStatementView::stmt_of))]
pub fn unit_of<'a>(
    alloc: Global,
    context: &Context,
    place: Place,
    unit: Stmt<'a>,
) -> Result<Block<'a>, AllocError>
    ensures { IfOk result (λ b. block_of b ≡ Z.unit_of (context_of context.now) place.line (stmt_of unit.entry)) }
{
    match unit {
        Stmt::Begin { head, body } => Ok(Block {
            head: BlockHead {
                kind: BlockKind::Unit,
                ..head
            },
            body,
        }),
        unit => simple_unit(alloc, context, place, unit),
    }
}

/// A procedure with its list.
pub fn procedure_with<'a>(
    alloc: Global,
    context: &Context,
    number: usize,
    head: &ProcedureHead,
    body: Stmts<'a>,
) -> Result<Procedure<'a>, AllocError>
    ensures { IfOk result (λ p. procedure_of p ≡ Z.procedure_of (context_of context.now) number (procedure_head_of head.now) (stmts_of body.entry)) }
{
    let tables = context.scope.tables;
    let parameters = tables.parameter_indices(alloc, number, &head.parameters)?;
    let block = block_head(context, BlockKind::Procedure, number, head.place);
    Ok(Procedure {
        block: Block { head: block, body },
        parameters,
        result: tables.result_type(context.scope.block, head),
    })
}
