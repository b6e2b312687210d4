// The blocks of a program, in the order of their numbers.

ghost use Rattle.std.specs.Prelude.{◌≡◌, [], ◌∷◌, ◌++◌, map, OnOk, IfOk};
ghost use Rattle.pli_typing.specs.TypedStatementView.{block_head_of, procedure_of, stmt_of, stmts_of};
ghost use Rattle.pli_coding.specs.Images as form;
ghost use Rattle.rv_address.specs.Around.{block_place_of};
ghost use Rattle.rv_start.specs.Gathered.{gathered};

use pli_typing::statement::{BlockHead, BlockKind, Procedure, Stmt, Stmts};
use rv_address::environment::BlockPlace;
use std::alloc::{AllocError, Global};

fn put_block(blocks: &mut Vec<BlockPlace>, head: BlockHead) -> Result<(), AllocError>
    ensures { OnOk result (map block_place_of blocks.new.items ≡ map block_place_of blocks.old.items ++ form.place_of_head (block_head_of head) ∷ []) }
{
    blocks.push(BlockPlace {
        number: head.number,
        level: head.level,
    })?;
    Ok(())
}

/// A simple unit is no block of its own.
fn put_unit(blocks: &mut Vec<BlockPlace>, head: BlockHead) -> Result<(), AllocError>
    ensures { OnOk result (map block_place_of blocks.new.items ≡ map block_place_of blocks.old.items ++ form.place_of_unit (block_head_of head) (block_head_of head).kind) }
{
    match head.kind {
        BlockKind::SimpleUnit => Ok(()),
        BlockKind::Procedure => put_block(blocks, head),
        BlockKind::Begin => put_block(blocks, head),
        BlockKind::Unit => put_block(blocks, head),
    }
}

/// The blocks in a statement.
#[cycle(walk)]
#[tactic(auto, using(crate::proofs::Walks::walks))]
fn put_statement(blocks: &mut Vec<BlockPlace>, stmt: &Stmt) -> Result<(), AllocError>
    ensures { OnOk result (map block_place_of blocks.new.items ≡ map block_place_of blocks.old.items ++ form.blocks_in (stmt_of stmt.now)) }
{
    match stmt {
        Stmt::If { unit, .. } => put_statement(blocks, unit),
        Stmt::IfElse {
            unit,
            otherwise,
            ..
        } => {
            put_statement(blocks, unit)?;
            put_statement(blocks, otherwise)
        }
        Stmt::Do { body, .. } => put_statements(blocks, body),
        Stmt::DoWhile { body, .. } => put_statements(blocks, body),
        Stmt::DoTurns { body, .. } => put_statements(blocks, body),
        Stmt::Begin { head, body } => {
            put_block(blocks, *head)?;
            put_statements(blocks, body)
        }
        Stmt::OnUnit { head, body, .. } => {
            put_unit(blocks, *head)?;
            put_statements(blocks, body)
        }
        Stmt::Null { .. } => Ok(()),
        Stmt::Assign { .. } => Ok(()),
        Stmt::AssignElements { .. } => Ok(()),
        Stmt::AssignAggregate { .. } => Ok(()),
        Stmt::AssignArea { .. } => Ok(()),
        Stmt::EmptyArea { .. } => Ok(()),
        Stmt::OnSystem { .. } => Ok(()),
        Stmt::Call { .. } => Ok(()),
        Stmt::Return { .. } => Ok(()),
        Stmt::ReturnValue { .. } => Ok(()),
        Stmt::Goto { .. } => Ok(()),
        Stmt::Stop { .. } => Ok(()),
        Stmt::Signal { .. } => Ok(()),
        Stmt::Revert { .. } => Ok(()),
        Stmt::Allocate { .. } => Ok(()),
        Stmt::Free { .. } => Ok(()),
        Stmt::Get { .. } => Ok(()),
        Stmt::Put { .. } => Ok(()),
    }
}

/// The blocks among statements.
#[cycle(walk)]
#[tactic(auto, using(crate::proofs::Walks::walks))]
fn put_statements(blocks: &mut Vec<BlockPlace>, body: &Stmts) -> Result<(), AllocError>
    ensures { OnOk result (map block_place_of blocks.new.items ≡ map block_place_of blocks.old.items ++ form.blocks_among (stmts_of body.now)) }
{
    let mut rest = body;
    while let Stmts::More {
        first,
        rest: behind,
        ..
    } = rest
    {
        put_statement(blocks, first)?;
        rest = behind;
    }
    Ok(())
}

fn put_procedure(blocks: &mut Vec<BlockPlace>, procedure: &Procedure) -> Result<(), AllocError>
    ensures { OnOk result (map block_place_of blocks.new.items ≡ map block_place_of blocks.old.items ++ form.blocks_of_procedure (procedure_of procedure.now).block) }
{
    put_block(blocks, procedure.block.head)?;
    put_statements(blocks, &procedure.block.body)
}

/// The blocks of procedures, of the last one first.
#[tactic(auto, using(crate::proofs::Walks::next_procedure, crate::proofs::Walks::every_procedure))]
fn gathered(alloc: Global, procedures: &[Procedure]) -> Result<Vec<BlockPlace>, AllocError>
    ensures { IfOk result (λ bs. map block_place_of bs.items ≡ gathered (map procedure_of procedures.now)) }
{
    let mut blocks = Vec::new(alloc);
    let mut left = procedures.len();
    while left > 0 {
        left -= 1;
        let procedure = &procedures[left];
        put_procedure(&mut blocks, procedure)?;
    }
    Ok(blocks)
}

/// The blocks of procedures, with the begin blocks and the on-units in them, in the order of their numbers.
pub fn blocks_of(alloc: Global, procedures: &[Procedure]) -> Result<Vec<BlockPlace>, AllocError>
    ensures { IfOk result (λ bs. map block_place_of bs.items ≡ form.blocks_of (map procedure_of procedures.now)) }
{
    let mut blocks = gathered(alloc, procedures)?;
    blocks.sort_by_key(|block| block.number)?;
    Ok(blocks)
}
