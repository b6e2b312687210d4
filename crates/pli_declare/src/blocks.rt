// The blocks of a program, each with what it declares.

ghost use Rattle.std.specs.Prelude.{◌≡◌, ◌++◌, ◌∷◌, [], map, IfOk, OnOk, length};
ghost use Rattle.pli_language.specs.Declarations.{blocks_in, blocks_in_item, blocks_in_stmt, declared_in};
ghost use Rattle.pli_language.specs.View.{item_of, items_of, option_of, procedure_head_of, stmt_of};
ghost use Rattle.pli_declare.specs.Shown.{declaration_of};
ghost use Rattle.pli_declare.specs.ShownBlocks.{block_of};

use crate::names::{Names, indexed};
use crate::scope::Block;
use crate::walk::put_items;
use pli_language::stmt::{Item, Items, ProcedureHead, Stmt};
use std::alloc::{AllocError, Global};

/// What a list declares in its block.
fn declared<'a>(alloc: Global, body: &'a Items) -> Result<Names<'a>, AllocError>
    ensures { IfOk result (λ n. map declaration_of n.declarations.items ≡ declared_in (items_of body.now)) }
{
    let mut declarations = Vec::new(alloc);
    put_items(alloc, &mut declarations, body)?;
    indexed(alloc, declarations)
}

/// The number of a block before those of the blocks around it.
pub fn inside(alloc: Global, number: usize, around: &[usize]) -> Result<Vec<usize>, AllocError>
    ensures { IfOk result (λ v. v.items ≡ number ∷ around.now) }
{
    let mut numbers = Vec::new(alloc);
    numbers.push(number)?;
    numbers.extend_from_slice(around)?;
    Ok(numbers)
}

/// The next block, with what its list declares.
pub fn put_block<'a>(
    alloc: Global,
    out: &mut Vec<Block<'a>>,
    around: &[usize],
    head: Option<&'a ProcedureHead>,
    body: &'a Items,
) -> Result<(), AllocError>
    ensures { OnOk result (map block_of out.new.items ≡ map block_of out.old.items ++ record { around = around.now; head = option_of (λ h. procedure_head_of h.now) head.entry; declarations = declared_in (items_of body.now) } ∷ []) }
{
    let names = declared(alloc, body)?;
    let around = around.to_vec(alloc)?;
    out.push(Block {
        around,
        head,
        names,
    })?;
    Ok(())
}

#[cycle(blocks)]
#[tactic(auto, using(crate::proofs::Walks::blocks))]
pub fn put_blocks<'a>(
    alloc: Global,
    out: &mut Vec<Block<'a>>,
    around: &[usize],
    items: &'a Items,
) -> Result<(), AllocError>
    ensures { OnOk result (map block_of out.new.items ≡ map block_of out.old.items ++ blocks_in around.now (length out.old.items) (items_of items.now)) }
{
    let mut rest = items;
    while let Items::More { first, rest: next } = rest {
        put_item_blocks(alloc, out, around, first)?;
        rest = next;
    }
    Ok(())
}

#[cycle(blocks)]
#[tactic(auto, using(crate::proofs::Walks::blocks))]
fn put_item_blocks<'a>(
    alloc: Global,
    out: &mut Vec<Block<'a>>,
    around: &[usize],
    item: &'a Item,
) -> Result<(), AllocError>
    ensures { OnOk result (map block_of out.new.items ≡ map block_of out.old.items ++ blocks_in_item around.now (length out.old.items) (item_of item.now)) }
{
    match item {
        Item::Procedure { head, body } => {
            let numbers = inside(alloc, out.len(), around)?;
            put_block(alloc, out, &numbers, Some(head), body)?;
            put_blocks(alloc, out, &numbers, body)
        }
        Item::Declare { .. } => Ok(()),
        Item::Statement { statement, .. } => put_stmt_blocks(alloc, out, around, statement),
        Item::EndLabels { .. } => Ok(()),
    }
}

#[cycle(blocks)]
#[tactic(auto, using(crate::proofs::Walks::blocks))]
fn put_stmt_blocks<'a>(
    alloc: Global,
    out: &mut Vec<Block<'a>>,
    around: &[usize],
    statement: &'a Stmt,
) -> Result<(), AllocError>
    ensures { OnOk result (map block_of out.new.items ≡ map block_of out.old.items ++ blocks_in_stmt around.now (length out.old.items) (stmt_of statement.now)) }
{
    match statement {
        Stmt::Begin { body, .. } => {
            let numbers = inside(alloc, out.len(), around)?;
            put_block(alloc, out, &numbers, None, body)?;
            put_blocks(alloc, out, &numbers, body)
        }
        Stmt::If { unit, .. } => put_stmt_blocks(alloc, out, around, unit),
        Stmt::IfElse {
            unit,
            otherwise,
            ..
        } => {
            put_stmt_blocks(alloc, out, around, unit)?;
            put_stmt_blocks(alloc, out, around, otherwise)
        }
        Stmt::Do { body, .. } | Stmt::DoWhile { body, .. } | Stmt::DoCount { body, .. } => {
            put_blocks(alloc, out, around, body)
        }
        Stmt::OnUnit { unit, .. } => put_stmt_blocks(alloc, out, around, unit),
        Stmt::Null { .. }
        | Stmt::Assign { .. }
        | Stmt::OnSystem { .. }
        | Stmt::Call { .. }
        | Stmt::Return { .. }
        | Stmt::Goto { .. }
        | Stmt::Stop { .. }
        | Stmt::Signal { .. }
        | Stmt::Revert { .. }
        | Stmt::Allocate { .. }
        | Stmt::Free { .. }
        | Stmt::Get { .. }
        | Stmt::Put { .. } => Ok(()),
    }
}
