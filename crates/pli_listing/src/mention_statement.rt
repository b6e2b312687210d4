// The names that statements write, block by block.

ghost use Rattle.std.specs.Prelude.{◌≡◌, ◌+◌, ◌++◌, [], map, IfOk, OnOk};
ghost use Rattle.std.specs.List.{flat_map};
ghost use Rattle.pli_language.specs.View.{allocation_of, counting_of, edit_pair_of, freeing_of, item_of, items_of};
ghost use Rattle.pli_language.specs.View.{name_of, stmt_of, tree_of};
ghost use Rattle.pli_listing.specs.Mentions.{begun_in, begun_in_item, begun_in_stmt, in_allocation, in_counting};
ghost use Rattle.pli_listing.specs.Mentions.{in_freeing, in_item, in_items, in_pairs, in_simple, in_stmt, mention_of};
ghost use Rattle.pli_listing.specs.Mentions.{mentions, written};

use crate::mention::{Mention, push_name};
use crate::mention_declaration::push_declare;
use crate::mention_expression::{
    push_arguments, push_expr, push_exprs, push_option, push_optional, push_reference,
};
use pli_language::declaration::{Allocation, Freeing};
use pli_language::expr::Name;
use pli_language::stmt::{Counting, EditPair, Item, Items, Stmt, Tree};
use std::alloc::{AllocError, Global};

#[tactic(auto, using(crate::proofs::Gathered::gathered))]
fn push_parameters<'a>(
    alloc: Global,
    out: &mut Vec<Mention<'a>>,
    block: usize,
    names: &'a [Name],
) -> Result<(), AllocError>
    ensures { OnOk result (map mention_of out.new.items ≡
        map mention_of out.old.items ++ map (written block []) (map name_of names.now)) }
{
    for name in names {
        push_name(alloc, out, block, name)?;
    }
    Ok(())
}

#[tactic(auto, using(crate::proofs::Gathered::gathered))]
fn push_allocations<'a>(
    alloc: Global,
    out: &mut Vec<Mention<'a>>,
    block: usize,
    allocations: &'a [Allocation],
) -> Result<(), AllocError>
    ensures { OnOk result (map mention_of out.new.items ≡
        map mention_of out.old.items ++ flat_map (in_allocation block) (map allocation_of allocations.now)) }
{
    for allocation in allocations {
        push_name(alloc, out, block, &allocation.variable)?;
        push_optional(alloc, out, block, &allocation.area)?;
        push_optional(alloc, out, block, &allocation.locator)?;
    }
    Ok(())
}

#[tactic(auto, using(crate::proofs::Gathered::gathered))]
fn push_freeings<'a>(
    alloc: Global,
    out: &mut Vec<Mention<'a>>,
    block: usize,
    freeings: &'a [Freeing],
) -> Result<(), AllocError>
    ensures { OnOk result (map mention_of out.new.items ≡
        map mention_of out.old.items ++ flat_map (in_freeing block) (map freeing_of freeings.now)) }
{
    for freeing in freeings {
        push_reference(alloc, out, block, &freeing.generation)?;
        push_optional(alloc, out, block, &freeing.area)?;
    }
    Ok(())
}

#[tactic(auto, using(crate::proofs::Gathered::gathered))]
fn push_pairs<'a>(
    alloc: Global,
    out: &mut Vec<Mention<'a>>,
    block: usize,
    pairs: &'a [EditPair],
) -> Result<(), AllocError>
    ensures { OnOk result (map mention_of out.new.items ≡
        map mention_of out.old.items ++ in_pairs block (map edit_pair_of pairs.now)) }
{
    for pair in pairs {
        push_exprs(alloc, out, block, &pair.items)?;
    }
    Ok(())
}

#[tactic(auto, using(crate::proofs::Gathered::gathered))]
fn push_counting<'a>(
    alloc: Global,
    out: &mut Vec<Mention<'a>>,
    block: usize,
    counting: &'a Counting,
) -> Result<(), AllocError>
    ensures { OnOk result (map mention_of out.new.items ≡
        map mention_of out.old.items ++ in_counting block (counting_of counting.now)) }
{
    push_reference(alloc, out, block, &counting.variable)?;
    push_expr(alloc, out, block, &counting.start)?;
    push_option(alloc, out, block, &counting.limit)?;
    push_option(alloc, out, block, &counting.step)?;
    push_option(alloc, out, block, &counting.condition)
}

// The names of a list in a block, where the next block that begins has this number.
#[cycle(walk)]
#[tactic(auto, using(crate::proofs::Gathered::gathered))]
fn push_items<'a>(
    alloc: Global,
    out: &mut Vec<Mention<'a>>,
    block: usize,
    next: &mut usize,
    items: &'a Items,
) -> Result<(), AllocError>
    ensures put { OnOk result (map mention_of out.new.items ≡
        map mention_of out.old.items ++ in_items block next.old (items_of items.now)) }
    ensures begun { OnOk result (next.new ≡ next.old + begun_in (items_of items.now)) }
{
    let mut left = items;
    while let Items::More { first, rest } = left {
        push_item(alloc, out, block, next, first)?;
        left = rest;
    }
    Ok(())
}

#[cycle(walk)]
#[tactic(auto, using(crate::proofs::Gathered::gathered))]
fn push_item<'a>(
    alloc: Global,
    out: &mut Vec<Mention<'a>>,
    block: usize,
    next: &mut usize,
    item: &'a Item,
) -> Result<(), AllocError>
    ensures put { OnOk result (map mention_of out.new.items ≡
        map mention_of out.old.items ++ in_item block next.old (item_of item.now)) }
    ensures begun { OnOk result (next.new ≡ next.old + begun_in_item (item_of item.now)) }
{
    match item {
        Item::Procedure { head, body } => {
            let number = *next;
            *next = number.checked_add(1).ok_or(AllocError)?;
            push_parameters(alloc, out, number, &head.parameters)?;
            push_items(alloc, out, number, next, body)
        }
        Item::Declare { items, .. } => push_declare(alloc, out, block, items),
        Item::Statement { statement, .. } => push_stmt(alloc, out, block, next, statement),
        Item::EndLabels { .. } => Ok(()),
    }
}

#[cycle(walk)]
#[tactic(auto, using(crate::proofs::Gathered::gathered))]
fn push_stmt<'a>(
    alloc: Global,
    out: &mut Vec<Mention<'a>>,
    block: usize,
    next: &mut usize,
    statement: &'a Stmt,
) -> Result<(), AllocError>
    ensures put { OnOk result (map mention_of out.new.items ≡
        map mention_of out.old.items ++ in_stmt block next.old (stmt_of statement.now)) }
    ensures begun { OnOk result (next.new ≡ next.old + begun_in_stmt (stmt_of statement.now)) }
{
    match statement {
        Stmt::Begin { body, .. } => {
            let number = *next;
            *next = number.checked_add(1).ok_or(AllocError)?;
            push_items(alloc, out, number, next, body)
        }
        Stmt::If {
            condition,
            unit,
            ..
        } => {
            push_expr(alloc, out, block, condition)?;
            push_stmt(alloc, out, block, next, unit)
        }
        Stmt::IfElse {
            condition,
            unit,
            otherwise,
            ..
        } => {
            push_expr(alloc, out, block, condition)?;
            push_stmt(alloc, out, block, next, unit)?;
            push_stmt(alloc, out, block, next, otherwise)
        }
        Stmt::Do { body, .. } => push_items(alloc, out, block, next, body),
        Stmt::DoWhile {
            condition,
            body,
            ..
        } => {
            push_expr(alloc, out, block, condition)?;
            push_items(alloc, out, block, next, body)
        }
        Stmt::DoCount { counting, body, .. } => {
            push_counting(alloc, out, block, counting)?;
            push_items(alloc, out, block, next, body)
        }
        Stmt::OnUnit { unit, .. } => push_stmt(alloc, out, block, next, unit),
        Stmt::Null { .. }
        | Stmt::Assign { .. }
        | Stmt::OnSystem { .. }
        | Stmt::Call { .. }
        | Stmt::Return { .. }
        | Stmt::Goto { .. }
        | Stmt::Stop { .. }
        | Stmt::Signal { .. }
        | Stmt::Revert { .. }
        | Stmt::Allocate { .. }
        | Stmt::Free { .. }
        | Stmt::Get { .. }
        | Stmt::Put { .. } => push_simple(alloc, out, block, statement),
    }
}

// The names of a statement without others inside.
#[tactic(auto, using(crate::proofs::Gathered::gathered))]
fn push_simple<'a>(
    alloc: Global,
    out: &mut Vec<Mention<'a>>,
    block: usize,
    statement: &'a Stmt,
) -> Result<(), AllocError>
    ensures { OnOk result (map mention_of out.new.items ≡
        map mention_of out.old.items ++ in_simple block (stmt_of statement.now)) }
{
    match statement {
        Stmt::Assign { target, source, .. } => {
            push_reference(alloc, out, block, target)?;
            push_expr(alloc, out, block, source)
        }
        Stmt::Call {
            procedure,
            arguments,
            ..
        } => {
            push_name(alloc, out, block, procedure)?;
            push_arguments(alloc, out, block, arguments)
        }
        Stmt::Return { value, .. } => push_option(alloc, out, block, value),
        Stmt::Goto { label, .. } => push_name(alloc, out, block, label),
        Stmt::Allocate { allocations, .. } => push_allocations(alloc, out, block, allocations),
        Stmt::Free { freeings, .. } => push_freeings(alloc, out, block, freeings),
        Stmt::Get { pairs, .. } => push_pairs(alloc, out, block, pairs),
        Stmt::Put { pairs, .. } => push_pairs(alloc, out, block, pairs),
        Stmt::Null { .. }
        | Stmt::If { .. }
        | Stmt::IfElse { .. }
        | Stmt::Do { .. }
        | Stmt::DoWhile { .. }
        | Stmt::DoCount { .. }
        | Stmt::Begin { .. }
        | Stmt::OnSystem { .. }
        | Stmt::OnUnit { .. }
        | Stmt::Stop { .. }
        | Stmt::Signal { .. }
        | Stmt::Revert { .. } => Ok(()),
    }
}

/// The names that a program writes where it doesn't declare them, in the order of the source.
#[tactic(auto, using(crate::proofs::Gathered::gathered))]
pub fn mentions<'a>(alloc: Global, tree: &'a Tree) -> Result<Vec<Mention<'a>>, AllocError>
    ensures { IfOk result (λ v. map mention_of v.items ≡ mentions (tree_of tree.now)) }
{
    let mut out = Vec::new(alloc);
    let mut next = 1;
    push_items(alloc, &mut out, 0, &mut next, &tree.procedures)?;
    Ok(out)
}
