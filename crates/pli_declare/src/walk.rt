// What a block's list declares, in source order.

ghost use Rattle.std.specs.Prelude.{◌≡◌, ◌++◌, map, OnOk};
ghost use Rattle.pli_language.specs.Declarations.{declared_in, declared_in_item, declared_in_stmt, labels_declared, procedure_declared, declared_by, variable_declared, held, chain_after, variables_of};
ghost use Rattle.pli_language.specs.View.{declare_item_of, item_of, items_of, name_of, procedure_head_of, stmt_of};
ghost use Rattle.pli_declare.specs.Shown.{above_of, declaration_of};

use crate::above::{Above, level_of};
use crate::scope::{Declaration, Held, Variable, What};
use pli_language::declaration::DeclareItem;
use pli_language::expr::Name;
use pli_language::stmt::{Item, Items, ProcedureHead, Stmt};
use std::alloc::{AllocError, Global};

/// Labels of a statement or of an END.
fn put_labels<'a>(out: &mut Vec<Declaration<'a>>, labels: &'a [Name]) -> Result<(), AllocError>
    ensures { OnOk result (map declaration_of out.new.items ≡ map declaration_of out.old.items ++ labels_declared (map name_of labels.now)) }
{
    for name in labels {
        out.push(Declaration {
            name,
            what: What::Label,
        })?;
    }
    Ok(())
}

/// Labels of a procedure.
fn put_procedure<'a>(
    out: &mut Vec<Declaration<'a>>,
    head: &'a ProcedureHead,
) -> Result<(), AllocError>
    ensures { OnOk result (map declaration_of out.new.items ≡ map declaration_of out.old.items ++ procedure_declared (procedure_head_of head.now)) }
{
    for name in &head.labels {
        out.push(Declaration {
            name,
            what: What::Procedure(head),
        })?;
    }
    Ok(())
}

/// What a DECLARE declares.
fn put_declared<'a>(
    alloc: Global,
    out: &mut Vec<Declaration<'a>>,
    items: &'a [DeclareItem],
) -> Result<(), AllocError>
    ensures { OnOk result (map declaration_of out.new.items ≡ map declaration_of out.old.items ++ declared_by (map declare_item_of items.now)) }
{
    let mut chain = Above::none(alloc)?;
    for item in items {
        put_names(alloc, out, &mut chain, item)?;
    }
    Ok(())
}

/// The names of an item, where these are the last variable before it and what holds that.
fn put_names<'a>(
    alloc: Global,
    out: &mut Vec<Declaration<'a>>,
    chain: &mut Above<'a>,
    item: &'a DeclareItem,
) -> Result<(), AllocError>
    ensures put { OnOk result (map declaration_of out.new.items ≡ map declaration_of out.old.items ++ map variable_declared (held (above_of chain.old) (variables_of (declare_item_of item.now)))) }
    ensures chain { OnOk result (above_of chain.new ≡ chain_after (above_of chain.old) (variables_of (declare_item_of item.now))) }
{
    for declared in &item.names {
        let variable = Variable { declared, item };
        let above = chain.holders(alloc, level_of(variable))?;
        *chain = above.inside(alloc, variable)?;
        out.push(Declaration {
            name: &declared.name,
            what: What::Variable(Held { variable, above }),
        })?;
    }
    Ok(())
}

#[cycle(walk)]
#[tactic(auto, using(crate::proofs::Walks::declarations))]
pub fn put_items<'a>(
    alloc: Global,
    out: &mut Vec<Declaration<'a>>,
    items: &'a Items,
) -> Result<(), AllocError>
    ensures { OnOk result (map declaration_of out.new.items ≡ map declaration_of out.old.items ++ declared_in (items_of items.now)) }
{
    let mut rest = items;
    while let Items::More { first, rest: next } = rest {
        put_item(alloc, out, first)?;
        rest = next;
    }
    Ok(())
}

#[cycle(walk)]
#[tactic(auto, using(crate::proofs::Walks::declarations))]
fn put_item<'a>(
    alloc: Global,
    out: &mut Vec<Declaration<'a>>,
    item: &'a Item,
) -> Result<(), AllocError>
    ensures { OnOk result (map declaration_of out.new.items ≡ map declaration_of out.old.items ++ declared_in_item (item_of item.now)) }
{
    match item {
        Item::Procedure { head, .. } => put_procedure(out, head),
        Item::Declare { items, .. } => put_declared(alloc, out, items),
        Item::Statement { labels, statement } => {
            put_labels(out, labels)?;
            put_stmt(alloc, out, statement)
        }
        Item::EndLabels { labels, .. } => put_labels(out, labels),
    }
}

#[cycle(walk)]
#[tactic(auto, using(crate::proofs::Walks::declarations))]
fn put_stmt<'a>(
    alloc: Global,
    out: &mut Vec<Declaration<'a>>,
    statement: &'a Stmt,
) -> Result<(), AllocError>
    ensures { OnOk result (map declaration_of out.new.items ≡ map declaration_of out.old.items ++ declared_in_stmt (stmt_of statement.now)) }
{
    match statement {
        Stmt::If { unit, .. } => put_stmt(alloc, out, unit),
        Stmt::IfElse {
            unit,
            otherwise,
            ..
        } => {
            put_stmt(alloc, out, unit)?;
            put_stmt(alloc, out, otherwise)
        }
        Stmt::Do { body, .. } | Stmt::DoWhile { body, .. } | Stmt::DoCount { body, .. } => {
            put_items(alloc, out, body)
        }
        Stmt::OnUnit { unit, .. } => put_stmt(alloc, out, unit),
        Stmt::Null { .. }
        | Stmt::Assign { .. }
        | Stmt::Begin { .. }
        | Stmt::OnSystem { .. }
        | Stmt::Call { .. }
        | Stmt::Return { .. }
        | Stmt::Goto { .. }
        | Stmt::Stop { .. }
        | Stmt::Signal { .. }
        | Stmt::Revert { .. }
        | Stmt::Allocate { .. }
        | Stmt::Free { .. }
        | Stmt::Get { .. }
        | Stmt::Put { .. } => Ok(()),
    }
}
