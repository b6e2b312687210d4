// Statements out of their parts.

ghost use Rattle.std.specs.Prelude.{◌≡◌, IfOk, map};
ghost use Rattle.pli_language.specs.Tree as T;
ghost use Rattle.pli_language.specs.View.{counting_of, declare_item_of, expr_of, item_of, items_of, name_of, procedure_head_of, stmt_of};

use pli_language::condition::Condition;
use pli_language::declaration::DeclareItem;
use pli_language::expr::{Expr, Name, Place};
use pli_language::stmt::{Counting, Item, Items, ProcedureHead, Stmt};
use std::alloc::{AllocError, Global};

/// An IF without ELSE.
#[tactic(auto, unfolding(pli_language::specs::View::stmt_of))]
pub fn if_alone(condition: Expr, unit: Box<Stmt>, place: Place) -> Stmt
    ensures { stmt_of result ≡ T.If (expr_of condition) (stmt_of unit.value) place }
{
    Stmt::If {
        condition,
        unit,
        place,
    }
}

/// An IF with its ELSE.
#[tactic(auto, unfolding(pli_language::specs::View::stmt_of))]
pub fn if_else(
    alloc: Global,
    condition: Expr,
    unit: Box<Stmt>,
    otherwise: Stmt,
    place: Place,
) -> Result<Stmt, AllocError>
    ensures { IfOk result (λ x. stmt_of x ≡ T.IfElse (expr_of condition) (stmt_of unit.value) (stmt_of otherwise) place) }
{
    Ok(Stmt::IfElse {
        condition,
        unit,
        otherwise: Box::new(alloc, otherwise)?,
        place,
    })
}

/// An on-unit.
#[tactic(auto, unfolding(pli_language::specs::View::stmt_of))]
pub fn on_unit(
    alloc: Global,
    condition: Condition,
    unit: Stmt,
    place: Place,
) -> Result<Stmt, AllocError>
    ensures { IfOk result (λ x. stmt_of x ≡ T.OnUnit condition (stmt_of unit) place) }
{
    Ok(Stmt::OnUnit {
        condition,
        unit: Box::new(alloc, unit)?,
        place,
    })
}

/// A statement with its labels.
#[tactic(auto, unfolding(pli_language::specs::View::item_of))]
pub fn labelled(labels: Vec<Name>, statement: Stmt) -> Item
    ensures { item_of result ≡ T.Statement (map name_of labels.items) (stmt_of statement) }
{
    Item::Statement { labels, statement }
}

/// Declarations.
#[tactic(auto, unfolding(pli_language::specs::View::item_of))]
pub fn declaration(items: Vec<DeclareItem>, place: Place) -> Item
    ensures { item_of result ≡ T.Declare (map declare_item_of items.items) place }
{
    Item::Declare { items, place }
}

/// The labels of an END.
#[tactic(auto, unfolding(pli_language::specs::View::item_of))]
pub fn end_labels(labels: Vec<Name>, place: Place) -> Item
    ensures { item_of result ≡ T.EndLabels (map name_of labels.items) place }
{
    Item::EndLabels { labels, place }
}

/// A procedure.
#[tactic(auto, unfolding(pli_language::specs::View::item_of))]
pub fn procedure(head: ProcedureHead, body: Items) -> Item
    ensures { item_of result ≡ T.Procedure (procedure_head_of head) (items_of body) }
{
    Item::Procedure { head, body }
}

/// The system's action for a condition.
#[tactic(auto, unfolding(pli_language::specs::View::stmt_of))]
pub fn on_system(condition: Condition, place: Place) -> Stmt
    ensures { stmt_of result ≡ T.OnSystem condition place }
{
    Stmt::OnSystem { condition, place }
}

/// A group that is done once.
#[tactic(auto, unfolding(pli_language::specs::View::stmt_of))]
pub fn group(body: Items, place: Place) -> Stmt
    ensures { stmt_of result ≡ T.Do (items_of body) place }
{
    Stmt::Do { body, place }
}

/// A group that is done as long as a condition holds.
#[tactic(auto, unfolding(pli_language::specs::View::stmt_of))]
pub fn while_group(condition: Expr, body: Items, place: Place) -> Stmt
    ensures { stmt_of result ≡ T.DoWhile (expr_of condition) (items_of body) place }
{
    Stmt::DoWhile {
        condition,
        body,
        place,
    }
}

/// A group that counts.
#[tactic(auto, unfolding(pli_language::specs::View::stmt_of))]
pub fn count_group(counting: Counting, body: Items, place: Place) -> Stmt
    ensures { stmt_of result ≡ T.DoCount (counting_of counting) (items_of body) place }
{
    Stmt::DoCount {
        counting,
        body,
        place,
    }
}

/// A begin block.
#[tactic(auto, unfolding(pli_language::specs::View::stmt_of))]
pub fn block(body: Items, place: Place) -> Stmt
    ensures { stmt_of result ≡ T.Begin (items_of body) place }
{
    Stmt::Begin { body, place }
}
