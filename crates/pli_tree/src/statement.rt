// Statements and lists, with the procedures inside them.

ghost use Rattle.std.specs.Prelude.{◌≡◌, ◌+◌, ◌++◌, ◌∷◌, length, map, IfOk, OnOk};
ghost use Rattle.pli_language.specs.Declarations.{blocks_in};
ghost use Rattle.pli_language.specs.Refusals.{soonest};
ghost use Rattle.pli_typing.specs.Resolving as Z;
ghost use Rattle.pli_typing.specs.SingleStatements as S;
ghost use Rattle.pli_language.specs.Tree as T;
ghost use Rattle.pli_typing.specs.TypedStatementView.{block_of, procedure_of, stmt_of as typed_of, stmts_of as list_of};
ghost use Rattle.pli_language.specs.View.{counting_of, expr_of, item_of, items_of, name_of, procedure_head_of, stmt_of};
ghost use Rattle.pli_tree.specs.Shown.{behind_items, context_of, item_resolved, part_of};

use crate::alone::{alone, condition_at, turns_at};
use crate::context::Context;
use crate::inner::{block_head, procedure_with, unit_of};
use crate::listed::{Part, ended, listed};
use crate::walked::{Walked, after};
use pli_language::condition::Condition;
use pli_language::expr::{Expr, Name, Place};
use pli_language::stmt;
use pli_language::stmt::{Counting, Item, Items, ProcedureHead};
use pli_typing::statement::{Block, BlockKind, Stmt, Stmts};
use std::alloc::{AllocError, Global};

/// A statement in a box.
#[cycle(walk)]
#[tactic(auto, using(crate::proofs::Forms::forms))]
fn boxed<'a>(
    alloc: Global,
    context: &Context<'_, '_, 'a>,
    walked: &mut Walked<'a>,
    written: &'a stmt::Stmt,
) -> Result<Box<Stmt<'a>>, AllocError>
    ensures found { OnOk result (walked.new.found ≡ soonest walked.old.found (Z.statement (context_of context.now) walked.old.next (stmt_of written.now)).faults) }
    ensures procedures { OnOk result (map procedure_of walked.new.procedures.items ≡ map procedure_of walked.old.procedures.items ++ (Z.statement (context_of context.now) walked.old.next (stmt_of written.now)).procedures) }
    ensures next { OnOk result (walked.new.next ≡ Z.behind_stmt (context_of context.now) walked.old.next (stmt_of written.now)) }
    ensures value { IfOk result (λ b. typed_of b.value ≡ (Z.statement (context_of context.now) walked.old.next (stmt_of written.now)).value) }
{
    let written = statement(alloc, context, walked, written)?;
    Ok(Box::new(alloc, written)?)
}

/// IF without ELSE.
#[cycle(walk)]
#[tactic(auto, using(crate::proofs::Forms::forms), unfolding(pli_typing::specs::TypedStatementView::stmt_of))]
fn if_statement<'a>(
    alloc: Global,
    context: &Context<'_, '_, 'a>,
    walked: &mut Walked<'a>,
    condition: &'a Expr,
    unit: &'a stmt::Stmt,
    place: Place,
) -> Result<Stmt<'a>, AllocError>
    ensures found { OnOk result (walked.new.found ≡ soonest walked.old.found (Z.statement (context_of context.now) walked.old.next (T.If (expr_of condition.now) (stmt_of unit.now) place)).faults) }
    ensures procedures { OnOk result (map procedure_of walked.new.procedures.items ≡ map procedure_of walked.old.procedures.items ++ (Z.statement (context_of context.now) walked.old.next (T.If (expr_of condition.now) (stmt_of unit.now) place)).procedures) }
    ensures next { OnOk result (walked.new.next ≡ Z.behind_stmt (context_of context.now) walked.old.next (T.If (expr_of condition.now) (stmt_of unit.now) place)) }
    ensures value { IfOk result (λ s. typed_of s ≡ (Z.statement (context_of context.now) walked.old.next (T.If (expr_of condition.now) (stmt_of unit.now) place)).value) }
{
    let condition = condition_at(alloc, context, walked, condition)?;
    let unit = boxed(alloc, context, walked, unit)?;
    Ok(Stmt::If {
        condition,
        unit,
        line: place.line,
    })
}

/// IF with ELSE.
#[cycle(walk)]
#[tactic(auto, using(crate::proofs::Forms::forms), unfolding(pli_typing::specs::TypedStatementView::stmt_of))]
fn if_else<'a>(
    alloc: Global,
    context: &Context<'_, '_, 'a>,
    walked: &mut Walked<'a>,
    condition: &'a Expr,
    unit: &'a stmt::Stmt,
    otherwise: &'a stmt::Stmt,
    place: Place,
) -> Result<Stmt<'a>, AllocError>
    ensures found { OnOk result (walked.new.found ≡ soonest walked.old.found (Z.statement (context_of context.now) walked.old.next (T.IfElse (expr_of condition.now) (stmt_of unit.now) (stmt_of otherwise.now) place)).faults) }
    ensures procedures { OnOk result (map procedure_of walked.new.procedures.items ≡ map procedure_of walked.old.procedures.items ++ (Z.statement (context_of context.now) walked.old.next (T.IfElse (expr_of condition.now) (stmt_of unit.now) (stmt_of otherwise.now) place)).procedures) }
    ensures next { OnOk result (walked.new.next ≡ Z.behind_stmt (context_of context.now) walked.old.next (T.IfElse (expr_of condition.now) (stmt_of unit.now) (stmt_of otherwise.now) place)) }
    ensures value { IfOk result (λ s. typed_of s ≡ (Z.statement (context_of context.now) walked.old.next (T.IfElse (expr_of condition.now) (stmt_of unit.now) (stmt_of otherwise.now) place)).value) }
{
    let condition = condition_at(alloc, context, walked, condition)?;
    let unit = boxed(alloc, context, walked, unit)?;
    let otherwise = boxed(alloc, context, walked, otherwise)?;
    Ok(Stmt::IfElse {
        condition,
        unit,
        otherwise,
        line: place.line,
    })
}

/// The list of a group.
#[cycle(walk)]
#[tactic(auto, using(crate::proofs::Forms::forms))]
fn group<'a>(
    alloc: Global,
    context: &Context<'_, '_, 'a>,
    walked: &mut Walked<'a>,
    body: &'a Items,
) -> Result<Stmts<'a>, AllocError>
    ensures found { OnOk result (walked.new.found ≡ soonest walked.old.found (Z.statements (S.in_list (context_of context.now) (S.labels_in (items_of body.now))) walked.old.next (items_of body.now)).faults) }
    ensures procedures { OnOk result (map procedure_of walked.new.procedures.items ≡ map procedure_of walked.old.procedures.items ++ (Z.statements (S.in_list (context_of context.now) (S.labels_in (items_of body.now))) walked.old.next (items_of body.now)).procedures) }
    ensures next { OnOk result (walked.new.next ≡ behind_items (context_of context.now) walked.old.next (items_of body.now)) }
    ensures value { IfOk result (λ ss. list_of ss ≡ (Z.statements (S.in_list (context_of context.now) (S.labels_in (items_of body.now))) walked.old.next (items_of body.now)).value) }
{
    let inside = context.in_list(alloc, body)?;
    statements(alloc, &inside, walked, body)
}

/// DO with WHILE alone.
#[cycle(walk)]
#[tactic(auto, using(crate::proofs::Forms::forms), unfolding(pli_typing::specs::TypedStatementView::stmt_of))]
fn do_while<'a>(
    alloc: Global,
    context: &Context<'_, '_, 'a>,
    walked: &mut Walked<'a>,
    condition: &'a Expr,
    body: &'a Items,
    place: Place,
) -> Result<Stmt<'a>, AllocError>
    ensures found { OnOk result (walked.new.found ≡ soonest walked.old.found (Z.statement (context_of context.now) walked.old.next (T.DoWhile (expr_of condition.now) (items_of body.now) place)).faults) }
    ensures procedures { OnOk result (map procedure_of walked.new.procedures.items ≡ map procedure_of walked.old.procedures.items ++ (Z.statement (context_of context.now) walked.old.next (T.DoWhile (expr_of condition.now) (items_of body.now) place)).procedures) }
    ensures next { OnOk result (walked.new.next ≡ Z.behind_stmt (context_of context.now) walked.old.next (T.DoWhile (expr_of condition.now) (items_of body.now) place)) }
    ensures value { IfOk result (λ s. typed_of s ≡ (Z.statement (context_of context.now) walked.old.next (T.DoWhile (expr_of condition.now) (items_of body.now) place)).value) }
{
    let condition = condition_at(alloc, context, walked, condition)?;
    let body = group(alloc, context, walked, body)?;
    Ok(Stmt::DoWhile {
        condition,
        body,
        line: place.line,
    })
}

/// DO with a variable.
#[cycle(walk)]
#[tactic(auto, using(crate::proofs::Forms::forms), unfolding(pli_typing::specs::TypedStatementView::stmt_of))]
fn do_turns<'a>(
    alloc: Global,
    context: &Context<'_, '_, 'a>,
    walked: &mut Walked<'a>,
    counting: &'a Counting,
    body: &'a Items,
    place: Place,
) -> Result<Stmt<'a>, AllocError>
    ensures found { OnOk result (walked.new.found ≡ soonest walked.old.found (Z.statement (context_of context.now) walked.old.next (T.DoCount (counting_of counting.now) (items_of body.now) place)).faults) }
    ensures procedures { OnOk result (map procedure_of walked.new.procedures.items ≡ map procedure_of walked.old.procedures.items ++ (Z.statement (context_of context.now) walked.old.next (T.DoCount (counting_of counting.now) (items_of body.now) place)).procedures) }
    ensures next { OnOk result (walked.new.next ≡ Z.behind_stmt (context_of context.now) walked.old.next (T.DoCount (counting_of counting.now) (items_of body.now) place)) }
    ensures value { IfOk result (λ s. typed_of s ≡ (Z.statement (context_of context.now) walked.old.next (T.DoCount (counting_of counting.now) (items_of body.now) place)).value) }
{
    let turns = turns_at(alloc, context, walked, counting)?;
    let body = group(alloc, context, walked, body)?;
    Ok(Stmt::DoTurns {
        turns,
        body,
        line: place.line,
    })
}

/// The list of a block, which has the number that is due.
#[cycle(walk)]
#[tactic(auto, using(crate::proofs::Forms::forms))]
fn block<'a>(
    alloc: Global,
    context: &Context<'_, '_, 'a>,
    walked: &mut Walked<'a>,
    body: &'a Items,
) -> Result<Stmts<'a>, AllocError>
    ensures found { OnOk result (walked.new.found ≡ soonest walked.old.found (Z.statements (S.in_block (context_of context.now) walked.old.next (S.labels_in (items_of body.now))) (walked.old.next + 1) (items_of body.now)).faults) }
    ensures procedures { OnOk result (map procedure_of walked.new.procedures.items ≡ map procedure_of walked.old.procedures.items ++ (Z.statements (S.in_block (context_of context.now) walked.old.next (S.labels_in (items_of body.now))) (walked.old.next + 1) (items_of body.now)).procedures) }
    ensures next { OnOk result (walked.new.next ≡ (walked.old.next + 1) + length (blocks_in (walked.old.next ∷ context.now.around.items) (walked.old.next + 1) (items_of body.now))) }
    ensures value { IfOk result (λ ss. list_of ss ≡ (Z.statements (S.in_block (context_of context.now) walked.old.next (S.labels_in (items_of body.now))) (walked.old.next + 1) (items_of body.now)).value) }
{
    let inside = context.in_block(alloc, walked.next, body)?;
    walked.next = after(walked.next)?;
    statements(alloc, &inside, walked, body)
}

/// BEGIN.
#[cycle(walk)]
#[tactic(auto, using(crate::proofs::Forms::forms), unfolding(pli_typing::specs::TypedStatementView::stmt_of))]
fn begin<'a>(
    alloc: Global,
    context: &Context<'_, '_, 'a>,
    walked: &mut Walked<'a>,
    body: &'a Items,
    place: Place,
) -> Result<Stmt<'a>, AllocError>
    ensures found { OnOk result (walked.new.found ≡ soonest walked.old.found (Z.statement (context_of context.now) walked.old.next (T.Begin (items_of body.now) place)).faults) }
    ensures procedures { OnOk result (map procedure_of walked.new.procedures.items ≡ map procedure_of walked.old.procedures.items ++ (Z.statement (context_of context.now) walked.old.next (T.Begin (items_of body.now) place)).procedures) }
    ensures next { OnOk result (walked.new.next ≡ Z.behind_stmt (context_of context.now) walked.old.next (T.Begin (items_of body.now) place)) }
    ensures value { IfOk result (λ s. typed_of s ≡ (Z.statement (context_of context.now) walked.old.next (T.Begin (items_of body.now) place)).value) }
{
    let head = block_head(context, BlockKind::Begin, walked.next, place);
    let body = block(alloc, context, walked, body)?;
    Ok(Stmt::Begin { head, body })
}

/// ON with its unit.
#[cycle(walk)]
#[tactic(auto, using(crate::proofs::Forms::forms), unfolding(pli_typing::specs::TypedStatementView::stmt_of))]
fn on_unit<'a>(
    alloc: Global,
    context: &Context<'_, '_, 'a>,
    walked: &mut Walked<'a>,
    condition: Condition,
    unit: &'a stmt::Stmt,
    place: Place,
) -> Result<Stmt<'a>, AllocError>
    ensures found { OnOk result (walked.new.found ≡ soonest walked.old.found (Z.statement (context_of context.now) walked.old.next (T.OnUnit condition (stmt_of unit.now) place)).faults) }
    ensures procedures { OnOk result (map procedure_of walked.new.procedures.items ≡ map procedure_of walked.old.procedures.items ++ (Z.statement (context_of context.now) walked.old.next (T.OnUnit condition (stmt_of unit.now) place)).procedures) }
    ensures next { OnOk result (walked.new.next ≡ Z.behind_stmt (context_of context.now) walked.old.next (T.OnUnit condition (stmt_of unit.now) place)) }
    ensures value { IfOk result (λ s. typed_of s ≡ (Z.statement (context_of context.now) walked.old.next (T.OnUnit condition (stmt_of unit.now) place)).value) }
{
    let inside = context.in_unit(alloc)?;
    let unit = statement(alloc, &inside, walked, unit)?;
    let Block { head, body } = unit_of(alloc, context, place, unit)?;
    Ok(Stmt::OnUnit {
        condition,
        head,
        body,
        line: place.line,
    })
}

/// A statement, where blocks have numbers from the next on.
#[cycle(walk)]
#[tactic(auto, using(crate::proofs::Forms::forms), unfolding(pli_typing::specs::TypedStatementView::stmt_of))]
fn statement<'a>(
    alloc: Global,
    context: &Context<'_, '_, 'a>,
    walked: &mut Walked<'a>,
    written: &'a stmt::Stmt,
) -> Result<Stmt<'a>, AllocError>
    ensures found { OnOk result (walked.new.found ≡ soonest walked.old.found (Z.statement (context_of context.now) walked.old.next (stmt_of written.now)).faults) }
    ensures procedures { OnOk result (map procedure_of walked.new.procedures.items ≡ map procedure_of walked.old.procedures.items ++ (Z.statement (context_of context.now) walked.old.next (stmt_of written.now)).procedures) }
    ensures next { OnOk result (walked.new.next ≡ Z.behind_stmt (context_of context.now) walked.old.next (stmt_of written.now)) }
    ensures value { IfOk result (λ s. typed_of s ≡ (Z.statement (context_of context.now) walked.old.next (stmt_of written.now)).value) }
{
    match written {
        stmt::Stmt::If {
            condition,
            unit,
            place,
        } => if_statement(alloc, context, walked, condition, unit, *place),
        stmt::Stmt::IfElse {
            condition,
            unit,
            otherwise,
            place,
        } => if_else(alloc, context, walked, condition, unit, otherwise, *place),
        stmt::Stmt::Do { body, place } => Ok(Stmt::Do {
            body: group(alloc, context, walked, body)?,
            line: place.line,
        }),
        stmt::Stmt::DoWhile {
            condition,
            body,
            place,
        } => do_while(alloc, context, walked, condition, body, *place),
        stmt::Stmt::DoCount {
            counting,
            body,
            place,
        } => do_turns(alloc, context, walked, counting, body, *place),
        stmt::Stmt::Begin { body, place } => begin(alloc, context, walked, body, *place),
        stmt::Stmt::OnUnit {
            condition,
            unit,
            place,
        } => on_unit(alloc, context, walked, *condition, unit, *place),
        stmt::Stmt::Null { .. }
        | stmt::Stmt::Assign { .. }
        | stmt::Stmt::OnSystem { .. }
        | stmt::Stmt::Call { .. }
        | stmt::Stmt::Return { .. }
        | stmt::Stmt::Goto { .. }
        | stmt::Stmt::Stop { .. }
        | stmt::Stmt::Signal { .. }
        | stmt::Stmt::Revert { .. }
        | stmt::Stmt::Allocate { .. }
        | stmt::Stmt::Free { .. }
        | stmt::Stmt::Get { .. }
        | stmt::Stmt::Put { .. } => alone(alloc, context, walked, written),
    }
}

/// A procedure, before those inside it.
#[cycle(walk)]
#[tactic(auto, using(crate::proofs::Forms::forms))]
fn procedure<'a>(
    alloc: Global,
    context: &Context<'_, '_, 'a>,
    walked: &mut Walked<'a>,
    head: &'a ProcedureHead,
    body: &'a Items,
) -> Result<(), AllocError>
    ensures found { OnOk result (walked.new.found ≡ soonest walked.old.found (item_resolved (context_of context.now) walked.old.next (T.Procedure (procedure_head_of head.now) (items_of body.now))).faults) }
    ensures procedures { OnOk result (map procedure_of walked.new.procedures.items ≡ map procedure_of walked.old.procedures.items ++ (item_resolved (context_of context.now) walked.old.next (T.Procedure (procedure_head_of head.now) (items_of body.now))).procedures) }
    ensures next { OnOk result (walked.new.next ≡ Z.behind_item (context_of context.now) walked.old.next (T.Procedure (procedure_head_of head.now) (items_of body.now))) }
{
    let number = walked.next;
    let mut inside = walked.inside(alloc);
    let body = block(alloc, context, &mut inside, body)?;
    let whole = procedure_with(alloc, context, number, head, body)?;
    walked.put_procedure(whole, inside)
}

/// A labelled statement behind those before it.
#[cycle(walk)]
#[tactic(auto, using(crate::proofs::Forms::forms))]
fn put_statement<'a>(
    alloc: Global,
    context: &Context<'_, '_, 'a>,
    walked: &mut Walked<'a>,
    parts: &mut Vec<Part<'a>>,
    labels: &'a [Name],
    written: &'a stmt::Stmt,
) -> Result<(), AllocError>
    ensures found { OnOk result (walked.new.found ≡ soonest walked.old.found (item_resolved (context_of context.now) walked.old.next (T.Statement (map name_of labels.now) (stmt_of written.now))).faults) }
    ensures procedures { OnOk result (map procedure_of walked.new.procedures.items ≡ map procedure_of walked.old.procedures.items ++ (item_resolved (context_of context.now) walked.old.next (T.Statement (map name_of labels.now) (stmt_of written.now))).procedures) }
    ensures next { OnOk result (walked.new.next ≡ Z.behind_item (context_of context.now) walked.old.next (T.Statement (map name_of labels.now) (stmt_of written.now))) }
    ensures parts { OnOk result (map part_of parts.new.items ≡ map part_of parts.old.items ++ (item_resolved (context_of context.now) walked.old.next (T.Statement (map name_of labels.now) (stmt_of written.now))).value) }
{
    let statement = statement(alloc, context, walked, written)?;
    Ok(parts.push(Part { labels, statement })?)
}

/// An item of a list, behind those before it; procedures and declarations are no statements.
#[cycle(walk)]
#[tactic(auto, using(crate::proofs::Forms::forms))]
fn put_item<'a>(
    alloc: Global,
    context: &Context<'_, '_, 'a>,
    walked: &mut Walked<'a>,
    parts: &mut Vec<Part<'a>>,
    item: &'a Item,
) -> Result<(), AllocError>
    ensures found { OnOk result (walked.new.found ≡ soonest walked.old.found (item_resolved (context_of context.now) walked.old.next (item_of item.now)).faults) }
    ensures procedures { OnOk result (map procedure_of walked.new.procedures.items ≡ map procedure_of walked.old.procedures.items ++ (item_resolved (context_of context.now) walked.old.next (item_of item.now)).procedures) }
    ensures next { OnOk result (walked.new.next ≡ Z.behind_item (context_of context.now) walked.old.next (item_of item.now)) }
    ensures parts { OnOk result (map part_of parts.new.items ≡ map part_of parts.old.items ++ (item_resolved (context_of context.now) walked.old.next (item_of item.now)).value) }
{
    match item {
        Item::Procedure { head, body } => procedure(alloc, context, walked, head, body),
        Item::Declare { .. } => Ok(()),
        Item::Statement { labels, statement } => {
            put_statement(alloc, context, walked, parts, labels, statement)
        }
        Item::EndLabels { .. } => Ok(()),
    }
}

/// The blocks of what stands behind the labels of END have numbers, though nothing stands there in a tree that was read.
#[cycle(walk)]
#[tactic(auto, using(crate::proofs::Forms::forms))]
fn passed<'a>(
    alloc: Global,
    context: &Context<'_, '_, 'a>,
    next: usize,
    items: &'a Items,
) -> Result<usize, AllocError>
    ensures { IfOk result (λ n. n ≡ behind_items (context_of context.now) next (items_of items.now)) }
{
    let mut none = Walked::from(alloc, next);
    statements(alloc, context, &mut none, items)?;
    Ok(none.next)
}

/// A list of statements.
#[cycle(walk)]
#[tactic(auto, using(crate::proofs::Forms::forms))]
pub fn statements<'a>(
    alloc: Global,
    context: &Context<'_, '_, 'a>,
    walked: &mut Walked<'a>,
    items: &'a Items,
) -> Result<Stmts<'a>, AllocError>
    ensures found { OnOk result (walked.new.found ≡ soonest walked.old.found (Z.statements (context_of context.now) walked.old.next (items_of items.now)).faults) }
    ensures procedures { OnOk result (map procedure_of walked.new.procedures.items ≡ map procedure_of walked.old.procedures.items ++ (Z.statements (context_of context.now) walked.old.next (items_of items.now)).procedures) }
    ensures next { OnOk result (walked.new.next ≡ behind_items (context_of context.now) walked.old.next (items_of items.now)) }
    ensures value { IfOk result (λ ss. list_of ss ≡ (Z.statements (context_of context.now) walked.old.next (items_of items.now)).value) }
{
    let mut parts = Vec::new(alloc);
    let mut rest = items;
    while let Items::More {
        first,
        rest: behind,
    } = rest
    {
        if let Some(labels) = ended(first) {
            walked.next = passed(alloc, context, walked.next, behind)?;
            return listed(alloc, parts, labels);
        }
        put_item(alloc, context, walked, &mut parts, first)?;
        rest = behind;
    }
    listed(alloc, parts, &[])
}
