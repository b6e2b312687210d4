// Whole statements, in what is open around them.

ghost use Rattle.std.specs.Prelude.{◌≡◌, IfOk, map, ◌++◌, ◌∷◌, []};
ghost use Rattle.pli_language.specs.Nesting as N;
ghost use Rattle.pli_language.specs.Tree as T;
ghost use Rattle.pli_language.specs.View.{expr_of, item_of, name_of, stmt_of};
ghost use Rattle.pli_nest.specs.Steps.{Ends, Stays, completing, finished};
ghost use Rattle.pli_nest.specs.View.{frame_of, frames_of, opener_of, step_of};

use crate::build::{if_alone, if_else, labelled, on_unit};
use crate::frame::{Frame, Opener, Step};
use pli_language::condition::Condition;
use pli_language::expr::{Expr, Name, Place};
use pli_language::stmt::{Item, Stmt};
use std::alloc::{AllocError, Global};

/// A list with one more statement.
#[tactic(auto, using(std::proofs::lemmas::List::map_push))]
fn with_statement(
    alloc: Global,
    opener: Opener,
    labels: Vec<Name>,
    mut items: Vec<Item>,
    item: Item,
) -> Result<Frame, AllocError>
    ensures { IfOk result (λ f. frame_of f ≡ N.InList (opener_of opener) (map name_of labels.items) (map item_of items.items ++ item_of item ∷ []) []) }
{
    match items.push(item) {
        Ok(()) => Ok(Frame::List {
            opener,
            labels,
            items,
            pending: Vec::new(alloc),
        }),
        Err(fault) => {
            drop(opener);
            Err(fault.into())
        }
    }
}

/// A whole statement in a list.
fn in_list(
    alloc: Global,
    opener: Opener,
    labels: Vec<Name>,
    items: Vec<Item>,
    pending: Vec<Name>,
    statement: Stmt,
) -> Result<Step, AllocError>
    ensures { IfOk result (λ step. step_of step ≡ Stays (N.InList (opener_of opener) (map name_of labels.items) (map item_of items.items ++ T.Statement (map name_of pending.items) (stmt_of statement) ∷ []) [])) }
{
    let item = labelled(pending, statement);
    let list = with_statement(alloc, opener, labels, items, item)?;
    Ok(Step::Stays(list))
}

/// A whole statement behind THEN, where ELSE may follow, or not.
fn behind_then(
    alloc: Global,
    else_may: bool,
    condition: Expr,
    unit: Stmt,
    place: Place,
) -> Result<Step, AllocError>
    ensures { IfOk result (λ step. step_of step ≡ completing else_may (stmt_of unit) (N.ThenDue (expr_of condition) place)) }
{
    let unit = Box::new(alloc, unit)?;
    Ok(if else_may {
        Step::Stays(Frame::ThenWhole {
            condition,
            unit,
            place,
        })
    } else {
        Step::Ends(if_alone(condition, unit, place))
    })
}

/// A whole statement behind ELSE.
fn behind_else(
    alloc: Global,
    condition: Expr,
    unit: Box<Stmt>,
    otherwise: Stmt,
    place: Place,
) -> Result<Step, AllocError>
    ensures { IfOk result (λ step. step_of step ≡ Ends (T.IfElse (expr_of condition) (stmt_of unit.value) (stmt_of otherwise) place)) }
{
    Ok(Step::Ends(if_else(alloc, condition, unit, otherwise, place)?))
}

/// A whole statement behind ON.
fn behind_on(
    alloc: Global,
    condition: Condition,
    unit: Stmt,
    place: Place,
) -> Result<Step, AllocError>
    ensures { IfOk result (λ step. step_of step ≡ Ends (T.OnUnit condition (stmt_of unit) place)) }
{
    Ok(Step::Ends(on_unit(alloc, condition, unit, place)?))
}

/// A whole statement in one frame; an IF with it as its unit may still get an ELSE, or not.
fn completing(
    alloc: Global,
    else_may: bool,
    statement: Stmt,
    frame: Frame,
) -> Result<Step, AllocError>
    ensures { IfOk result (λ step. step_of step ≡ completing else_may (stmt_of statement) (frame_of frame)) }
{
    match frame {
        Frame::List {
            opener,
            labels,
            items,
            pending,
        } => in_list(alloc, opener, labels, items, pending, statement),
        Frame::ThenDue { condition, place } => {
            behind_then(alloc, else_may, condition, statement, place)
        }
        Frame::ElseDue {
            condition,
            unit,
            place,
        } => behind_else(alloc, condition, unit, statement, place),
        Frame::UnitDue { condition, place } => behind_on(alloc, condition, statement, place),
        Frame::ThenWhole { .. } => {
            drop(statement);
            Ok(Step::Stays(frame))
        }
    }
}

/// What is open behind a whole statement; an IF with it as its unit may still get an ELSE, or not.
#[tactic(auto, using(pli_phrase::proofs::Newest::newest_none, pli_phrase::proofs::Newest::newest_snoc, crate::proofs::Steps::finished_none, crate::proofs::Steps::finished_stays, crate::proofs::Steps::finished_ends))]
pub fn finished(
    alloc: Global,
    else_may: bool,
    statement: Stmt,
    frames: Vec<Frame>,
) -> Result<Vec<Frame>, AllocError>
    ensures { IfOk result (λ fs. frames_of fs.items ≡ finished else_may (stmt_of statement) (frames_of frames.items)) }
{
    let mut statement = statement;
    let mut frames = frames;
    while let Some(frame) = frames.pop() {
        match completing(alloc, else_may, statement, frame)? {
            Step::Stays(frame) => {
                frames.push(frame)?;
                return Ok(frames);
            }
            Step::Ends(whole) => statement = whole,
        }
    }
    drop(statement);
    Ok(frames)
}
