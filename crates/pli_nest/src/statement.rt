// Statements, and the fronts of statements, in a nest in which no ELSE comes.

ghost use Rattle.std.specs.Prelude.{◌≡◌, IfOk, [], map};
ghost use Rattle.pli_language.specs.Nesting as N;
ghost use Rattle.pli_language.specs.View.{item_of, name_of, option_of, stmt_of};
ghost use Rattle.pli_nest.specs.Steps as S;
ghost use Rattle.pli_nest.specs.View.{frame_of, frames_of, nest_of, opener_of};

use crate::begin::begun;
use crate::complete::finished;
use crate::frame::{Frame, Nest, Opener};
use crate::items::copied;
use crate::limits::may_return;
use pli_language::expr::Name;
use pli_language::stmt::{Item, Stmt};
use std::alloc::{AllocError, Global};

/// A nest with these frames, where there are any.
pub fn with_frames(outer: Vec<Item>, frames: Option<Vec<Frame>>) -> Option<Nest>
    ensures { option_of nest_of result ≡ N.with_frames (map item_of outer.items) (option_of (λ v. frames_of v.items) frames) }
{
    match frames {
        Some(frames) => Some(Nest { outer, frames }),
        None => None,
    }
}

/// A further frame, where a statement begins.
#[tactic(auto, using(pli_phrase::proofs::Newest::newest_snoc))]
fn due(frames: Option<Vec<Frame>>, frame: Frame) -> Result<Option<Vec<Frame>>, AllocError>
    ensures { IfOk result (λ o. option_of (λ v. frames_of v.items) o ≡ N.due (option_of (λ v. frames_of v.items) frames) (frame_of frame)) }
{
    let Some(mut frames) = frames else {
        drop(frame);
        return Ok(None);
    };
    frames.push(frame)?;
    Ok(Some(frames))
}

/// A further frame in a nest, where a statement begins.
fn due_in(
    outer: Vec<Item>,
    frames: Option<Vec<Frame>>,
    frame: Frame,
) -> Result<Option<Nest>, AllocError>
    ensures { IfOk result (λ o. option_of nest_of o
        ≡ N.with_frames (map item_of outer.items)
        (N.due (option_of (λ v. frames_of v.items) frames) (frame_of frame))) }
{
    let frames = due(frames, frame)?;
    Ok(with_frames(outer, frames))
}

/// IF or ON, whose unit is due.
pub fn unit_due(nest: Nest, labels: Vec<Name>, frame: Frame) -> Result<Option<Nest>, AllocError>
    ensures { IfOk result (λ o. option_of nest_of o ≡ S.due_in (nest_of nest) (map name_of labels.items) (frame_of frame)) }
{
    match begun(nest.frames, labels, false) {
        Ok(begun) => due_in(nest.outer, begun, frame),
        Err(fault) => {
            drop(frame);
            Err(fault)
        }
    }
}

/// A list that belongs to what these labels stand before.
pub fn open_list(alloc: Global, opener: Opener, labels: Vec<Name>) -> Frame
    ensures { frame_of result ≡ N.InList (opener_of opener) (map name_of labels.items) [] [] }
{
    Frame::List {
        opener,
        labels,
        items: Vec::new(alloc),
        pending: Vec::new(alloc),
    }
}

/// A further list, where a statement begins.
fn opened(
    alloc: Global,
    frames: Option<Vec<Frame>>,
    opener: Opener,
    labels: Vec<Name>,
) -> Result<Option<Vec<Frame>>, AllocError>
    ensures { IfOk result (λ o. option_of (λ v. frames_of v.items) o ≡ N.opened (option_of (λ v. frames_of v.items) frames) (opener_of opener) (map name_of labels.items)) }
{
    due(frames, open_list(alloc, opener, labels))
}

/// A further list in a nest, where a statement begins.
fn opened_in(
    alloc: Global,
    outer: Vec<Item>,
    frames: Option<Vec<Frame>>,
    opener: Opener,
    labels: Vec<Name>,
) -> Result<Option<Nest>, AllocError>
    ensures { IfOk result (λ o. option_of nest_of o ≡ N.with_frames (map item_of outer.items)
        (N.opened (option_of (λ v. frames_of v.items) frames) (opener_of opener) (map name_of labels.items))) }
{
    let frames = opened(alloc, frames, opener, labels)?;
    Ok(with_frames(outer, frames))
}

/// A list that belongs to what these labels stand before, which it has a copy of.
fn list_with(
    alloc: Global,
    nest: Nest,
    labels: Vec<Name>,
    opener: Opener,
    own: Vec<Name>,
    may: bool,
) -> Result<Option<Nest>, AllocError>
    ensures { IfOk result (λ o. option_of nest_of o ≡ N.with_frames (nest_of nest).outer
        (N.opened (S.begun_as (nest_of nest).frames (map name_of labels.items) may) (opener_of opener)
        (map name_of own.items))) }
{
    match begun(nest.frames, labels, may) {
        Ok(begun) => opened_in(alloc, nest.outer, begun, opener, own),
        Err(fault) => {
            drop(opener);
            Err(fault)
        }
    }
}

/// A group or a begin block; it may be an on-unit, or not.
pub fn list(
    alloc: Global,
    nest: Nest,
    labels: Vec<Name>,
    opener: Opener,
    may: bool,
) -> Result<Option<Nest>, AllocError>
    ensures { IfOk result (λ o. option_of nest_of o ≡ S.list_in (nest_of nest) (map name_of labels.items) (opener_of opener) may) }
{
    match copied(alloc, &labels) {
        Ok(own) => list_with(alloc, nest, labels, opener, own, may),
        Err(fault) => {
            drop(opener);
            Err(fault)
        }
    }
}

/// A simple statement other than RETURN and REVERT.
#[tactic(auto, unfolding(pli_language::specs::View::stmt_of))]
fn is_unit_stmt(statement: &Stmt) -> bool
    ensures { result ≡ S.is_unit_stmt (stmt_of statement.now) }
{
    !matches!(statement, Stmt::Return { .. } | Stmt::Revert { .. })
}

#[tactic(auto, unfolding(pli_language::specs::View::stmt_of))]
fn is_return(statement: &Stmt) -> bool
    ensures { result ≡ S.is_return_stmt (stmt_of statement.now) }
{
    matches!(statement, Stmt::Return { .. })
}

/// What is open behind a whole statement, where one may begin.
fn whole(
    alloc: Global,
    frames: Option<Vec<Frame>>,
    statement: Stmt,
) -> Result<Option<Vec<Frame>>, AllocError>
    ensures { IfOk result (λ o. option_of (λ v. frames_of v.items) o ≡ N.whole (option_of (λ v. frames_of v.items) frames) (stmt_of statement)) }
{
    match frames {
        Some(frames) => Ok(Some(finished(alloc, true, statement, frames)?)),
        None => {
            drop(statement);
            Ok(None)
        }
    }
}

/// RETURN where none may stand.
fn is_misplaced_return(statement: &Stmt, frames: &[Frame]) -> bool
    ensures { result ≡ S.is_misplaced_return (stmt_of statement.now) (frames_of frames.now) }
{
    is_return(statement) && !may_return(frames)
}

/// A whole statement in the frames of a nest, where one may begin.
fn whole_in(
    alloc: Global,
    outer: Vec<Item>,
    frames: Option<Vec<Frame>>,
    statement: Stmt,
) -> Result<Option<Nest>, AllocError>
    ensures { IfOk result (λ o. option_of nest_of o ≡ N.with_frames (map item_of outer.items) (N.whole (option_of (λ v. frames_of v.items) frames) (stmt_of statement))) }
{
    let frames = whole(alloc, frames, statement)?;
    Ok(with_frames(outer, frames))
}

/// A simple statement that may stand there.
fn allowed(
    alloc: Global,
    nest: Nest,
    labels: Vec<Name>,
    statement: Stmt,
) -> Result<Option<Nest>, AllocError>
    ensures { IfOk result (λ o. option_of nest_of o ≡ S.allowed_in (nest_of nest) (map name_of labels.items) (stmt_of statement)) }
{
    let may = is_unit_stmt(&statement);
    match begun(nest.frames, labels, may) {
        Ok(begun) => whole_in(alloc, nest.outer, begun, statement),
        Err(fault) => {
            drop(statement);
            Err(fault)
        }
    }
}

/// A simple statement.
pub fn simple(
    alloc: Global,
    nest: Nest,
    labels: Vec<Name>,
    statement: Stmt,
) -> Result<Option<Nest>, AllocError>
    ensures { IfOk result (λ o. option_of nest_of o ≡ S.simple_in (nest_of nest) (map name_of labels.items) (stmt_of statement)) }
{
    if is_misplaced_return(&statement, &nest.frames) {
        drop(statement);
        return Ok(None);
    }
    allowed(alloc, nest, labels, statement)
}
