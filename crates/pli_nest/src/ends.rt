// What stands in a list without being a statement, and the end of what a list belongs to.

ghost use Rattle.std.specs.Prelude.{◌≡◌, ◌&&◌, not, IfOk, Some, None, [], ◌∷◌, ◌++◌, map};
ghost use Rattle.pli_language.specs.Nesting as N;
ghost use Rattle.pli_language.specs.Tree as T;
ghost use Rattle.pli_language.specs.View.{item_of, items_of, name_of, option_of, procedure_head_of, stmt_of};
ghost use Rattle.pli_nest.specs.Steps as S;
ghost use Rattle.pli_nest.specs.View.{frame_of, frames_of, nest_of, opener_of};

use crate::begin::no_name;
use crate::build::{block, count_group, end_labels, group, on_system, procedure, while_group};
use crate::complete::finished;
use crate::frame::{Frame, Nest, Opener};
use crate::items::{copied, items_in};
use crate::limits::is_block;
use crate::settle::pushed;
use crate::statement::{open_list, with_frames};
use pli_language::condition::Condition;
use pli_language::expr::{Name, Place};
use pli_language::stmt::{Item, Items, ProcedureHead, Stmt};
use std::alloc::{AllocError, Global};

/// Items with one more, the last.
#[tactic(auto, using(std::proofs::lemmas::List::map_push))]
fn with_last(items: Vec<Item>, item: Item) -> Result<Vec<Item>, AllocError>
    ensures { IfOk result (λ is. map item_of is.items ≡ map item_of items.items ++ item_of item ∷ []) }
{
    let mut items = items;
    items.push(item)?;
    Ok(items)
}

/// A further frame, the innermost.
fn some_pushed(around: Vec<Frame>, frame: Frame) -> Result<Option<Vec<Frame>>, AllocError>
    ensures { IfOk result (λ o. option_of (λ v. frames_of v.items) o ≡ Some (frame_of frame ∷ frames_of around.items)) }
{
    Ok(Some(pushed(around, frame)?))
}

/// A list with one more item.
fn in_list(
    around: Vec<Frame>,
    opener: Opener,
    labels: Vec<Name>,
    items: Vec<Item>,
    pending: Vec<Name>,
    item: Item,
) -> Result<Option<Vec<Frame>>, AllocError>
    ensures { IfOk result (λ o. option_of (λ v. frames_of v.items) o ≡ Some (N.InList (opener_of opener) (map name_of labels.items) (map item_of items.items ++ item_of item ∷ []) (map name_of pending.items) ∷ frames_of around.items)) }
{
    match with_last(items, item) {
        Ok(items) => some_pushed(
            around,
            Frame::List {
                opener,
                labels,
                items,
                pending,
            },
        ),
        Err(fault) => {
            drop(opener);
            Err(fault)
        }
    }
}

/// An item in the innermost list, from the innermost frame and those around it.
fn item_in_frame(
    frame: Frame,
    around: Vec<Frame>,
    item: Item,
) -> Result<Option<Vec<Frame>>, AllocError>
    ensures { IfOk result (λ o. option_of (λ v. frames_of v.items) o ≡ N.with_item (frame_of frame ∷ frames_of around.items) (item_of item)) }
{
    match frame {
        Frame::List {
            opener,
            labels,
            items,
            pending,
        } => in_list(around, opener, labels, items, pending, item),
        Frame::ThenDue { .. } => Ok(None),
        Frame::ThenWhole { .. } => Ok(None),
        Frame::ElseDue { .. } => Ok(None),
        Frame::UnitDue { .. } => Ok(None),
    }
}

/// No list takes the item.
fn no_list(_frames: Vec<Frame>, item: Item) -> Result<Option<Vec<Frame>>, AllocError>
    ensures { IfOk result (λ o. option_of (λ v. frames_of v.items) o ≡ None) }
{
    drop(item);
    Ok(None)
}

/// An item in the innermost list.
#[tactic(auto, using(pli_phrase::proofs::Newest::newest_none, pli_phrase::proofs::Newest::newest_snoc))]
fn with_item(frames: Vec<Frame>, item: Item) -> Result<Option<Vec<Frame>>, AllocError>
    ensures { IfOk result (λ o. option_of (λ v. frames_of v.items) o ≡ N.with_item (frames_of frames.items) (item_of item)) }
{
    let mut frames = frames;
    match frames.pop() {
        Some(frame) => item_in_frame(frame, frames, item),
        None => no_list(frames, item),
    }
}

/// A declaration in the innermost list, before which no label stands.
#[tactic(auto, using(crate::proofs::Entries::declaration_by))]
fn declared(
    frames: Vec<Frame>,
    labels: &[Name],
    item: Item,
) -> Result<Option<Vec<Frame>>, AllocError>
    ensures { IfOk result (λ o. option_of (λ v. frames_of v.items) o ≡ N.with_declaration (frames_of frames.items) (map name_of labels.now) (item_of item)) }
{
    if no_name(labels) {
        with_item(frames, item)
    } else {
        no_list(frames, item)
    }
}

/// A declaration.
pub fn with_declaration(
    nest: Nest,
    labels: Vec<Name>,
    item: Item,
) -> Result<Option<Nest>, AllocError>
    ensures { IfOk result (λ o. option_of nest_of o ≡ N.with_frames (nest_of nest).outer (N.with_declaration (nest_of nest).frames (map name_of labels.items) (item_of item))) }
{
    let frames = declared(nest.frames, &labels, item)?;
    Ok(with_frames(nest.outer, frames))
}

/// A frame in whose list a procedure may stand.
fn is_block_frame(frame: &Frame) -> bool
    ensures { result ≡ S.is_block_list (frame_of frame.now) }
{
    match frame {
        Frame::List { opener, .. } => is_block(opener),
        Frame::ThenDue { .. } => false,
        Frame::ThenWhole { .. } => false,
        Frame::ElseDue { .. } => false,
        Frame::UnitDue { .. } => false,
    }
}

/// A procedure may stand there: in the outermost list of a block, or outside of all.
#[tactic(auto, using(pli_phrase::proofs::Newest::newest_none, pli_phrase::proofs::Newest::newest_snoc))]
fn takes_procedure(frames: &[Frame]) -> bool
    ensures { result ≡ S.takes_procedure (frames_of frames.now) }
{
    match frames.split_last() {
        Some((last, _)) => is_block_frame(last),
        None => true,
    }
}

/// The list of a procedure.
fn procedure_list(alloc: Global, head: ProcedureHead) -> Result<Frame, AllocError>
    ensures { IfOk result (λ f. frame_of f ≡ N.InList (N.OfProcedure (procedure_head_of head)) (procedure_head_of head).labels [] []) }
{
    let labels = copied(alloc, &head.labels)?;
    Ok(open_list(alloc, Opener::Procedure(head), labels))
}

/// The front of a procedure, where it may stand.
fn procedure_opened(
    alloc: Global,
    outer: Vec<Item>,
    frames: Vec<Frame>,
    head: ProcedureHead,
) -> Result<Option<Nest>, AllocError>
    ensures { IfOk result (λ o. option_of nest_of o ≡ Some (S.procedure_nest (map item_of outer.items) (frames_of frames.items) (procedure_head_of head))) }
{
    let frame = procedure_list(alloc, head)?;
    let frames = some_pushed(frames, frame)?;
    Ok(with_frames(outer, frames))
}

/// A procedure that has a label and stands where one may.
fn may_open(nest: &Nest, head: &ProcedureHead) -> bool
    ensures { result ≡ not (S.no_name (procedure_head_of head.now).labels) && S.takes_procedure (nest_of nest.now).frames }
{
    !no_name(&head.labels) && takes_procedure(&nest.frames)
}

/// No procedure begins.
fn no_procedure(_nest: Nest, _head: ProcedureHead) -> Result<Option<Nest>, AllocError>
    ensures { IfOk result (λ o. option_of nest_of o ≡ None) }
{
    Ok(None)
}

/// The front of a procedure, which has a label.
#[tactic(auto, using(crate::proofs::Entries::procedure_by))]
pub fn with_procedure(
    alloc: Global,
    nest: Nest,
    head: ProcedureHead,
) -> Result<Option<Nest>, AllocError>
    ensures { IfOk result (λ o. option_of nest_of o ≡ N.with_labelled_procedure (nest_of nest).outer (nest_of nest).frames (procedure_head_of head).labels (procedure_head_of head)) }
{
    if may_open(&nest, &head) {
        procedure_opened(alloc, nest.outer, nest.frames, head)
    } else {
        no_procedure(nest, head)
    }
}

/// A whole statement in a nest.
fn with_whole(
    alloc: Global,
    outer: Vec<Item>,
    frames: Vec<Frame>,
    statement: Stmt,
) -> Result<Option<Nest>, AllocError>
    ensures { IfOk result (λ o. option_of nest_of o ≡ Some (record { outer = map item_of outer.items; frames = N.completed (stmt_of statement) (frames_of frames.items) })) }
{
    let frames = finished(alloc, true, statement, frames)?;
    Ok(Some(Nest { outer, frames }))
}

/// Nothing is open.
#[tactic(auto, using(pli_phrase::proofs::Newest::newest_none, pli_phrase::proofs::Newest::newest_snoc))]
pub fn is_none(frames: &[Frame]) -> bool
    ensures { result ≡ S.is_none (frames_of frames.now) }
{
    match frames.split_last() {
        Some(_) => false,
        None => true,
    }
}

/// A procedure that is whole, outside of all.
#[tactic(auto, using(pli_phrase::proofs::Newest::newest_none))]
fn outer_procedure(alloc: Global, outer: Vec<Item>, item: Item) -> Result<Option<Nest>, AllocError>
    ensures { IfOk result (λ o. option_of nest_of o ≡ Some (record { outer = map item_of outer.items ++ item_of item ∷ []; frames = [] })) }
{
    let outer = with_last(outer, item)?;
    Ok(Some(Nest {
        outer,
        frames: Vec::new(alloc),
    }))
}

/// A procedure that is whole, in the list around it.
fn inner_procedure(
    outer: Vec<Item>,
    frames: Vec<Frame>,
    item: Item,
) -> Result<Option<Nest>, AllocError>
    ensures { IfOk result (λ o. option_of nest_of o ≡ N.with_frames (map item_of outer.items) (N.with_item (frames_of frames.items) (item_of item))) }
{
    let frames = with_item(frames, item)?;
    Ok(with_frames(outer, frames))
}

/// A procedure that is whole.
#[tactic(auto, using(crate::proofs::Entries::inner_procedure_by))]
fn with_inner_procedure(
    alloc: Global,
    outer: Vec<Item>,
    frames: Vec<Frame>,
    item: Item,
) -> Result<Option<Nest>, AllocError>
    ensures { IfOk result (λ o. option_of nest_of o ≡ N.with_inner_procedure (map item_of outer.items) (frames_of frames.items) (item_of item)) }
{
    if is_none(&frames) {
        outer_procedure(alloc, outer, item)
    } else {
        inner_procedure(outer, frames, item)
    }
}

/// What a list belongs to is whole.
fn ended(
    alloc: Global,
    outer: Vec<Item>,
    opener: Opener,
    body: Items,
    frames: Vec<Frame>,
) -> Result<Option<Nest>, AllocError>
    ensures { IfOk result (λ o. option_of nest_of o ≡ N.ended (map item_of outer.items) (opener_of opener) (items_of body) (frames_of frames.items)) }
{
    match opener {
        Opener::Procedure(head) => {
            with_inner_procedure(alloc, outer, frames, procedure(head, body))
        }
        Opener::Group { place } => with_whole(alloc, outer, frames, group(body, place)),
        Opener::While { condition, place } => {
            with_whole(alloc, outer, frames, while_group(condition, body, place))
        }
        Opener::Count { counting, place } => {
            with_whole(alloc, outer, frames, count_group(counting, body, place))
        }
        Opener::Begin { place } => with_whole(alloc, outer, frames, block(body, place)),
    }
}

/// The items of a list, with the labels of the END that closes it.
#[tactic(auto, using(crate::proofs::Entries::end_labels_by))]
fn with_end_labels(
    items: Vec<Item>,
    labels: Vec<Name>,
    place: Place,
) -> Result<Vec<Item>, AllocError>
    ensures { IfOk result (λ is. map item_of is.items ≡ map item_of items.items ++ N.end_labels (map name_of labels.items) place) }
{
    if no_name(&labels) {
        Ok(items)
    } else {
        with_last(items, end_labels(labels, place))
    }
}

/// What a list holds, with the labels of the END that closes it.
fn body(
    alloc: Global,
    items: Vec<Item>,
    labels: Vec<Name>,
    place: Place,
) -> Result<Items, AllocError>
    ensures { IfOk result (λ is. items_of is ≡ N.items_of_list (map item_of items.items ++ N.end_labels (map name_of labels.items) place)) }
{
    let items = with_end_labels(items, labels, place)?;
    items_in(alloc, items)
}

/// END behind these items.
fn list_ended(
    alloc: Global,
    around: Nest,
    opener: Opener,
    items: Vec<Item>,
    labels: Vec<Name>,
    place: Place,
) -> Result<Option<Nest>, AllocError>
    ensures { IfOk result (λ o. option_of nest_of o ≡ N.ended (nest_of around).outer (opener_of opener) (N.items_of_list (map item_of items.items ++ N.end_labels (map name_of labels.items) place)) (nest_of around).frames) }
{
    match body(alloc, items, labels, place) {
        Ok(body) => ended(alloc, around.outer, opener, body, around.frames),
        Err(fault) => {
            drop(opener);
            Err(fault)
        }
    }
}

/// END ends nothing where another frame is the innermost.
fn none_ended_in(frame: Frame) -> Result<Option<Nest>, AllocError>
    ensures { IfOk result (λ o. option_of nest_of o ≡ None) }
{
    drop(frame);
    Ok(None)
}

/// END, from the innermost frame and the nest around it.
fn frame_ended(
    alloc: Global,
    frame: Frame,
    around: Nest,
    labels: Vec<Name>,
    place: Place,
) -> Result<Option<Nest>, AllocError>
    ensures { IfOk result (λ o. option_of nest_of o ≡ N.with_end (nest_of around).outer (frame_of frame ∷ (nest_of around).frames) (map name_of labels.items) place) }
{
    match frame {
        Frame::List { opener, items, .. } => {
            list_ended(alloc, around, opener, items, labels, place)
        }
        Frame::ThenDue { .. } => none_ended_in(frame),
        Frame::ThenWhole { .. } => none_ended_in(frame),
        Frame::ElseDue { .. } => none_ended_in(frame),
        Frame::UnitDue { .. } => none_ended_in(frame),
    }
}

/// END ends nothing.
fn none_ended(
    _outer: Vec<Item>,
    _frames: Vec<Frame>,
    _labels: Vec<Name>,
) -> Result<Option<Nest>, AllocError>
    ensures { IfOk result (λ o. option_of nest_of o ≡ None) }
{
    Ok(None)
}

/// END.
#[tactic(auto, using(pli_phrase::proofs::Newest::newest_none, pli_phrase::proofs::Newest::newest_snoc))]
pub fn with_end(
    alloc: Global,
    nest: Nest,
    labels: Vec<Name>,
    place: Place,
) -> Result<Option<Nest>, AllocError>
    ensures { IfOk result (λ o. option_of nest_of o ≡ N.with_end (nest_of nest).outer (nest_of nest).frames (map name_of labels.items) place) }
{
    let outer = nest.outer;
    let mut frames = nest.frames;
    match frames.pop() {
        Some(frame) => frame_ended(alloc, frame, Nest { outer, frames }, labels, place),
        None => none_ended(outer, frames, labels),
    }
}

/// SYSTEM behind ON with a condition.
fn system_unit(
    alloc: Global,
    frames: Vec<Frame>,
    condition: Condition,
    place: Place,
) -> Result<Option<Vec<Frame>>, AllocError>
    ensures { IfOk result (λ o. option_of (λ v. frames_of v.items) o ≡ Some (N.completed (T.OnSystem condition place) (frames_of frames.items))) }
{
    Ok(Some(finished(alloc, true, on_system(condition, place), frames)?))
}

/// SYSTEM where another frame is the innermost.
fn no_unit_in(frame: Frame) -> Result<Option<Vec<Frame>>, AllocError>
    ensures { IfOk result (λ o. option_of (λ v. frames_of v.items) o ≡ None) }
{
    drop(frame);
    Ok(None)
}

/// SYSTEM, from the innermost frame and those around it.
fn system_in_frame(
    alloc: Global,
    frame: Frame,
    around: Vec<Frame>,
) -> Result<Option<Vec<Frame>>, AllocError>
    ensures { IfOk result (λ o. option_of (λ v. frames_of v.items) o ≡ N.with_system (frame_of frame ∷ frames_of around.items) []) }
{
    match frame {
        Frame::UnitDue { condition, place } => {
            drop(frame);
            system_unit(alloc, around, condition, place)
        }
        Frame::List { .. } => no_unit_in(frame),
        Frame::ThenDue { .. } => no_unit_in(frame),
        Frame::ThenWhole { .. } => no_unit_in(frame),
        Frame::ElseDue { .. } => no_unit_in(frame),
    }
}

/// SYSTEM where no unit is due.
fn no_unit(_frames: Vec<Frame>) -> Result<Option<Vec<Frame>>, AllocError>
    ensures { IfOk result (λ o. option_of (λ v. frames_of v.items) o ≡ None) }
{
    Ok(None)
}

/// SYSTEM without labels.
#[tactic(auto, using(pli_phrase::proofs::Newest::newest_none, pli_phrase::proofs::Newest::newest_snoc))]
fn system(alloc: Global, frames: Vec<Frame>) -> Result<Option<Vec<Frame>>, AllocError>
    ensures { IfOk result (λ o. option_of (λ v. frames_of v.items) o ≡ N.with_system (frames_of frames.items) []) }
{
    let mut frames = frames;
    match frames.pop() {
        Some(frame) => system_in_frame(alloc, frame, frames),
        None => no_unit(frames),
    }
}

/// SYSTEM, before which no label stands.
#[tactic(auto, using(crate::proofs::Entries::system_by))]
fn system_behind(
    alloc: Global,
    frames: Vec<Frame>,
    labels: &[Name],
) -> Result<Option<Vec<Frame>>, AllocError>
    ensures { IfOk result (λ o. option_of (λ v. frames_of v.items) o ≡ N.with_system (frames_of frames.items) (map name_of labels.now)) }
{
    if no_name(labels) {
        system(alloc, frames)
    } else {
        no_unit(frames)
    }
}

/// SYSTEM.
pub fn with_system(alloc: Global, nest: Nest, labels: Vec<Name>) -> Result<Option<Nest>, AllocError>
    ensures { IfOk result (λ o. option_of nest_of o ≡ N.with_frames (nest_of nest).outer (N.with_system (nest_of nest).frames (map name_of labels.items))) }
{
    let frames = system_behind(alloc, nest.frames, &labels)?;
    Ok(with_frames(nest.outer, frames))
}
