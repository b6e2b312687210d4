// Where a source may end inside a head.

ghost use Rattle.std.specs.Prelude.{◌≡◌, [], ◌∷◌, IfOk, map};
ghost use Rattle.pli_head.specs.View.{head_of};
ghost use Rattle.pli_language.specs.Nesting as N;
ghost use Rattle.pli_language.specs.View.{name_of};
ghost use Rattle.pli_nest.specs.Standing as S;
ghost use Rattle.pli_nest.specs.View.{frame_of, frames_of, nest_of, opener_of};

use crate::begin::no_name;
use crate::frame::{Frame, Nest, Opener};
use crate::limits::{is_block_list, may_return};
use crate::place::misplaced;
use crate::settle::{is_else, is_then_whole, settled};
use pli_head::Head;
use pli_head::continuation::Continuations;
use pli_language::expr::{Name, Place};
use pli_language::token::Word;
use std::alloc::{AllocError, Global};

/// What tells of a head whether it may stand: one of a kind of its own, one that may be an on-unit, or another statement.
#[derive(Clone, Copy, Debug)]
pub enum Front {
    Procedure,
    Declaration,
    End,
    System,
    Unit,
    Nested,
    Return,
}

fn front_of_word(word: Word) -> Front
    ensures { result ≡ S.front_of_word word }
{
    match word {
        Word::Procedure => Front::Procedure,
        Word::Declare => Front::Declaration,
        Word::End => Front::End,
        Word::System => Front::System,
        Word::Return => Front::Return,
        Word::Revert | Word::If | Word::Else | Word::Do | Word::On => Front::Nested,
        _ => Front::Unit,
    }
}

fn is_list(frame: &Frame) -> bool
    ensures { result ≡ S.is_list (frame_of frame.now) }
{
    matches!(frame, Frame::List { .. })
}

fn is_unit_due(frame: &Frame) -> bool
    ensures { result ≡ S.is_unit_due (frame_of frame.now) }
{
    matches!(frame, Frame::UnitDue { .. })
}

/// A statement with these labels may begin in the frame; it may be an on-unit, or not.
fn begins_in(frame: &Frame, labels: &[Name], may: bool) -> bool
    ensures { result ≡ S.begins_in (frame_of frame.now) (map name_of labels.now) may }
{
    match frame {
        Frame::List { .. } => true,
        Frame::ThenDue { .. } | Frame::ElseDue { .. } => no_name(labels),
        Frame::ThenWhole { .. } => false,
        Frame::UnitDue { .. } => no_name(labels) && may,
    }
}

/// A whole procedure may stand there.
#[tactic(auto, using(pli_phrase::proofs::Newest::newest_none, pli_phrase::proofs::Newest::newest_snoc, crate::proofs::Stood::takes_whole_none))]
fn takes_whole(frames: &[Frame]) -> bool
    ensures { result ≡ S.takes_whole (frames_of frames.now) }
{
    match frames.split_last() {
        Some((last, _)) => is_list(last),
        None => true,
    }
}

fn is_procedure_opener(opener: &Opener) -> bool
    ensures { result ≡ S.is_procedure_opener (opener_of opener.now) }
{
    matches!(opener, Opener::Procedure(_))
}

fn is_procedure_list(frame: &Frame) -> bool
    ensures { result ≡ S.is_procedure_list (frame_of frame.now) }
{
    match frame {
        Frame::List { opener, .. } => is_procedure_opener(opener),
        _ => false,
    }
}

/// END may stand in the frame: where it ends a procedure, a list stands around it, or nothing.
fn ends_in(frame: &Frame, around: &[Frame]) -> bool
    ensures { result ≡ S.ends_in (frame_of frame.now) (frames_of around.now) }
{
    if is_procedure_list(frame) {
        takes_whole(around)
    } else {
        is_list(frame)
    }
}

/// A head may stand behind these labels in the frame, which is the last of all.
fn may_stand_in(
    front: Front,
    frame: &Frame,
    around: &[Frame],
    returns: bool,
    labels: &[Name],
) -> bool
    ensures { returns ≡ N.may_return (frame_of frame.now ∷ frames_of around.now) → result ≡ S.may_stand_in front (frame_of frame.now) (frames_of around.now) (map name_of labels.now) }
{
    match front {
        Front::Procedure => !no_name(labels) && is_block_list(frame),
        Front::Declaration => no_name(labels) && is_list(frame),
        Front::End => ends_in(frame, around),
        Front::System => no_name(labels) && is_unit_due(frame),
        Front::Unit => begins_in(frame, labels, true),
        Front::Nested => begins_in(frame, labels, false),
        Front::Return => begins_in(frame, labels, false) && returns,
    }
}

fn is_procedure(front: Front) -> bool
    ensures { result ≡ S.is_procedure front }
{
    matches!(front, Front::Procedure)
}

/// A head may stand behind these labels outside of all.
fn stands_outside(labels: &[Name], front: Front) -> bool
    ensures { result ≡ S.may_stand [] (map name_of labels.now) front }
{
    is_procedure(front) && !no_name(labels)
}

/// A head may stand behind these labels, where no ELSE comes.
#[tactic(auto, using(pli_phrase::proofs::Newest::newest_none, pli_phrase::proofs::Newest::newest_snoc, crate::proofs::Stood::may_stand_none))]
fn may_stand(frames: &[Frame], labels: &[Name], front: Front) -> bool
    ensures { result ≡ S.may_stand (frames_of frames.now) (map name_of labels.now) front }
{
    match frames.split_last() {
        Some((last, around)) => may_stand_in(front, last, around, may_return(frames), labels),
        None => stands_outside(labels, front),
    }
}

fn word_may_stand(frames: &[Frame], labels: &[Name], word: Option<Word>) -> bool
    ensures { result ≡ S.word_may_stand (frames_of frames.now) (map name_of labels.now) word }
{
    match word {
        Some(word) => may_stand(frames, labels, front_of_word(word)),
        None => false,
    }
}

/// A head that the tokens end in may go on as one that may stand.
fn may_go_on(frames: &[Frame], labels: &[Name], continuations: Continuations) -> bool
    ensures { result ≡ S.may_go_on (frames_of frames.now) (map name_of labels.now) continuations }
{
    (continuations.as_assignment && may_stand(frames, labels, Front::Unit))
        || word_may_stand(frames, labels, continuations.as_word)
}

/// Where a head is refused that begins at one place, in a source that ends at another: there, where it may go on as one that may
/// stand, else where it begins; at the first of its labels where none may stand.
///
/// # Errors
///
/// Without memory.
pub fn refused_place(
    alloc: Global,
    nest: Nest,
    labels: Vec<Name>,
    at: Place,
    end: Place,
    continuations: Continuations,
) -> Result<Place, AllocError>
    ensures { IfOk result (λ p. p ≡ S.refused_place (N.settled (frames_of nest.frames.items)) (map name_of labels.items) at end continuations) }
{
    let frames = settled(alloc, nest.frames)?;
    let place = if may_go_on(&frames, &labels, continuations) {
        end
    } else {
        at
    };
    Ok(misplaced(&frames, &labels, place))
}

/// An ELSE behind labels, or where none is due.
pub fn is_stray_else(nest: &Nest, labels: &[Name], head: &Head) -> bool
    ensures { result ≡ S.is_stray_else (nest_of nest.now) (map name_of labels.now) (head_of head.now) }
{
    is_else(head) && !(no_name(labels) && is_then_whole(&nest.frames))
}
