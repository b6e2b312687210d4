// What is open where no ELSE comes, and where one does.

ghost use Rattle.std.specs.Prelude.{◌≡◌, IfOk, ◌∷◌, map};
ghost use Rattle.pli_head.specs.View.{head_of};
ghost use Rattle.pli_language.specs.Nesting as N;
ghost use Rattle.pli_language.specs.View.{name_of};
ghost use Rattle.pli_nest.specs.Steps as S;
ghost use Rattle.pli_nest.specs.View.{frame_of, frames_of, nest_of};

use crate::begin::no_name;
use crate::build::if_alone;
use crate::complete::finished;
use crate::frame::{Frame, Nest};
use pli_head::Head;
use pli_language::expr::Name;
use std::alloc::{AllocError, Global};

/// One more frame, the innermost.
#[tactic(auto, using(pli_phrase::proofs::Newest::newest_snoc))]
pub fn pushed(frames: Vec<Frame>, frame: Frame) -> Result<Vec<Frame>, AllocError>
    ensures { IfOk result (λ fs. frames_of fs.items ≡ frame_of frame ∷ frames_of frames.items) }
{
    let mut frames = frames;
    frames.push(frame)?;
    Ok(frames)
}

/// What is open where no ELSE comes, from the innermost frame and those around it.
fn settled_frame(alloc: Global, frame: Frame, around: Vec<Frame>) -> Result<Vec<Frame>, AllocError>
    ensures { IfOk result (λ fs. frames_of fs.items ≡ N.settled (frame_of frame ∷ frames_of around.items)) }
{
    match frame {
        Frame::ThenWhole {
            condition,
            unit,
            place,
        } => finished(alloc, false, if_alone(condition, unit, place), around),
        Frame::List { .. } => pushed(around, frame),
        Frame::ThenDue { .. } => pushed(around, frame),
        Frame::ElseDue { .. } => pushed(around, frame),
        Frame::UnitDue { .. } => pushed(around, frame),
    }
}

/// What is open where no ELSE comes.
#[tactic(auto, using(pli_phrase::proofs::Newest::newest_none, pli_phrase::proofs::Newest::newest_snoc))]
pub fn settled(alloc: Global, frames: Vec<Frame>) -> Result<Vec<Frame>, AllocError>
    ensures { IfOk result (λ fs. frames_of fs.items ≡ N.settled (frames_of frames.items)) }
{
    let mut frames = frames;
    match frames.pop() {
        Some(frame) => settled_frame(alloc, frame, frames),
        None => Ok(frames),
    }
}

/// An IF whose unit is whole, with its ELSE due; any other frame as it is.
fn with_else(frame: Frame) -> Frame
    ensures { frame_of result ≡ S.with_else (frame_of frame) }
{
    match frame {
        Frame::ThenWhole {
            condition,
            unit,
            place,
        } => Frame::ElseDue {
            condition,
            unit,
            place,
        },
        Frame::List { .. } => frame,
        Frame::ThenDue { .. } => frame,
        Frame::ElseDue { .. } => frame,
        Frame::UnitDue { .. } => frame,
    }
}

/// What is open behind ELSE.
#[tactic(auto, using(pli_phrase::proofs::Newest::newest_none, pli_phrase::proofs::Newest::newest_snoc, crate::proofs::Entries::else_due_here))]
pub fn else_due(frames: Vec<Frame>) -> Result<Vec<Frame>, AllocError>
    ensures { IfOk result (λ fs. frames_of fs.items ≡ S.else_due (frames_of frames.items)) }
{
    let mut frames = frames;
    match frames.pop() {
        Some(frame) => pushed(frames, with_else(frame)),
        None => Ok(frames),
    }
}

/// The head is an ELSE.
pub fn is_else(head: &Head) -> bool
    ensures { result ≡ S.is_else (head_of head.now) }
{
    matches!(head, Head::Else { .. })
}

/// An IF whose unit is whole.
fn is_whole_if(frame: &Frame) -> bool
    ensures { result ≡ S.is_whole_if (frame_of frame.now) }
{
    matches!(frame, Frame::ThenWhole { .. })
}

/// The innermost frame is an IF whose unit is whole.
#[tactic(auto, using(pli_phrase::proofs::Newest::newest_none, pli_phrase::proofs::Newest::newest_snoc, crate::proofs::Entries::then_whole_here))]
pub fn is_then_whole(frames: &[Frame]) -> bool
    ensures { result ≡ S.is_then_whole (frames_of frames.now) }
{
    match frames.split_last() {
        Some((last, _)) => is_whole_if(last),
        None => false,
    }
}

/// An ELSE without labels behind an IF whose unit is whole.
pub fn takes_else(nest: &Nest, labels: &[Name], head: &Head) -> bool
    ensures { result ≡ S.takes_else (nest_of nest.now) (map name_of labels.now) (head_of head.now) }
{
    is_else(head) && no_name(labels) && is_then_whole(&nest.frames)
}
