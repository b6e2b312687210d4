// Where statements begin.

ghost use Rattle.std.specs.Prelude.{◌≡◌, IfOk, map};
ghost use Rattle.pli_language.specs.View.{name_of, option_of};
ghost use Rattle.pli_nest.specs.Steps.{begun_as, begun_frame, no_name};
ghost use Rattle.pli_nest.specs.View.{frame_of, frames_of};

use crate::frame::Frame;
use pli_language::expr::Name;
use std::alloc::AllocError;

/// No name stands there.
pub fn no_name(names: &[Name]) -> bool
    ensures { result ≡ no_name (map name_of names.now) }
{
    match names.split_first() {
        None => true,
        Some(_) => false,
    }
}

/// A frame where a statement with these labels begins; it may be an on-unit, or not.
fn begun_frame(frame: Frame, names: Vec<Name>, may: bool) -> Option<Frame>
    ensures { option_of frame_of result ≡ begun_frame (frame_of frame) (map name_of names.items) may }
{
    match frame {
        Frame::List {
            opener,
            labels,
            items,
            ..
        } => Some(Frame::List {
            opener,
            labels,
            items,
            pending: names,
        }),
        Frame::ThenDue { .. } => no_name(&names).then_some(frame),
        Frame::ThenWhole { .. } => None,
        Frame::ElseDue { .. } => no_name(&names).then_some(frame),
        Frame::UnitDue { .. } => (no_name(&names) && may).then_some(frame),
    }
}

/// What is open where a statement with these labels begins; it may be an on-unit, or not.
#[tactic(auto, using(pli_phrase::proofs::Newest::newest_none, pli_phrase::proofs::Newest::newest_snoc))]
pub fn begun(
    frames: Vec<Frame>,
    names: Vec<Name>,
    may: bool,
) -> Result<Option<Vec<Frame>>, AllocError>
    ensures { IfOk result (λ o. option_of (λ v. frames_of v.items) o ≡ begun_as (frames_of frames.items) (map name_of names.items) may) }
{
    let mut frames = frames;
    let Some(frame) = frames.pop() else {
        return Ok(None);
    };
    let Some(frame) = begun_frame(frame, names, may) else {
        return Ok(None);
    };
    frames.push(frame)?;
    Ok(Some(frames))
}
