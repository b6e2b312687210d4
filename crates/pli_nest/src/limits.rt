// What the limits say of what is open, what END must be called, and where RETURN may stand.

ghost use Rattle.std.specs.Prelude.{◌≡◌, IfSome, count_by, map};
ghost use Rattle.std.specs.List.{list_any};
ghost use Rattle.pli_language.specs.Keywords.{same_bytes};
ghost use Rattle.pli_language.specs.Marks.{fault_at};
ghost use Rattle.pli_language.specs.Nesting as N;
ghost use Rattle.pli_language.specs.View.{name_of, option_of};
ghost use Rattle.pli_nest.specs.Steps.{is_block_list, is_unit, labels_of, list_of_option, returning};
ghost use Rattle.pli_nest.specs.View.{frame_of, frames_of, opener_of};
ghost use Rattle.pli_language.specs.declared.fault.SourceKind.TheVariants as K;

use crate::frame::{Frame, Opener};
use pli_language::expr::{Name, Place};
use pli_language::fault::{SourceFault, SourceKind};

/// The most groups, IFs and on-units that may be open around another one.
const MOST_UNITS: usize = 64;

/// The most procedures and begin blocks that may be open around another one.
const MOST_BLOCKS: usize = 16;

/// A procedure or a begin block.
pub fn is_block(opener: &Opener) -> bool
    ensures { result ≡ N.is_block (opener_of opener.now) }
{
    matches!(opener, Opener::Procedure(_) | Opener::Begin { .. })
}

/// A group, an IF or an on-unit.
fn is_unit(frame: &Frame) -> bool
    ensures { result ≡ is_unit (frame_of frame.now) }
{
    match frame {
        Frame::List { opener, .. } => !is_block(opener),
        Frame::ThenWhole { .. } => false,
        _ => true,
    }
}

/// A procedure or a begin block.
pub fn is_block_list(frame: &Frame) -> bool
    ensures { result ≡ is_block_list (frame_of frame.now) }
{
    match frame {
        Frame::List { opener, .. } => is_block(opener),
        _ => false,
    }
}

/// The groups, IFs and on-units that are open.
#[tactic(auto, using(pli_phrase::proofs::Newest::newest_none, pli_phrase::proofs::Newest::newest_snoc, crate::proofs::Counts::units_step))]
fn units(frames: &[Frame]) -> usize
    ensures { result ≡ N.units (frames_of frames.now) }
{
    let mut count = 0;
    let mut around = frames;
    while let Some((last, before)) = around.split_last() {
        if is_unit(last) {
            count += 1;
        }
        around = before;
    }
    count
}

/// The procedures and begin blocks that are open.
#[tactic(auto, using(pli_phrase::proofs::Newest::newest_none, pli_phrase::proofs::Newest::newest_snoc, crate::proofs::Counts::blocks_step))]
fn blocks(frames: &[Frame]) -> usize
    ensures { result ≡ N.blocks (frames_of frames.now) }
{
    let mut count = 0;
    let mut around = frames;
    while let Some((last, before)) = around.split_last() {
        if is_block_list(last) {
            count += 1;
        }
        around = before;
    }
    count
}

/// A rule that is broken at a place.
pub fn fault_at(place: Place, kind: SourceKind) -> SourceFault
    ensures { result ≡ fault_at place kind }
{
    SourceFault {
        line: place.line,
        column: place.column,
        kind,
    }
}

/// The refusal of one more group, IF or on-unit where as many are open as may be.
pub fn unit_fault(frames: &[Frame], place: Place) -> Option<SourceFault>
    ensures { list_of_option result ≡ N.too_many N.most_units (N.units (frames_of frames.now)) place }
{
    if units(frames) >= MOST_UNITS {
        Some(fault_at(place, SourceKind::TooLarge))
    } else {
        None
    }
}

/// The refusal of one more block where as many are open as may be.
pub fn block_fault(frames: &[Frame], place: Place) -> Option<SourceFault>
    ensures { list_of_option result ≡ N.too_many N.most_blocks (N.blocks (frames_of frames.now)) place }
{
    if blocks(frames) >= MOST_BLOCKS {
        Some(fault_at(place, SourceKind::TooLarge))
    } else {
        None
    }
}

/// Whether RETURN may stand in this frame, where it is that which tells.
fn returning(frame: &Frame) -> Option<bool>
    ensures { result ≡ returning (frame_of frame.now) }
{
    match frame {
        Frame::UnitDue { .. } => Some(false),
        Frame::List {
            opener: Opener::Procedure(_),
            ..
        } => Some(true),
        _ => None,
    }
}

/// No on-unit stands between here and the procedure around it.
#[tactic(auto, using(pli_phrase::proofs::Newest::newest_none, pli_phrase::proofs::Newest::newest_snoc, crate::proofs::Counts::returns_here, crate::proofs::Counts::returns_around))]
pub fn may_return(frames: &[Frame]) -> bool
    ensures { result ≡ N.may_return (frames_of frames.now) }
{
    let mut around = frames;
    while let Some((last, before)) = around.split_last() {
        if let Some(answer) = returning(last) {
            return answer;
        }
        around = before;
    }
    false
}

/// The labels of the list that is open, where one is.
fn labels_of(frame: &Frame) -> &[Name]
    ensures { map name_of result.now ≡ labels_of (frame_of frame.now) }
{
    match frame {
        Frame::List { labels, .. } => labels,
        _ => &[],
    }
}

/// The labels of what END ends.
#[tactic(auto, using(pli_phrase::proofs::Newest::newest_none, pli_phrase::proofs::Newest::newest_snoc, crate::proofs::Counts::labels_here))]
pub fn labels_ended(frames: &[Frame]) -> &[Name]
    ensures { map name_of result.now ≡ N.labels_ended (frames_of frames.now) }
{
    match frames.split_last() {
        Some((last, _)) => labels_of(last),
        None => &[],
    }
}
