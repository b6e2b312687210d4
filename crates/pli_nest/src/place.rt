// Where a head may not stand, and what the limits say of one that may.

ghost use Rattle.std.specs.Prelude.{◌≡◌, map};
ghost use Rattle.pli_language.specs.Keywords.{same_bytes};
ghost use Rattle.pli_language.specs.Nesting as N;
ghost use Rattle.pli_language.specs.View.{name_of, option_of};
ghost use Rattle.pli_head.specs.View.{head_of};
ghost use Rattle.pli_nest.specs.Steps as S;
ghost use Rattle.pli_nest.specs.View.{frame_of, frames_of};

use crate::frame::Frame;
use crate::limits::{block_fault, fault_at, labels_ended, unit_fault};
use pli_head::Head;
use pli_language::expr::{Name, Place};
use pli_language::fault::{SourceFault, SourceKind};

/// The place of the first name, else another one.
fn first_place(names: &[Name], other: Place) -> Place
    ensures { result ≡ S.first_place (map name_of names.now) other }
{
    match names.split_first() {
        Some((first, _)) => first.place,
        None => other,
    }
}

/// A frame whose unit is due, before which no label may stand.
fn takes_no_label(frame: &Frame) -> bool
    ensures { result ≡ S.takes_no_label (frame_of frame.now) }
{
    matches!(
        frame,
        Frame::ThenDue { .. } | Frame::ElseDue { .. } | Frame::UnitDue { .. }
    )
}

/// Behind labels where none may stand: at the first of them; else at the first token behind them.
#[tactic(auto, using(pli_phrase::proofs::Newest::newest_none, pli_phrase::proofs::Newest::newest_snoc, crate::proofs::Places::misplaced_here, crate::proofs::Places::misplaced_none))]
pub fn misplaced(frames: &[Frame], labels: &[Name], at: Place) -> Place
    ensures { result ≡ N.misplaced (frames_of frames.now) (map name_of labels.now) at }
{
    match frames.split_last() {
        Some((last, _)) => {
            if takes_no_label(last) {
                first_place(labels, at)
            } else {
                at
            }
        }
        None => at,
    }
}

/// The names have the same letters.
fn same_letters(a: &Name, b: &Name) -> bool
    ensures { result ≡ same_bytes (name_of a.now).letters (name_of b.now).letters }
{
    a.letters == b.letters
}

/// The name has the letters of one of the labels.
#[tactic(auto, using(crate::proofs::EndNames::among_none, crate::proofs::EndNames::among_here, crate::proofs::EndNames::among_behind))]
fn is_among(name: &Name, labels: &[Name]) -> bool
    ensures { result ≡ S.is_among (name_of name.now) (map name_of labels.now) }
{
    let mut rest = labels;
    while let Some((first, behind)) = rest.split_first() {
        if same_letters(first, name) {
            return true;
        }
        rest = behind;
    }
    false
}

/// The refusal of a name behind END that is no label of what it ends.
#[tactic(auto, using(crate::proofs::EndNames::end_fault_among))]
fn end_fault(name: &Name, labels: &[Name]) -> Option<SourceFault>
    ensures { S.list_of_option result ≡ S.end_fault (name_of name.now) (map name_of labels.now) }
{
    if is_among(name, labels) {
        None
    } else {
        Some(fault_at(name.place, SourceKind::EndName))
    }
}

/// What END breaks, with a name or without one.
fn end_name_fault(name: &Option<Name>, labels: &[Name]) -> Option<SourceFault>
    ensures { S.list_of_option result ≡ N.end_name_faults (option_of name_of name.now) (map name_of labels.now) }
{
    match name {
        Some(name) => end_fault(name, labels),
        None => None,
    }
}

/// What END breaks where these are open.
fn ended_fault(frames: &[Frame], name: &Option<Name>) -> Option<SourceFault>
    ensures { S.list_of_option result ≡ N.end_name_faults (option_of name_of name.now) (N.labels_ended (frames_of frames.now)) }
{
    end_name_fault(name, labels_ended(frames))
}

/// The rule that a head which may stand breaks where these are open.
pub fn nest_fault(frames: &[Frame], head: &Head) -> Option<SourceFault>
    ensures { S.list_of_option result ≡ N.nest_faults (frames_of frames.now) (head_of head.now) }
{
    match head {
        Head::ProcedureFront { place, .. } | Head::BeginBlock { place } => {
            block_fault(frames, *place)
        }
        Head::IfThen { place, .. }
        | Head::DoGroup { place }
        | Head::DoWhileGroup { place, .. }
        | Head::DoCountGroup { place, .. }
        | Head::On { place, .. } => unit_fault(frames, *place),
        Head::EndOf { name, .. } => ended_fault(frames, name),
        Head::Declaring { .. } | Head::Simple(_) | Head::Else { .. } | Head::System { .. } => None,
    }
}
