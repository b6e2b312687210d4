// What a head makes of a nest.

ghost use Rattle.std.specs.Prelude.{◌≡◌, IfOk, None, [], map};
ghost use Rattle.pli_head.specs.View.{head_of};
ghost use Rattle.pli_language.specs.Nesting as N;
ghost use Rattle.pli_language.specs.View.{name_of, option_of, tree_of};
ghost use Rattle.pli_nest.specs.Steps as S;
ghost use Rattle.pli_nest.specs.View.{entry_of, frames_of, nest_of};

use crate::build::declaration;
use crate::ends::{is_none, with_declaration, with_end, with_procedure, with_system};
use crate::frame::{Entry, Frame, Nest, Opener};
use crate::items::items_in;
use crate::place::{misplaced as misplaced_at, nest_fault};
use crate::settle::{else_due, settled, takes_else};
use crate::statement::{list, simple, unit_due};
use pli_head::Head;
use pli_language::expr::{Name, Place};
use pli_language::fault::SourceFault;
use pli_language::stmt::{ProcedureHead, Tree};
use std::alloc::{AllocError, Global};

/// A nest in which nothing is open and no procedure is whole.
#[tactic(auto, using(pli_phrase::proofs::Newest::newest_none))]
pub fn outermost(alloc: Global) -> Nest
    ensures { nest_of result ≡ N.outermost }
{
    Nest {
        outer: Vec::new(alloc),
        frames: Vec::new(alloc),
    }
}

/// ELSE where none may stand.
fn no_nest(_nest: Nest, _labels: Vec<Name>) -> Result<Option<Nest>, AllocError>
    ensures { IfOk result (λ o. option_of nest_of o ≡ None) }
{
    Ok(None)
}

/// END, whatever its name.
fn end_of(
    alloc: Global,
    nest: Nest,
    labels: Vec<Name>,
    _name: Option<Name>,
    place: Place,
) -> Result<Option<Nest>, AllocError>
    ensures { IfOk result (λ o. option_of nest_of o ≡ N.with_end (nest_of nest).outer (nest_of nest).frames (map name_of labels.items) place) }
{
    with_end(alloc, nest, labels, place)
}

/// The nest behind a head with these labels, where no ELSE comes.
fn entered_settled(
    alloc: Global,
    nest: Nest,
    labels: Vec<Name>,
    head: Head,
) -> Result<Option<Nest>, AllocError>
    ensures { IfOk result (λ o. option_of nest_of o ≡ S.entered_settled (nest_of nest) (map name_of labels.items) (head_of head)) }
{
    match head {
        Head::ProcedureFront {
            place,
            parameters,
            options,
        } => {
            let head = ProcedureHead {
                labels,
                place,
                parameters,
                options,
            };
            with_procedure(alloc, nest, head)
        }
        Head::Declaring { items, place } => with_declaration(
            nest,
            labels,
            declaration(items, place),
        ),
        Head::Simple(statement) => simple(alloc, nest, labels, statement),
        Head::IfThen { condition, place } => {
            unit_due(nest, labels, Frame::ThenDue { condition, place })
        }
        Head::Else { .. } => no_nest(nest, labels),
        Head::DoGroup { place } => list(alloc, nest, labels, Opener::Group { place }, false),
        Head::DoWhileGroup { condition, place } => {
            list(
                alloc,
                nest,
                labels,
                Opener::While { condition, place },
                false,
            )
        }
        Head::DoCountGroup { counting, place } => {
            list(
                alloc,
                nest,
                labels,
                Opener::Count { counting, place },
                false,
            )
        }
        Head::BeginBlock { place } => list(alloc, nest, labels, Opener::Begin { place }, true),
        Head::On { condition, place } => {
            unit_due(nest, labels, Frame::UnitDue { condition, place })
        }
        Head::System { .. } => with_system(alloc, nest, labels),
        Head::EndOf { name, place } => end_of(alloc, nest, labels, name, place),
    }
}

/// What comes of a head: the nest behind it with what the head breaks, or the place where it may not stand.
fn entry_as(at: Place, fault: Option<SourceFault>, nest: Option<Nest>) -> Entry
    ensures { entry_of result ≡ S.entry_as at (S.list_of_option fault) (option_of nest_of nest) }
{
    match nest {
        Some(nest) => Entry::Entered { nest, fault },
        None => Entry::Misplaced(at),
    }
}

/// What a head makes of a nest, where no ELSE comes.
fn enter_settled(
    alloc: Global,
    nest: Nest,
    labels: Vec<Name>,
    head: Head,
    place: Place,
) -> Result<Entry, AllocError>
    ensures { IfOk result (λ e. entry_of e ≡ S.entry_settled (nest_of nest) (map name_of labels.items) (head_of head) place) }
{
    let at = misplaced_at(&nest.frames, &labels, place);
    let fault = nest_fault(&nest.frames, &head);
    let nest = entered_settled(alloc, nest, labels, head)?;
    Ok(entry_as(at, fault, nest))
}

/// A nest, as it is where no ELSE comes.
fn settled_nest(alloc: Global, nest: Nest) -> Result<Nest, AllocError>
    ensures { IfOk result (λ n. nest_of n ≡ S.on_frames (nest_of nest) (N.settled (nest_of nest).frames)) }
{
    let outer = nest.outer;
    let frames = settled(alloc, nest.frames)?;
    Ok(Nest { outer, frames })
}

/// A head where no ELSE comes.
fn enter_other(
    alloc: Global,
    nest: Nest,
    labels: Vec<Name>,
    head: Head,
    place: Place,
) -> Result<Entry, AllocError>
    ensures { IfOk result (λ e. entry_of e ≡ S.entry_settled (S.on_frames (nest_of nest) (N.settled (nest_of nest).frames)) (map name_of labels.items) (head_of head) place) }
{
    let nest = settled_nest(alloc, nest)?;
    enter_settled(alloc, nest, labels, head, place)
}

/// ELSE, where it may stand.
fn enter_else(nest: Nest) -> Result<Entry, AllocError>
    ensures { IfOk result (λ e. entry_of e ≡ S.EnteredAs (S.on_frames (nest_of nest) (S.else_due (nest_of nest).frames)) []) }
{
    let outer = nest.outer;
    let frames = else_due(nest.frames)?;
    Ok(Entry::Entered {
        nest: Nest { outer, frames },
        fault: None,
    })
}

/// What a head with these labels, whose first token stands at a place, makes of a nest.
///
/// # Errors
///
/// Without memory.
#[tactic(auto, using(crate::proofs::Entries::entry_else, crate::proofs::Entries::entry_other))]
pub fn enter(
    alloc: Global,
    nest: Nest,
    labels: Vec<Name>,
    head: Head,
    place: Place,
) -> Result<Entry, AllocError>
    ensures { IfOk result (λ e. entry_of e ≡ S.entry (nest_of nest) (map name_of labels.items) (head_of head) place) }
{
    if takes_else(&nest, &labels, &head) {
        enter_else(nest)
    } else {
        enter_other(alloc, nest, labels, head, place)
    }
}

/// Where a head may not stand: at the first of these labels where none may stand, else at the first token behind them.
///
/// # Errors
///
/// Without memory.
pub fn misplaced(
    alloc: Global,
    nest: Nest,
    labels: Vec<Name>,
    at: Place,
) -> Result<Place, AllocError>
    ensures { IfOk result (λ p. p ≡ N.misplaced (N.settled (frames_of nest.frames.items)) (map name_of labels.items) at) }
{
    let frames = settled(alloc, nest.frames)?;
    Ok(misplaced_at(&frames, &labels, at))
}

/// The tree of a nest in which nothing is open.
///
/// # Errors
///
/// Without memory.
fn tree(alloc: Global, nest: Nest) -> Result<Tree, AllocError>
    ensures { IfOk result (λ t. tree_of t ≡ record { procedures = N.items_of_list (nest_of nest).outer }) }
{
    let procedures = items_in(alloc, nest.outer)?;
    Ok(Tree { procedures })
}

/// The tree of a nest, where nothing is open.
///
/// # Errors
///
/// Without memory.
pub fn whole_tree(alloc: Global, nest: Nest) -> Result<Option<Tree>, AllocError>
    ensures { IfOk result (λ o. option_of tree_of o ≡ S.whole_tree (nest_of nest)) }
{
    if is_none(&nest.frames) {
        Ok(Some(tree(alloc, nest)?))
    } else {
        Ok(None)
    }
}
