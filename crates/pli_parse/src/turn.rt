// One head of a source, with its labels.

ghost use Rattle.std.specs.Prelude.{◌≡◌, ◌≤◌, [], IfOk, length, map};
ghost use Rattle.pli_language.specs.Marks.{no_marks};
ghost use Rattle.pli_language.specs.Parsing.{faults_of};
ghost use Rattle.pli_language.specs.Refusals.{soonest};
ghost use Rattle.pli_language.specs.Tokens.{most_bytes};
ghost use Rattle.pli_language.specs.View.{name_of, tree_of};
ghost use Rattle.pli_nest.specs.Steps.{list_of_option};
ghost use Rattle.pli_nest.specs.View.{entry_of, nest_of};
ghost use Rattle.pli_phrase.specs.View.{cursor_of, marks_of};
ghost use Rattle.pli_head.specs.Reading.{head_from};
ghost use Rattle.pli_parse.specs.Answers.{stepped};
ghost use Rattle.pli_parse.specs.Reading as R;
ghost use Rattle.pli_parse.specs.View.{step_of};

use crate::end::end_of;
use crate::labels::labels;
use crate::least::{sooner, soonest};
use crate::parentheses::{before, parentheses};
use pli_head::continuation::continuations_at;
use pli_head::reading::head;
use pli_language::expr::{Name, Place};
use pli_language::fault::{SourceFault, SourceKind};
use pli_language::stmt::Tree;
use pli_language::token::Token;
use pli_nest::{Entry, Nest, enter, is_stray_else, misplaced, refused_place, whole_tree};
use pli_phrase::cursor::{Cursor, Marks};
use pli_phrase::stop::Stop;
use pli_phrase::token::place;
use std::alloc::{AllocError, Global};

/// The most arguments and subscripts of a head.
const MOST_ARGUMENTS: u32 = 100;

/// What one head comes to: reading goes on behind it, with the least refusal so far; or it is over.
#[derive(Drop)]
pub enum Turn<'a> {
    On {
        nest: Nest,
        rest: &'a [Token],
        found: Option<SourceFault>,
    },
    Ends(Result<Tree, SourceFault>),
}

fn no_marks(alloc: Global) -> Marks
    ensures { marks_of result ≡ no_marks }
{
    Marks {
        room: MOST_ARGUMENTS,
        faults: Vec::new(alloc),
    }
}

/// Reading is over at a place at which nothing of the kind may stand.
#[tactic(auto, unfolding(pli_language::specs::Refusals::soonest))]
fn stuck<'a>(found: Option<SourceFault>, at: Place) -> Turn<'a>
    ensures { step_of result ≡ stepped found (R.Over (R.stuck_at at)) }
{
    Turn::Ends(Err(sooner(
        found,
        SourceFault {
            line: at.line,
            column: at.column,
            kind: SourceKind::Syntax,
        },
    )))
}

/// Nothing of the kind may stand at this place, behind these labels.
fn refused<'a>(
    alloc: Global,
    nest: Nest,
    labels: Vec<Name>,
    found: Option<SourceFault>,
    at: Place,
) -> Result<Turn<'a>, AllocError>
    ensures { IfOk result (λ x. step_of x ≡ stepped found (R.Over (R.refused_at (nest_of nest) (map name_of labels.items) at))) }
{
    Ok(stuck(found, misplaced(alloc, nest, labels, at)?))
}

/// All tokens are read.
#[tactic(auto, unfolding(pli_language::specs::Refusals::soonest))]
fn whole<'a>(found: Option<SourceFault>, tree: Tree) -> Turn<'a>
    ensures { step_of result ≡ stepped found (R.Over (R.whole_with (tree_of tree))) }
{
    match found {
        Some(fault) => Turn::Ends(Err(fault)),
        None => Turn::Ends(Ok(tree)),
    }
}

/// No token is left, and no label stands last.
fn unlabelled_end<'a>(
    alloc: Global,
    source: &[u8],
    nest: Nest,
    found: Option<SourceFault>,
) -> Result<Turn<'a>, AllocError>
    requires { length source.now ≤ most_bytes }
    ensures { IfOk result (λ x. step_of x ≡ stepped found (R.Over (R.at_end source.now (nest_of nest) []))) }
{
    match whole_tree(alloc, nest)? {
        Some(tree) => Ok(whole(found, tree)),
        None => Ok(stuck(found, end_of(source))),
    }
}

/// No token is left behind these labels.
fn at_end<'a>(
    alloc: Global,
    source: &[u8],
    nest: Nest,
    labels: Vec<Name>,
    found: Option<SourceFault>,
) -> Result<Turn<'a>, AllocError>
    requires { length source.now ≤ most_bytes }
    ensures { IfOk result (λ x. step_of x ≡ stepped found (R.Over (R.at_end source.now (nest_of nest) (map name_of labels.items)))) }
{
    if labels.is_empty() {
        unlabelled_end(alloc, source, nest, found)
    } else {
        refused(alloc, nest, labels, found, end_of(source))
    }
}

/// The least of what was found and of what the tokens before the rest break, which came to these marks.
fn with_faults(
    found: Option<SourceFault>,
    tokens: &[Token],
    rest: &[Token],
    marks: Marks,
) -> Result<Option<SourceFault>, AllocError>
    ensures { IfOk result (λ o. o ≡ soonest found (faults_of tokens.now rest.now (marks_of marks))) }
{
    let marks = parentheses(before(tokens, rest), marks)?;
    Ok(soonest(found, &marks.faults))
}

/// What was found, or a further refusal that stands before it.
#[tactic(auto, unfolding(pli_language::specs::Refusals::soonest))]
fn with_fault(found: Option<SourceFault>, fault: Option<SourceFault>) -> Option<SourceFault>
    ensures { result ≡ soonest found (list_of_option fault) }
{
    match fault {
        Some(fault) => Some(sooner(found, fault)),
        None => found,
    }
}

/// A head whose first tokens are these, as it nests.
#[tactic(auto, using(crate::proofs::Found::soonest_in_two))]
fn placed<'a>(
    entry: Entry,
    found: Option<SourceFault>,
    tokens: &[Token],
    behind: Cursor<'a>,
) -> Result<Turn<'a>, AllocError>
    ensures { IfOk result (λ x. step_of x ≡ stepped found (R.placed (entry_of entry) tokens.now (cursor_of behind.entry))) }
{
    match entry {
        Entry::Misplaced(at) => Ok(stuck(found, at)),
        Entry::Entered { nest, fault } => {
            let found = with_faults(found, tokens, behind.tokens, behind.marks)?;
            Ok(Turn::On {
                nest,
                rest: behind.tokens,
                found: with_fault(found, fault),
            })
        }
    }
}

/// The place of the first of some tokens; that of the head where there is none.
fn left_out_place(at: Place, tokens: &[Token]) -> Place
    ensures { result ≡ R.left_out_place at tokens.now }
{
    match tokens.first() {
        Some(first) => place(first),
        None => at,
    }
}

/// A form that is left out begins at the cursor, in the head that begins with these tokens.
#[tactic(auto, using(crate::proofs::Found::soonest_in_two), unfolding(pli_language::specs::Refusals::soonest))]
fn left_out<'a>(
    found: Option<SourceFault>,
    at: Place,
    tokens: &[Token],
    word: Cursor<'a>,
) -> Result<Turn<'a>, AllocError>
    ensures { IfOk result (λ x. step_of x ≡ stepped found (R.Over (R.left_out_in at tokens.now (cursor_of word.entry)))) }
{
    let place = left_out_place(at, word.tokens);
    let found = with_faults(found, tokens, word.tokens, word.marks)?;
    Ok(Turn::Ends(Err(sooner(
        found,
        SourceFault {
            line: place.line,
            column: place.column,
            kind: SourceKind::LeftOut,
        },
    ))))
}

/// No head is spelled that may stand, at this place with these tokens.
fn broken<'a>(
    alloc: Global,
    source: &[u8],
    nest: Nest,
    labels: Vec<Name>,
    found: Option<SourceFault>,
    at: Place,
    tokens: &[Token],
) -> Result<Turn<'a>, AllocError>
    requires { length source.now ≤ most_bytes }
    ensures { IfOk result (λ x. step_of x ≡ stepped found (R.Over (R.broken_at source.now (nest_of nest) (map name_of labels.items) at tokens.now))) }
{
    let start = Cursor {
        tokens,
        marks: no_marks(alloc),
    };
    let continuations = continuations_at(alloc, source, &start)?;
    let place = refused_place(alloc, nest, labels, at, end_of(source), continuations)?;
    Ok(stuck(found, place))
}

/// The head that begins at this place with these tokens, behind its labels.
fn head_turn<'a>(
    alloc: Global,
    source: &[u8],
    nest: Nest,
    labels: Vec<Name>,
    found: Option<SourceFault>,
    at: Place,
    tokens: &'a [Token],
) -> Result<Turn<'a>, AllocError>
    requires { length source.now ≤ most_bytes }
    ensures { IfOk result (λ x. step_of x ≡ stepped found (R.head_read source.now (nest_of nest) (map name_of labels.items) at tokens.now (head_from source.now (record { tokens = tokens.now; marks = no_marks })))) }
{
    let start = Cursor {
        tokens,
        marks: no_marks(alloc),
    };
    match head(alloc, source, start) {
        Ok((head, behind)) => {
            if is_stray_else(&nest, &labels, &head) {
                broken(alloc, source, nest, labels, found, at, tokens)
            } else {
                placed(enter(alloc, nest, labels, head, at)?, found, tokens, behind)
            }
        }
        Err(Stop::LeftOut(word)) => left_out(found, at, tokens, word),
        Err(Stop::Stuck) => broken(alloc, source, nest, labels, found, at, tokens),
        Err(Stop::Ended) => broken(alloc, source, nest, labels, found, at, tokens),
        Err(Stop::Memory) => Err(AllocError),
    }
}

/// Labels and the head behind them.
#[tactic(auto, unfolding(crate::specs::Reading::turn))]
pub fn next_turn<'a>(
    alloc: Global,
    source: &[u8],
    nest: Nest,
    found: Option<SourceFault>,
    tokens: &'a [Token],
) -> Result<Turn<'a>, AllocError>
    requires { length source.now ≤ most_bytes }
    ensures { IfOk result (λ x. step_of x ≡ stepped found (R.turn source.now (nest_of nest) tokens.now)) }
{
    let (labels, rest) = labels(alloc, source, tokens)?;
    match rest.first() {
        Some(first) => head_turn(alloc, source, nest, labels, found, place(first), rest),
        None => at_end(alloc, source, nest, labels, found),
    }
}
