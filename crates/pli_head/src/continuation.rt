// How a head may go on in which the tokens end.

ghost use Rattle.std.specs.Prelude.{◌≡◌, IfOk};
ghost use Rattle.pli_phrase.specs.View.{cursor_of, marks_of};
ghost use Rattle.pli_head.specs.Continuing.{continuations, ends_assignment, ends_word, is_if, is_not_begun, may_assign, no_continuation, worded};
ghost use Rattle.pli_head.specs.Reading.{assigns};

use crate::beginning::assigns;
use crate::reading::{assignment_head, worded_head};
use pli_language::expr::Place;
use pli_language::token::{Kind, Token, Word};
use pli_phrase::cursor::{Cursor, Marks};
use pli_phrase::expression::Beginning;
use pli_phrase::stop::Stop;
use pli_phrase::token::place;
use std::alloc::{AllocError, Global};

/// How a head may go on in which the tokens end: as an assignment, and as a head of its first word.
#[derive(Clone, Copy, Debug)]
pub struct Continuations {
    pub as_assignment: bool,
    pub as_word: Option<Word>,
}

/// A cursor at these tokens, with the same marks.
fn cursor_at<'a>(tokens: &'a [Token], marks: &Marks) -> Result<Cursor<'a>, AllocError>
    ensures { IfOk result (λ c. cursor_of c ≡ record { tokens = tokens.now; marks = marks_of marks.now }) }
{
    Ok(Cursor {
        tokens,
        marks: Marks {
            room: marks.room,
            faults: marks.faults.clone()?,
        },
    })
}

fn may_assign(beginning: Beginning) -> bool
    ensures { result ≡ may_assign beginning }
{
    match beginning {
        Beginning::Differs => false,
        Beginning::Begins => true,
        Beginning::Unknown => true,
    }
}

fn is_not_begun(beginning: Beginning) -> bool
    ensures { result ≡ is_not_begun beginning }
{
    match beginning {
        Beginning::Begins => false,
        Beginning::Differs => true,
        Beginning::Unknown => true,
    }
}

fn is_if(word: Word) -> bool
    ensures { result ≡ is_if word }
{
    matches!(word, Word::If)
}

/// The tokens end in an assignment.
fn ends_assignment(
    alloc: Global,
    source: &[u8],
    beginning: Beginning,
    place: Place,
    cursor: &Cursor,
) -> Result<bool, AllocError>
    ensures { IfOk result (λ b. b ≡ ends_assignment source.now beginning place (cursor_of cursor.now)) }
{
    if !may_assign(beginning) {
        return Ok(false);
    }
    match assignment_head(
        alloc,
        source,
        place,
        cursor_at(cursor.tokens, &cursor.marks)?,
    ) {
        Ok(_) => Ok(false),
        Err(Stop::Ended) => Ok(true),
        Err(Stop::Memory) => Err(AllocError),
        Err(_) => Ok(false),
    }
}

/// The tokens end in a head of this word, which stands first in `at`. What begins an assignment may be an IF all the same.
fn ends_word(
    alloc: Global,
    source: &[u8],
    beginning: Beginning,
    at: &[Token],
    place: Place,
    word: Word,
    behind: Cursor,
) -> Result<bool, AllocError>
    ensures { IfOk result (λ b. b ≡ ends_word source.now beginning at.now place word (cursor_of behind.entry)) }
{
    if !is_not_begun(beginning) && !is_if(word) {
        return Ok(false);
    }
    match worded_head(alloc, source, at, place, word, behind) {
        Ok(_) => Ok(false),
        Err(Stop::Ended) => Ok(true),
        Err(Stop::Memory) => Err(AllocError),
        Err(_) => Ok(false),
    }
}

/// How the head of this word may go on, which begins at the cursor.
fn worded(
    alloc: Global,
    source: &[u8],
    cursor: &Cursor,
    place: Place,
    word: Word,
    rest: &[Token],
) -> Result<Continuations, AllocError>
    ensures { IfOk result (λ g. g ≡ worded source.now (assigns source.now (cursor_of cursor.now)) (cursor_of cursor.now) place word (record { tokens = rest.now; marks = marks_of cursor.now.marks })) }
{
    let beginning = assigns(alloc, source, cursor)?;
    let behind = cursor_at(rest, &cursor.marks)?;
    let as_assignment = ends_assignment(alloc, source, beginning, place, cursor)?;
    let ends = ends_word(alloc, source, beginning, cursor.tokens, place, word, behind)?;
    Ok(Continuations {
        as_assignment,
        as_word: ends.then_some(word),
    })
}

fn none() -> Continuations
    ensures { result ≡ no_continuation }
{
    Continuations {
        as_assignment: false,
        as_word: None,
    }
}

/// How the head that begins at the first token may go on behind the last one.
///
/// # Errors
///
/// Without memory.
#[tactic(auto, unfolding(crate::specs::Continuing::continuations))]
pub fn continuations_at(
    alloc: Global,
    source: &[u8],
    cursor: &Cursor,
) -> Result<Continuations, AllocError>
    ensures { IfOk result (λ g. g ≡ continuations source.now (cursor_of cursor.now)) }
{
    let Some((first, rest)) = cursor.tokens.split_first() else {
        return Ok(none());
    };
    match first.kind {
        Kind::Name(word) => worded(alloc, source, cursor, place(first), word, rest),
        _ => Ok(none()),
    }
}
