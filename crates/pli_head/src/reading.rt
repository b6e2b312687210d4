// The head at a place: an assignment where one begins, else what its first word says.

ghost use Rattle.std.specs.Prelude.{◌≡◌};
ghost use Rattle.pli_phrase.specs.Answers.{Gives};
ghost use Rattle.pli_phrase.specs.View.{cursor_of};
ghost use Rattle.pli_head.specs.Reading.{assignment_from, head_behind, head_from, null_from, simple_from, worded};
ghost use Rattle.pli_head.specs.View.{head_of};

use crate::beginning::assigns;
use crate::group::{closed, declaring, end, group, if_then, on, procedure};
use crate::heads::Head;
use crate::statement::{assignment, worded_statement};
use pli_clause::word;
use pli_language::expr::Place;
use pli_language::stmt::Stmt;
use pli_language::token::{Kind, Symbol, Token, Word};
use pli_phrase::cursor::Cursor;
use pli_phrase::expression::Beginning;
use pli_phrase::stop::Stop;
use pli_phrase::token::{begins, place, taken};
use std::alloc::Global;

/// A semicolon alone.
#[tactic(auto, unfolding(pli_language::specs::View::stmt_of))]
fn null<'a>(cursor: Cursor<'a>) -> Result<(Head, Cursor<'a>), Stop<'a>>
    ensures { Gives (λ x. (head_of x.0, cursor_of x.1)) result (null_from (cursor_of cursor.entry)) }
{
    let (semicolon, cursor) = taken(Kind::Symbol(Symbol::Semicolon), cursor)?;
    let statement = Stmt::Null {
        place: place(&semicolon),
    };
    Ok((Head::Simple(statement), cursor))
}

/// A head of this word, behind the word, which is the first of `at` and begins no assignment.
#[tactic(auto, unfolding(crate::specs::Reading::head_behind))]
pub fn worded_head<'a>(
    alloc: Global,
    source: &[u8],
    at: &'a [Token],
    place: Place,
    word: Word,
    cursor: Cursor<'a>,
) -> Result<(Head, Cursor<'a>), Stop<'a>>
    ensures { Gives (λ x. (head_of x.0, cursor_of x.1)) result (head_behind source.now at.now place word (cursor_of cursor.entry)) }
{
    match word {
        Word::Procedure => procedure(alloc, source, place, cursor),
        Word::Declare => declaring(alloc, source, place, cursor),
        Word::If => if_then(alloc, source, place, cursor),
        Word::Else => Ok((Head::Else { place }, cursor)),
        Word::Do => group(alloc, source, place, cursor),
        Word::Begin => closed(Head::BeginBlock { place }, cursor),
        Word::On => on(place, cursor),
        Word::System => closed(Head::System { place }, cursor),
        Word::End => end(alloc, source, place, cursor),
        _ => {
            let (statement, cursor) = worded_statement(alloc, source, at, place, word, cursor)?;
            closed(Head::Simple(statement), cursor)
        }
    }
}

/// An assignment, up to its semicolon.
pub fn assignment_head<'a>(
    alloc: Global,
    source: &[u8],
    place: Place,
    cursor: Cursor<'a>,
) -> Result<(Head, Cursor<'a>), Stop<'a>>
    ensures { Gives (λ x. (head_of x.0, cursor_of x.1)) result (simple_from (assignment_from source.now place (cursor_of cursor.entry))) }
{
    let (statement, cursor) = assignment(alloc, source, place, cursor)?;
    closed(Head::Simple(statement), cursor)
}

/// A head that begins with a word, which is the first of `at`.
fn worded<'a>(
    alloc: Global,
    source: &[u8],
    beginning: Beginning,
    at: &'a [Token],
    first: (Token, Word),
    cursor: Cursor<'a>,
) -> Result<(Head, Cursor<'a>), Stop<'a>>
    ensures { Gives (λ x. (head_of x.0, cursor_of x.1)) result (worded source.now beginning at.now (first, cursor_of cursor.entry)) }
{
    let place = place(&first.0);
    match beginning {
        Beginning::Begins => {
            let start = Cursor {
                tokens: at,
                marks: cursor.marks,
            };
            assignment_head(alloc, source, place, start)
        }
        _ => worded_head(alloc, source, at, place, first.1, cursor),
    }
}

/// The head that begins at the first token. What begins with a reference and `=` is an assignment, whatever its words,
/// but for an IF whose condition in parentheses has THEN behind it.
///
/// # Errors
///
/// `LeftOut` with the word of a form that is left out as its first token; `Stuck` where no head goes on, `Ended` where the
/// tokens end inside one, and `Memory`.
#[tactic(auto, unfolding(crate::specs::Reading::head_from))]
pub fn head<'a>(
    alloc: Global,
    source: &[u8],
    cursor: Cursor<'a>,
) -> Result<(Head, Cursor<'a>), Stop<'a>>
    ensures { Gives (λ x. (head_of x.0, cursor_of x.1)) result (head_from source.now (cursor_of cursor.entry)) }
{
    if begins(Kind::Symbol(Symbol::Semicolon), &cursor) {
        return null(cursor);
    }
    let beginning = assigns(alloc, source, &cursor)?;
    let at = cursor.tokens;
    let (first, behind) = word(cursor)?;
    worded(alloc, source, beginning, at, first, behind)
}
