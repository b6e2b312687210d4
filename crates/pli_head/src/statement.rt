// Simple statements, up to their semicolons.

ghost use Rattle.std.specs.Prelude.{◌≡◌};
ghost use Rattle.pli_language.specs.Formats.{Getting, Putting};
ghost use Rattle.pli_language.specs.Heads.{is_left_out_head};
ghost use Rattle.pli_language.specs.View.{stmt_of};
ghost use Rattle.pli_phrase.specs.Answers.{Gives};
ghost use Rattle.pli_phrase.specs.View.{cursor_of};
ghost use Rattle.pli_head.specs.Reading.{allocate_from, assignment_from, call_from, free_from, go_from, label_from, moved_from, other_from, return_from, revert_from, signal_from, simple_behind};

use pli_clause::{allocations, condition, freeings, value};
use pli_language::expr::Place;
use pli_language::stmt::Stmt;
use pli_language::token::{Kind, Symbol, Token, Word};
use pli_phrase::cursor::Cursor;
use pli_phrase::expression::{arguments, expression, reference};
use pli_phrase::stop::Stop;
use pli_phrase::token::{name, taken};
use pli_stream::{Direction, transfer};
use std::alloc::Global;

/// A reference, `=` and an expression.
#[tactic(auto, unfolding(crate::specs::Reading::assignment_from, pli_language::specs::View::stmt_of))]
pub fn assignment<'a>(
    alloc: Global,
    source: &[u8],
    place: Place,
    cursor: Cursor<'a>,
) -> Result<(Stmt, Cursor<'a>), Stop<'a>>
    ensures { Gives (λ x. (stmt_of x.0, cursor_of x.1)) result (assignment_from source.now place (cursor_of cursor.entry)) }
{
    let (target, cursor) = reference(alloc, source, cursor)?;
    let (_, cursor) = taken(Kind::Symbol(Symbol::Equal), cursor)?;
    let (value, cursor) = expression(alloc, source, cursor)?;
    Ok((
        Stmt::Assign {
            target,
            source: value,
            place,
        },
        cursor,
    ))
}

/// Behind CALL: a procedure with its arguments.
#[tactic(auto, unfolding(pli_language::specs::View::stmt_of))]
fn call<'a>(
    alloc: Global,
    source: &[u8],
    place: Place,
    cursor: Cursor<'a>,
) -> Result<(Stmt, Cursor<'a>), Stop<'a>>
    ensures { Gives (λ x. (stmt_of x.0, cursor_of x.1)) result (call_from source.now place (cursor_of cursor.entry)) }
{
    let (procedure, cursor) = name(alloc, source, cursor)?;
    let (arguments, cursor) = arguments(alloc, source, cursor)?;
    Ok((
        Stmt::Call {
            procedure,
            arguments,
            place,
        },
        cursor,
    ))
}

/// Behind RETURN: a value in parentheses, where it stands.
#[tactic(auto, unfolding(pli_language::specs::View::stmt_of))]
fn returned<'a>(
    alloc: Global,
    source: &[u8],
    place: Place,
    cursor: Cursor<'a>,
) -> Result<(Stmt, Cursor<'a>), Stop<'a>>
    ensures { Gives (λ x. (stmt_of x.0, cursor_of x.1)) result (return_from source.now place (cursor_of cursor.entry)) }
{
    let (value, cursor) = value(alloc, source, cursor)?;
    Ok((Stmt::Return { value, place }, cursor))
}

/// Behind GOTO, or behind GO and TO: a label.
#[tactic(auto, unfolding(pli_language::specs::View::stmt_of))]
fn label<'a>(
    alloc: Global,
    source: &[u8],
    place: Place,
    cursor: Cursor<'a>,
) -> Result<(Stmt, Cursor<'a>), Stop<'a>>
    ensures { Gives (λ x. (stmt_of x.0, cursor_of x.1)) result (label_from source.now place (cursor_of cursor.entry)) }
{
    let (label, cursor) = name(alloc, source, cursor)?;
    Ok((Stmt::Goto { label, place }, cursor))
}

/// Behind GO.
fn go<'a>(
    alloc: Global,
    source: &[u8],
    place: Place,
    cursor: Cursor<'a>,
) -> Result<(Stmt, Cursor<'a>), Stop<'a>>
    ensures { Gives (λ x. (stmt_of x.0, cursor_of x.1)) result (go_from source.now place (cursor_of cursor.entry)) }
{
    let (_, cursor) = taken(Kind::Name(Word::To), cursor)?;
    label(alloc, source, place, cursor)
}

/// Behind SIGNAL: a condition.
#[tactic(auto, unfolding(pli_language::specs::View::stmt_of))]
fn signal<'a>(place: Place, cursor: Cursor<'a>) -> Result<(Stmt, Cursor<'a>), Stop<'a>>
    ensures { Gives (λ x. (stmt_of x.0, cursor_of x.1)) result (signal_from place (cursor_of cursor.entry)) }
{
    let (condition, cursor) = condition(cursor)?;
    Ok((Stmt::Signal { condition, place }, cursor))
}

/// Behind REVERT: a condition.
#[tactic(auto, unfolding(pli_language::specs::View::stmt_of))]
fn revert<'a>(place: Place, cursor: Cursor<'a>) -> Result<(Stmt, Cursor<'a>), Stop<'a>>
    ensures { Gives (λ x. (stmt_of x.0, cursor_of x.1)) result (revert_from place (cursor_of cursor.entry)) }
{
    let (condition, cursor) = condition(cursor)?;
    Ok((Stmt::Revert { condition, place }, cursor))
}

/// Behind ALLOCATE.
#[tactic(auto, unfolding(pli_language::specs::View::stmt_of))]
fn allocate<'a>(
    alloc: Global,
    source: &[u8],
    place: Place,
    cursor: Cursor<'a>,
) -> Result<(Stmt, Cursor<'a>), Stop<'a>>
    ensures { Gives (λ x. (stmt_of x.0, cursor_of x.1)) result (allocate_from source.now place (cursor_of cursor.entry)) }
{
    let (allocations, cursor) = allocations(alloc, source, cursor)?;
    Ok((Stmt::Allocate { allocations, place }, cursor))
}

/// Behind FREE.
#[tactic(auto, unfolding(pli_language::specs::View::stmt_of))]
fn free<'a>(
    alloc: Global,
    source: &[u8],
    place: Place,
    cursor: Cursor<'a>,
) -> Result<(Stmt, Cursor<'a>), Stop<'a>>
    ensures { Gives (λ x. (stmt_of x.0, cursor_of x.1)) result (free_from source.now place (cursor_of cursor.entry)) }
{
    let (freeings, cursor) = freeings(alloc, source, cursor)?;
    Ok((Stmt::Free { freeings, place }, cursor))
}

/// Behind GET.
#[tactic(auto, unfolding(pli_language::specs::View::stmt_of))]
fn get<'a>(
    alloc: Global,
    source: &[u8],
    place: Place,
    cursor: Cursor<'a>,
) -> Result<(Stmt, Cursor<'a>), Stop<'a>>
    ensures { Gives (λ x. (stmt_of x.0, cursor_of x.1)) result (moved_from source.now Getting place (cursor_of cursor.entry)) }
{
    let (transfer, cursor) = transfer(alloc, source, Direction::Getting, cursor)?;
    let statement = Stmt::Get {
        skip: transfer.skip,
        pairs: transfer.pairs,
        place,
    };
    Ok((statement, cursor))
}

/// Behind PUT.
#[tactic(auto, unfolding(pli_language::specs::View::stmt_of))]
fn put<'a>(
    alloc: Global,
    source: &[u8],
    place: Place,
    cursor: Cursor<'a>,
) -> Result<(Stmt, Cursor<'a>), Stop<'a>>
    ensures { Gives (λ x. (stmt_of x.0, cursor_of x.1)) result (moved_from source.now Putting place (cursor_of cursor.entry)) }
{
    let (transfer, cursor) = transfer(alloc, source, Direction::Putting, cursor)?;
    let statement = Stmt::Put {
        skip: transfer.skip,
        pairs: transfer.pairs,
        place,
    };
    Ok((statement, cursor))
}

/// The words with which heads begin that are left out.
fn is_left_out(word: Word) -> bool
    ensures { result ≡ is_left_out_head word }
{
    matches!(
        word,
        Word::Open
            | Word::Close
            | Word::Read
            | Word::Write
            | Word::Rewrite
            | Word::Delete
            | Word::Locate
            | Word::Select
            | Word::Leave
            | Word::Exit
            | Word::Format
            | Word::Default
            | Word::Entry
    )
}

/// A word with which no head begins that is read. It is the first of `at`.
fn other<'a>(
    at: &'a [Token],
    word: Word,
    cursor: Cursor<'a>,
) -> Result<(Stmt, Cursor<'a>), Stop<'a>>
    ensures { Gives (λ x. (stmt_of x.0, cursor_of x.1)) result (other_from at.now word (cursor_of cursor.entry)) }
{
    if is_left_out(word) {
        return Err(Stop::LeftOut(Cursor {
            tokens: at,
            marks: cursor.marks,
        }));
    }
    Err(Stop::Stuck)
}

/// A simple statement of this word, behind the word, which is the first of `at`.
#[tactic(auto, unfolding(crate::specs::Reading::simple_behind, pli_language::specs::View::stmt_of))]
pub fn worded_statement<'a>(
    alloc: Global,
    source: &[u8],
    at: &'a [Token],
    place: Place,
    word: Word,
    cursor: Cursor<'a>,
) -> Result<(Stmt, Cursor<'a>), Stop<'a>>
    ensures { Gives (λ x. (stmt_of x.0, cursor_of x.1)) result (simple_behind source.now at.now place word (cursor_of cursor.entry)) }
{
    match word {
        Word::Call => call(alloc, source, place, cursor),
        Word::Return => returned(alloc, source, place, cursor),
        Word::Goto => label(alloc, source, place, cursor),
        Word::Go => go(alloc, source, place, cursor),
        Word::Stop => Ok((Stmt::Stop { place }, cursor)),
        Word::Signal => signal(place, cursor),
        Word::Revert => revert(place, cursor),
        Word::Allocate => allocate(alloc, source, place, cursor),
        Word::Free => free(alloc, source, place, cursor),
        Word::Get => get(alloc, source, place, cursor),
        Word::Put => put(alloc, source, place, cursor),
        _ => other(at, word, cursor),
    }
}
