// Fronts of procedures, declarations, groups and blocks, behind their words.

ghost use Rattle.std.specs.Prelude.{◌≡◌};
ghost use Rattle.pli_phrase.specs.Answers.{Gives};
ghost use Rattle.pli_phrase.specs.View.{cursor_of};
ghost use Rattle.pli_head.specs.Reading.{closed, declaring_from, do_count_from, do_from, do_while_from, end_from, if_from, on_from, procedure_from};
ghost use Rattle.pli_head.specs.View.{head_of};

use crate::heads::Head;
use pli_attributes::declare_items;
use pli_clause::{condition, condition_in_parentheses, counting, options, parameters};
use pli_language::expr::Place;
use pli_language::token::{Kind, Symbol, Word};
use pli_phrase::cursor::Cursor;
use pli_phrase::expression::{Beginning, begins_assignment, expression};
use pli_phrase::stop::Stop;
use pli_phrase::token::{begins, name, taken};
use std::alloc::Global;

/// A head that its semicolon closes.
pub fn closed<'a>(head: Head, cursor: Cursor<'a>) -> Result<(Head, Cursor<'a>), Stop<'a>>
    ensures { Gives (λ x. (head_of x.0, cursor_of x.1)) result (closed (head_of head) (cursor_of cursor.entry)) }
{
    let (_, cursor) = taken(Kind::Symbol(Symbol::Semicolon), cursor)?;
    Ok((head, cursor))
}

/// Behind PROCEDURE.
#[tactic(auto, unfolding(crate::specs::Reading::procedure_from))]
pub fn procedure<'a>(
    alloc: Global,
    source: &[u8],
    place: Place,
    cursor: Cursor<'a>,
) -> Result<(Head, Cursor<'a>), Stop<'a>>
    ensures { Gives (λ x. (head_of x.0, cursor_of x.1)) result (procedure_from source.now place (cursor_of cursor.entry)) }
{
    let (parameters, cursor) = parameters(alloc, source, cursor)?;
    let (options, cursor) = options(alloc, source, cursor)?;
    let head = Head::ProcedureFront {
        place,
        parameters,
        options,
    };
    closed(head, cursor)
}

/// Behind DECLARE.
pub fn declaring<'a>(
    alloc: Global,
    source: &[u8],
    place: Place,
    cursor: Cursor<'a>,
) -> Result<(Head, Cursor<'a>), Stop<'a>>
    ensures { Gives (λ x. (head_of x.0, cursor_of x.1)) result (declaring_from source.now place (cursor_of cursor.entry)) }
{
    let (items, cursor) = declare_items(alloc, source, cursor)?;
    closed(Head::Declaring { items, place }, cursor)
}

/// Behind IF.
pub fn if_then<'a>(
    alloc: Global,
    source: &[u8],
    place: Place,
    cursor: Cursor<'a>,
) -> Result<(Head, Cursor<'a>), Stop<'a>>
    ensures { Gives (λ x. (head_of x.0, cursor_of x.1)) result (if_from source.now place (cursor_of cursor.entry)) }
{
    let (condition, cursor) = expression(alloc, source, cursor)?;
    let (_, cursor) = taken(Kind::Name(Word::Then), cursor)?;
    Ok((Head::IfThen { condition, place }, cursor))
}

/// Behind DO: WHILE with its condition.
fn do_while<'a>(
    alloc: Global,
    source: &[u8],
    place: Place,
    cursor: Cursor<'a>,
) -> Result<(Head, Cursor<'a>), Stop<'a>>
    ensures { Gives (λ x. (head_of x.0, cursor_of x.1)) result (do_while_from source.now place (cursor_of cursor.entry)) }
{
    let (_, cursor) = taken(Kind::Name(Word::While), cursor)?;
    let (condition, cursor) = condition_in_parentheses(alloc, source, cursor)?;
    closed(Head::DoWhileGroup { condition, place }, cursor)
}

/// Behind DO: a variable that counts.
fn do_count<'a>(
    alloc: Global,
    source: &[u8],
    place: Place,
    cursor: Cursor<'a>,
) -> Result<(Head, Cursor<'a>), Stop<'a>>
    ensures { Gives (λ x. (head_of x.0, cursor_of x.1)) result (do_count_from source.now place (cursor_of cursor.entry)) }
{
    let (counting, cursor) = counting(alloc, source, cursor)?;
    closed(Head::DoCountGroup { counting, place }, cursor)
}

/// Behind DO. The word WHILE may be the variable that counts, or stand before a condition; where the tokens end in it, either.
#[tactic(auto, unfolding(crate::specs::Reading::do_from))]
pub fn group<'a>(
    alloc: Global,
    source: &[u8],
    place: Place,
    cursor: Cursor<'a>,
) -> Result<(Head, Cursor<'a>), Stop<'a>>
    ensures { Gives (λ x. (head_of x.0, cursor_of x.1)) result (do_from source.now place (cursor_of cursor.entry)) }
{
    if begins(Kind::Symbol(Symbol::Semicolon), &cursor) {
        return closed(Head::DoGroup { place }, cursor);
    }
    if !begins(Kind::Name(Word::While), &cursor) {
        return do_count(alloc, source, place, cursor);
    }
    match begins_assignment(alloc, source, &cursor)? {
        Beginning::Begins => do_count(alloc, source, place, cursor),
        Beginning::Differs => do_while(alloc, source, place, cursor),
        Beginning::Unknown => Err(Stop::Ended),
    }
}

/// Behind ON: a condition.
pub fn on<'a>(place: Place, cursor: Cursor<'a>) -> Result<(Head, Cursor<'a>), Stop<'a>>
    ensures { Gives (λ x. (head_of x.0, cursor_of x.1)) result (on_from place (cursor_of cursor.entry)) }
{
    let (condition, cursor) = condition(cursor)?;
    Ok((Head::On { condition, place }, cursor))
}

/// Behind END: a name, where it stands.
#[tactic(auto, unfolding(crate::specs::Reading::end_from))]
pub fn end<'a>(
    alloc: Global,
    source: &[u8],
    place: Place,
    cursor: Cursor<'a>,
) -> Result<(Head, Cursor<'a>), Stop<'a>>
    ensures { Gives (λ x. (head_of x.0, cursor_of x.1)) result (end_from source.now place (cursor_of cursor.entry)) }
{
    if begins(Kind::Symbol(Symbol::Semicolon), &cursor) {
        return closed(Head::EndOf { name: None, place }, cursor);
    }
    let (name, cursor) = name(alloc, source, cursor)?;
    let head = Head::EndOf {
        name: Some(name),
        place,
    };
    closed(head, cursor)
}
