// Expressions, references and lists of them.

ghost use Rattle.std.specs.Prelude.{◌≡◌, IfOk, List, [], length, suc};
ghost use Rattle.pli_language.specs.View.{arguments_of, expr_of, exprs_of, reference_of};
ghost use Rattle.pli_phrase.specs.Answers.{Gives};
ghost use Rattle.pli_phrase.specs.Reading.{arguments_from, as_reference, assignment_begins, begun_by, expr_from, exprs_from, item_due, items_from, listed_from, reference_from};
ghost use Rattle.pli_phrase.specs.Lists.{past_comma};
ghost use Rattle.pli_phrase.specs.View.{cursor_of};

use crate::build::{absent, arguments as argument_list, listed, nothing};
use crate::cursor::{Cursor, Marks};
use crate::engine::{no_path, run};
use crate::frame::{Frame, State};
use crate::stop::Stop;
use crate::token::{begins, is_terminal, next_kind, place, taken};
use pli_language::expr::{Arguments, Expr, Exprs, Reference};
use pli_language::token::{Kind, Symbol};
use std::alloc::{AllocError, Global};
use std::mem::replace;

/// An expression, as long as one goes on.
#[tactic(auto, using(crate::proofs::Newest::newest_none), unfolding(crate::specs::Reading::expr_from))]
pub fn expression<'a>(
    alloc: Global,
    source: &[u8],
    cursor: Cursor<'a>,
) -> Result<(Expr, Cursor<'a>), Stop<'a>>
    ensures { Gives (λ x. (expr_of x.0, cursor_of x.1)) result (expr_from source.now (cursor_of cursor.entry)) }
{
    run(alloc, source, State::OperandDue, Vec::new(alloc), cursor)
}

/// An expression that is a reference.
#[tactic(auto, unfolding(pli_language::specs::View::expr_of))]
fn as_reference<'a>(
    alloc: Global,
    expression: Expr,
    cursor: Cursor<'a>,
) -> Result<(Reference, Cursor<'a>), Stop<'a>>
    ensures { Gives (λ x. (reference_of x.0, cursor_of x.1)) result (as_reference (expr_of expression, cursor_of cursor.entry)) }
{
    let mut expression = expression;
    match &mut expression {
        Expr::Refers(reference) => Ok((replace(reference, nothing(alloc)), cursor)),
        _ => Err(Stop::Stuck),
    }
}

/// A reference, as long as one goes on.
#[tactic(auto, using(crate::proofs::Newest::newest_none, crate::proofs::Newest::newest_snoc), unfolding(crate::specs::Reading::reference_from))]
pub fn reference<'a>(
    alloc: Global,
    source: &[u8],
    cursor: Cursor<'a>,
) -> Result<(Reference, Cursor<'a>), Stop<'a>>
    ensures { Gives (λ x. (reference_of x.0, cursor_of x.1)) result (reference_from source.now (cursor_of cursor.entry)) }
{
    let mut frames = Vec::new(alloc);
    frames.push(Frame::Alone)?;
    let state = State::NameDue {
        path: no_path(alloc),
    };
    let (expression, cursor) = run(alloc, source, state, frames, cursor)?;
    as_reference(alloc, expression, cursor)
}

/// An argument is due at the first token, or an expression that is none.
fn item_due<'a>(are_arguments: bool, cursor: Cursor<'a>) -> Result<Cursor<'a>, AllocError>
    ensures { IfOk result (λ c. cursor_of c ≡ item_due are_arguments (cursor_of cursor.entry)) }
{
    if !are_arguments {
        return Ok(cursor);
    }
    match cursor.tokens.split_first() {
        None => Ok(cursor),
        Some((first, _)) => Ok(Cursor {
            tokens: cursor.tokens,
            marks: cursor.marks.argument(place(first))?,
        }),
    }
}

/// The cursor behind a comma, and whether one stands there.
fn past_comma<'a>(cursor: Cursor<'a>) -> (Cursor<'a>, bool)
    ensures { (cursor_of result.0, result.1) ≡ past_comma (cursor_of cursor.entry) }
{
    match cursor.tokens.split_first() {
        Some((first, rest)) if is_terminal(Kind::Symbol(Symbol::Comma), first.kind) => (
            Cursor {
                tokens: rest,
                marks: cursor.marks,
            },
            true,
        ),
        _ => (cursor, false),
    }
}

/// An expression of a list, and whether a further one follows behind a comma.
fn item<'a>(
    alloc: Global,
    source: &[u8],
    are_arguments: bool,
    cursor: Cursor<'a>,
) -> Result<(Expr, Cursor<'a>), Stop<'a>>
    ensures { Gives (λ x. (expr_of x.0, cursor_of x.1)) result (expr_from source.now (item_due are_arguments (cursor_of cursor.entry))) }
{
    let cursor = item_due(are_arguments, cursor)?;
    expression(alloc, source, cursor)
}

/// One expression or more with commas between them.
fn items<'a>(
    alloc: Global,
    source: &[u8],
    are_arguments: bool,
    cursor: Cursor<'a>,
) -> Result<(Exprs, Cursor<'a>), Stop<'a>>
    ensures { Gives (λ x. (exprs_of x.0, cursor_of x.1)) result (items_from (suc (length cursor.entry.tokens.now)) are_arguments source.now [] (cursor_of cursor.entry)) }
{
    let mut expressions = Vec::new(alloc);
    let mut cursor = cursor;
    let mut goes_on = true;
    while goes_on {
        let (expression, behind) = item(alloc, source, are_arguments, cursor)?;
        expressions.push(expression)?;
        let (after, comma) = past_comma(behind);
        cursor = after;
        goes_on = comma;
    }
    Ok((listed(alloc, expressions)?, cursor))
}

/// One expression or more with commas between them, which are no arguments.
#[tactic(auto, unfolding(crate::specs::Reading::exprs_from))]
pub fn expressions<'a>(
    alloc: Global,
    source: &[u8],
    cursor: Cursor<'a>,
) -> Result<(Exprs, Cursor<'a>), Stop<'a>>
    ensures { Gives (λ x. (exprs_of x.0, cursor_of x.1)) result (exprs_from source.now (cursor_of cursor.entry)) }
{
    items(alloc, source, false, cursor)
}

/// What stands behind the open parenthesis of arguments.
#[tactic(auto, using(crate::proofs::Newest::newest_none))]
fn listed_arguments<'a>(
    alloc: Global,
    source: &[u8],
    cursor: Cursor<'a>,
) -> Result<(Arguments, Cursor<'a>), Stop<'a>>
    ensures { Gives (λ x. (arguments_of x.0, cursor_of x.1)) result (listed_from source.now (cursor_of cursor.entry)) }
{
    let close = Kind::Symbol(Symbol::CloseParenthesis);
    if begins(close, &cursor) {
        let (_, cursor) = taken(close, cursor)?;
        return Ok((argument_list(listed(alloc, Vec::new(alloc))?), cursor));
    }
    let (expressions, cursor) = items(alloc, source, true, cursor)?;
    let (_, cursor) = taken(close, cursor)?;
    Ok((argument_list(expressions), cursor))
}

/// Arguments, where they stand.
#[tactic(auto, unfolding(crate::specs::Reading::arguments_from))]
pub fn arguments<'a>(
    alloc: Global,
    source: &[u8],
    cursor: Cursor<'a>,
) -> Result<(Arguments, Cursor<'a>), Stop<'a>>
    ensures { Gives (λ x. (arguments_of x.0, cursor_of x.1)) result (arguments_from source.now (cursor_of cursor.entry)) }
{
    let opening = Kind::Symbol(Symbol::OpenParenthesis);
    if !begins(opening, &cursor) {
        return Ok((absent(), cursor));
    }
    let (_, cursor) = taken(opening, cursor)?;
    listed_arguments(alloc, source, cursor)
}

/// Whether an assignment begins.
#[derive(Clone, Copy, PartialEq, Eq, Debug)]
pub enum Beginning {
    /// A reference stands here with `=` behind it.
    Begins,
    /// No assignment begins here.
    Differs,
    /// The tokens end in the reference or right behind it.
    Unknown,
}

/// Whether an assignment begins here.
#[tactic(auto, unfolding(crate::specs::Reading::assignment_begins))]
pub fn begins_assignment(
    alloc: Global,
    source: &[u8],
    cursor: &Cursor,
) -> Result<Beginning, AllocError>
    ensures { IfOk result (λ b. b ≡ assignment_begins source.now (cursor_of cursor.now)) }
{
    let start = Cursor {
        tokens: cursor.tokens,
        marks: Marks {
            room: cursor.marks.room,
            faults: cursor.marks.faults.clone()?,
        },
    };
    match reference(alloc, source, start) {
        Ok((_, behind)) => Ok(begun_by(next_kind(&behind))),
        Err(Stop::Ended) => Ok(Beginning::Unknown),
        Err(Stop::Memory) => Err(AllocError),
        Err(_) => Ok(Beginning::Differs),
    }
}

fn begun_by(next: Option<Kind>) -> Beginning
    ensures { result ≡ begun_by next }
{
    match next {
        None => Beginning::Unknown,
        Some(Kind::Symbol(Symbol::Equal)) => Beginning::Begins,
        Some(_) => Beginning::Differs,
    }
}
