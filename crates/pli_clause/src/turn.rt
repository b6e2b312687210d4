// What DO and RETURN hold.

ghost use Rattle.std.specs.Prelude.{◌≡◌};
ghost use Rattle.pli_language.specs.View.{counting_of, expr_of, option_of};
ghost use Rattle.pli_phrase.specs.Answers.{Gives};
ghost use Rattle.pli_phrase.specs.View.{cursor_of};
ghost use Rattle.pli_clause.specs.Reading.{counting_from, in_parentheses_from, limit_first, range_ended, range_from, step_first, value_from, while_from};
ghost use Rattle.pli_clause.specs.View.{range_of};

use crate::part::expression_behind;
use pli_language::expr::Expr;
use pli_language::stmt::Counting;
use pli_language::token::{Kind, Symbol, Word};
use pli_phrase::cursor::Cursor;
use pli_phrase::expression::{expression, reference};
use pli_phrase::stop::Stop;
use pli_phrase::token::{begins, taken};
use std::alloc::Global;

/// What a counting goes to, and by.
#[derive(Drop)]
pub struct Range {
    pub limit: Option<Expr>,
    pub step: Option<Expr>,
}

/// An expression in parentheses.
///
/// # Errors
///
/// `Stuck` where no such phrase goes on, `Ended` where the tokens end inside it, and `Memory`.
pub fn condition_in_parentheses<'a>(
    alloc: Global,
    source: &[u8],
    cursor: Cursor<'a>,
) -> Result<(Expr, Cursor<'a>), Stop<'a>>
    ensures { Gives (λ x. (expr_of x.0, cursor_of x.1)) result (in_parentheses_from source.now (cursor_of cursor.entry)) }
{
    let (_, cursor) = taken(Kind::Symbol(Symbol::OpenParenthesis), cursor)?;
    let (inner, cursor) = expression(alloc, source, cursor)?;
    let (_, cursor) = taken(Kind::Symbol(Symbol::CloseParenthesis), cursor)?;
    Ok((inner, cursor))
}

/// An expression in parentheses, where it stands.
///
/// # Errors
///
/// `Stuck` where the parenthesis that closes it doesn't follow, `Ended` where the tokens end inside, and `Memory`.
#[tactic(auto, unfolding(crate::specs::Reading::value_from))]
pub fn value<'a>(
    alloc: Global,
    source: &[u8],
    cursor: Cursor<'a>,
) -> Result<(Option<Expr>, Cursor<'a>), Stop<'a>>
    ensures { Gives (λ x. (option_of expr_of x.0, cursor_of x.1)) result (value_from source.now (cursor_of cursor.entry)) }
{
    if !begins(Kind::Symbol(Symbol::OpenParenthesis), &cursor) {
        return Ok((None, cursor));
    }
    let (value, cursor) = condition_in_parentheses(alloc, source, cursor)?;
    Ok((Some(value), cursor))
}

/// A range is whole where neither TO nor BY goes on.
fn range_ended<'a>(range: Range, cursor: Cursor<'a>) -> Result<(Range, Cursor<'a>), Stop<'a>>
    ensures { Gives (λ x. (range_of x.0, cursor_of x.1)) result (range_ended (range_of range) (cursor_of cursor.entry)) }
{
    if begins(Kind::Name(Word::To), &cursor) || begins(Kind::Name(Word::By), &cursor) {
        return Err(Stop::Stuck);
    }
    Ok((range, cursor))
}

/// TO, where it stands, and BY behind it.
fn limit_first<'a>(
    alloc: Global,
    source: &[u8],
    cursor: Cursor<'a>,
) -> Result<(Range, Cursor<'a>), Stop<'a>>
    ensures { Gives (λ x. (range_of x.0, cursor_of x.1)) result (limit_first source.now (cursor_of cursor.entry)) }
{
    let (limit, cursor) = expression_behind(alloc, source, Word::To, cursor)?;
    let (step, cursor) = expression_behind(alloc, source, Word::By, cursor)?;
    range_ended(Range { limit, step }, cursor)
}

/// BY, where it stands, and TO behind it.
fn step_first<'a>(
    alloc: Global,
    source: &[u8],
    cursor: Cursor<'a>,
) -> Result<(Range, Cursor<'a>), Stop<'a>>
    ensures { Gives (λ x. (range_of x.0, cursor_of x.1)) result (step_first source.now (cursor_of cursor.entry)) }
{
    let (step, cursor) = expression_behind(alloc, source, Word::By, cursor)?;
    let (limit, cursor) = expression_behind(alloc, source, Word::To, cursor)?;
    range_ended(Range { limit, step }, cursor)
}

/// TO and BY, each at most once, in either order.
#[tactic(auto, unfolding(crate::specs::Reading::range_from, crate::specs::Parts::both_from))]
fn limit_and_step<'a>(
    alloc: Global,
    source: &[u8],
    cursor: Cursor<'a>,
) -> Result<(Range, Cursor<'a>), Stop<'a>>
    ensures { Gives (λ x. (range_of x.0, cursor_of x.1)) result (range_from source.now (cursor_of cursor.entry)) }
{
    if begins(Kind::Name(Word::To), &cursor) {
        limit_first(alloc, source, cursor)
    } else {
        step_first(alloc, source, cursor)
    }
}

/// The condition behind WHILE, where that word stands.
#[tactic(auto, unfolding(crate::specs::Reading::while_from, crate::specs::Parts::behind_word))]
fn going_on<'a>(
    alloc: Global,
    source: &[u8],
    cursor: Cursor<'a>,
) -> Result<(Option<Expr>, Cursor<'a>), Stop<'a>>
    ensures { Gives (λ x. (option_of expr_of x.0, cursor_of x.1)) result (while_from source.now (cursor_of cursor.entry)) }
{
    if !begins(Kind::Name(Word::While), &cursor) {
        return Ok((None, cursor));
    }
    let (_, cursor) = taken(Kind::Name(Word::While), cursor)?;
    let (condition, cursor) = condition_in_parentheses(alloc, source, cursor)?;
    Ok((Some(condition), cursor))
}

/// A variable, its first value, its range, and the condition under which it goes on.
///
/// # Errors
///
/// `Stuck` where no counting goes on, `Ended` where the tokens end inside one, and `Memory`.
#[tactic(auto, unfolding(crate::specs::Reading::counting_from))]
pub fn counting<'a>(
    alloc: Global,
    source: &[u8],
    cursor: Cursor<'a>,
) -> Result<(Counting, Cursor<'a>), Stop<'a>>
    ensures { Gives (λ x. (counting_of x.0, cursor_of x.1)) result (counting_from source.now (cursor_of cursor.entry)) }
{
    let (variable, cursor) = reference(alloc, source, cursor)?;
    let (_, cursor) = taken(Kind::Symbol(Symbol::Equal), cursor)?;
    let (start, cursor) = expression(alloc, source, cursor)?;
    let (range, cursor) = limit_and_step(alloc, source, cursor)?;
    let (condition, cursor) = going_on(alloc, source, cursor)?;
    Ok((
        Counting {
            variable,
            start,
            limit: range.limit,
            step: range.step,
            condition,
        },
        cursor,
    ))
}
