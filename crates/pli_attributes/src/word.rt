// What may stand in parentheses behind an attribute's word.

ghost use Rattle.std.specs.Prelude.{◌≡◌};
ghost use Rattle.pli_language.specs.declared.token.Kind.TheVariants as K;
ghost use Rattle.pli_language.specs.declared.token.Symbol.TheVariants as S;
ghost use Rattle.pli_language.specs.View.{attribute_of, name_of, option_of, size_of};
ghost use Rattle.pli_phrase.specs.Answers.{Gives};
ghost use Rattle.pli_phrase.specs.Tokens.{taken};
ghost use Rattle.pli_phrase.specs.View.{cursor_of};
ghost use Rattle.pli_attributes.specs.Reading.{bit_from, length_from, owner_from, precision_from, scale_from, size_from, whole_or_stuck};

use crate::extent::extent;
use pli_language::declaration::{Attribute, Size};
use pli_language::expr::Name;
use pli_language::token::{Kind, Symbol, Token};
use pli_phrase::cursor::Cursor;
use pli_phrase::stop::Stop;
use pli_phrase::token::{begins, name, number, place, taken};
use std::alloc::Global;

/// The closing parenthesis. Where it leaves a form out, no tokens behind make a head, so that the tokens end inside none.
fn closing<'a>(is_whole: bool, cursor: Cursor<'a>) -> Result<(Token, Cursor<'a>), Stop<'a>>
    ensures { Gives (λ x. (x.0, cursor_of x.1)) result (whole_or_stuck is_whole (taken (K.Symbol S.CloseParenthesis) (cursor_of cursor.entry))) }
{
    let closed = taken(Kind::Symbol(Symbol::CloseParenthesis), cursor);
    if is_whole {
        return closed;
    }
    match closed {
        Err(Stop::Ended) => Err(Stop::Stuck),
        Ok(taken) => Ok(taken),
        Err(stop) => Err(stop),
    }
}

/// Behind the digits of a precision: a scale, which is 0, where one stands. The attribute's word is the first of `at`.
#[tactic(auto, unfolding(crate::specs::Reading::scale_from))]
fn scale<'a>(
    at: &'a [Token],
    digits: u32,
    cursor: Cursor<'a>,
) -> Result<(Option<u64>, Cursor<'a>), Stop<'a>>
    ensures { Gives (λ x. (x.0, cursor_of x.1)) result (scale_from at.now digits (cursor_of cursor.entry)) }
{
    if !begins(Kind::Symbol(Symbol::Comma), &cursor) {
        let (_, cursor) = taken(Kind::Symbol(Symbol::CloseParenthesis), cursor)?;
        return Ok((Some(u64::from(digits)), cursor));
    }
    let (_, cursor) = taken(Kind::Symbol(Symbol::Comma), cursor)?;
    let (scale, cursor) = number(cursor)?;
    let (_, cursor) = closing(scale == 0, cursor)?;
    if scale == 0 {
        Ok((Some(u64::from(digits)), cursor))
    } else {
        Err(Stop::LeftOut(Cursor {
            tokens: at,
            marks: cursor.marks,
        }))
    }
}

/// The digits of a number, where they stand. The attribute's word is the first of `at`.
#[tactic(auto, unfolding(crate::specs::Reading::precision_from))]
pub fn precision<'a>(
    at: &'a [Token],
    cursor: Cursor<'a>,
) -> Result<(Option<u64>, Cursor<'a>), Stop<'a>>
    ensures { Gives (λ x. (x.0, cursor_of x.1)) result (precision_from at.now (cursor_of cursor.entry)) }
{
    if !begins(Kind::Symbol(Symbol::OpenParenthesis), &cursor) {
        return Ok((None, cursor));
    }
    let (_, cursor) = taken(Kind::Symbol(Symbol::OpenParenthesis), cursor)?;
    let (digits, cursor) = number(cursor)?;
    scale(at, digits, cursor)
}

/// Behind BIT, which is the first of `at`: its length, which is 1, where it stands.
#[tactic(auto, unfolding(crate::specs::Reading::bit_from))]
pub fn bit<'a>(at: &'a [Token], cursor: Cursor<'a>) -> Result<(Attribute, Cursor<'a>), Stop<'a>>
    ensures { Gives (λ x. (attribute_of x.0, cursor_of x.1)) result (bit_from at.now (cursor_of cursor.entry)) }
{
    if !begins(Kind::Symbol(Symbol::OpenParenthesis), &cursor) {
        return Ok((Attribute::Bit, cursor));
    }
    let (_, cursor) = taken(Kind::Symbol(Symbol::OpenParenthesis), cursor)?;
    let (length, cursor) = number(cursor)?;
    let (_, cursor) = closing(length == 1, cursor)?;
    if length == 1 {
        Ok((Attribute::Bit, cursor))
    } else {
        Err(Stop::LeftOut(Cursor {
            tokens: at,
            marks: cursor.marks,
        }))
    }
}

/// `*` or an extent.
#[tactic(auto, unfolding(crate::specs::Reading::length_from))]
fn length<'a>(
    alloc: Global,
    source: &[u8],
    cursor: Cursor<'a>,
) -> Result<(Size, Cursor<'a>), Stop<'a>>
    ensures { Gives (λ x. (size_of x.0, cursor_of x.1)) result (length_from source.now (cursor_of cursor.entry)) }
{
    if begins(Kind::Symbol(Symbol::Times), &cursor) {
        let (star, cursor) = taken(Kind::Symbol(Symbol::Times), cursor)?;
        return Ok((
            Size::Star {
                place: place(&star),
            },
            cursor,
        ));
    }
    let (given, cursor) = extent(alloc, source, cursor)?;
    Ok((Size::Given(given), cursor))
}

/// A length or an area's size in parentheses, where it stands.
#[tactic(auto, unfolding(crate::specs::Reading::size_from))]
pub fn size<'a>(
    alloc: Global,
    source: &[u8],
    cursor: Cursor<'a>,
) -> Result<(Option<Size>, Cursor<'a>), Stop<'a>>
    ensures { Gives (λ x. (option_of size_of x.0, cursor_of x.1)) result (size_from source.now (cursor_of cursor.entry)) }
{
    if !begins(Kind::Symbol(Symbol::OpenParenthesis), &cursor) {
        return Ok((None, cursor));
    }
    let (_, cursor) = taken(Kind::Symbol(Symbol::OpenParenthesis), cursor)?;
    let (size, cursor) = length(alloc, source, cursor)?;
    let (_, cursor) = taken(Kind::Symbol(Symbol::CloseParenthesis), cursor)?;
    Ok((Some(size), cursor))
}

/// The name of an area or a locator in parentheses, where it stands.
#[tactic(auto, unfolding(crate::specs::Reading::owner_from))]
pub fn owner<'a>(
    alloc: Global,
    source: &[u8],
    cursor: Cursor<'a>,
) -> Result<(Option<Name>, Cursor<'a>), Stop<'a>>
    ensures { Gives (λ x. (option_of name_of x.0, cursor_of x.1)) result (owner_from source.now (cursor_of cursor.entry)) }
{
    if !begins(Kind::Symbol(Symbol::OpenParenthesis), &cursor) {
        return Ok((None, cursor));
    }
    let (_, cursor) = taken(Kind::Symbol(Symbol::OpenParenthesis), cursor)?;
    let (name, cursor) = name(alloc, source, cursor)?;
    let (_, cursor) = taken(Kind::Symbol(Symbol::CloseParenthesis), cursor)?;
    Ok((Some(name), cursor))
}
