// Items of format lists that are no lists.

ghost use Rattle.std.specs.Prelude.{◌≡◌, IfOk};
ghost use Rattle.pli_language.specs.Formats.{is_count, is_times, is_width};
ghost use Rattle.pli_language.specs.View.{format_of};
ghost use Rattle.pli_phrase.specs.Answers.{Gives};
ghost use Rattle.pli_phrase.specs.View.{cursor_of};
ghost use Rattle.pli_stream.specs.Reading.{checked, format_from, is_text_width, number_or_one_from, repetition_from, width_from, worded};
ghost use Rattle.pli_stream.specs.View.{direction_of};

use crate::parts::Direction;
use pli_language::expr::Place;
use pli_language::fault::SourceKind;
use pli_language::stmt::Format;
use pli_language::token::{Kind, Symbol, Word};
use pli_phrase::cursor::Cursor;
use pli_phrase::stop::Stop;
use pli_phrase::token::{begins, count, next_kind, number};
use std::alloc::AllocError;

const MOST_WIDTH: u32 = 1024;

const MOST_TIMES: u32 = 1000;

fn is_width(number: u32) -> bool
    ensures { result ≡ is_width number }
{
    1 <= number && number <= MOST_WIDTH
}

/// Whether a format item may be repeated so many times.
pub fn is_times(number: u32) -> bool
    ensures { result ≡ is_times number }
{
    1 <= number && number <= MOST_TIMES
}

/// Marks the place where what stands there isn't good.
pub fn checked<'a>(
    is_good: bool,
    place: Place,
    cursor: Cursor<'a>,
) -> Result<Cursor<'a>, AllocError>
    ensures { IfOk result (λ c. cursor_of c ≡ checked is_good place (cursor_of cursor.entry)) }
{
    if is_good {
        return Ok(cursor);
    }
    let marks = cursor.marks.note(place, SourceKind::BadFormat)?;
    Ok(Cursor {
        tokens: cursor.tokens,
        marks,
    })
}

/// A number in parentheses stands here.
fn is_count(cursor: &Cursor) -> bool
    ensures { result ≡ is_count (cursor_of cursor.now).tokens }
{
    let Some((opening, behind)) = cursor.tokens.split_first() else {
        return false;
    };
    let Some((number, behind)) = behind.split_first() else {
        return false;
    };
    let Some((closing, _)) = behind.split_first() else {
        return false;
    };
    matches!(
        (opening.kind, number.kind, closing.kind),
        (
            Kind::Symbol(Symbol::OpenParenthesis),
            Kind::Number(_),
            Kind::Symbol(Symbol::CloseParenthesis)
        )
    )
}

/// How often an item stands: a number, or one in parentheses, else once.
#[tactic(auto, unfolding(crate::specs::Reading::repetition_from))]
pub fn repetition<'a>(cursor: Cursor<'a>) -> Result<(u32, Cursor<'a>), Stop<'a>>
    ensures { Gives (λ x. (x.0, cursor_of x.1)) result (repetition_from (cursor_of cursor.entry)) }
{
    if matches!(next_kind(&cursor), Some(Kind::Number(_))) {
        return number(cursor);
    }
    if is_count(&cursor) {
        return count(cursor);
    }
    Ok((1, cursor))
}

/// A number in parentheses where one stands, else 1.
#[tactic(auto, unfolding(crate::specs::Reading::number_or_one_from))]
pub fn number_or_one<'a>(cursor: Cursor<'a>) -> Result<(u32, Cursor<'a>), Stop<'a>>
    ensures { Gives (λ x. (x.0, cursor_of x.1)) result (number_or_one_from (cursor_of cursor.entry)) }
{
    if begins(Kind::Symbol(Symbol::OpenParenthesis), &cursor) {
        count(cursor)
    } else {
        Ok((1, cursor))
    }
}

/// A number in parentheses where one stands.
#[tactic(auto, unfolding(crate::specs::Reading::width_from))]
fn width<'a>(cursor: Cursor<'a>) -> Result<(Option<u32>, Cursor<'a>), Stop<'a>>
    ensures { Gives (λ x. (x.0, cursor_of x.1)) result (width_from (cursor_of cursor.entry)) }
{
    if !begins(Kind::Symbol(Symbol::OpenParenthesis), &cursor) {
        return Ok((None, cursor));
    }
    let (width, cursor) = count(cursor)?;
    Ok((Some(width), cursor))
}

/// The width of a text, which GET needs.
fn is_text_width(direction: Direction, width: Option<u32>) -> bool
    ensures { result ≡ is_text_width (direction_of direction) width }
{
    match (direction, width) {
        (_, Some(width)) => is_width(width),
        (Direction::Getting, None) => false,
        (Direction::Putting, None) => true,
    }
}

/// A number of columns or lines, marked at the place of its item where it is out of its range.
fn times<'a>(place: Place, number: u32, cursor: Cursor<'a>) -> Result<(u64, Cursor<'a>), AllocError>
    ensures { IfOk result (λ x. (x.0 ≡ number) × (cursor_of x.1 ≡ checked (is_times number) place (cursor_of cursor.entry))) }
{
    let cursor = checked(is_times(number), place, cursor)?;
    Ok((u64::from(number), cursor))
}

/// The item of this word, behind it. The item began at the place.
#[tactic(auto, unfolding(pli_language::specs::View::format_of))]
fn worded<'a>(
    direction: Direction,
    place: Place,
    word: Word,
    cursor: Cursor<'a>,
) -> Result<(Format, Cursor<'a>), Stop<'a>>
    ensures { Gives (λ x. (format_of x.0, cursor_of x.1)) result (worded (direction_of direction) place word (cursor_of cursor.entry)) }
{
    match word {
        Word::F => {
            let (width, cursor) = count(cursor)?;
            let cursor = checked(is_width(width), place, cursor)?;
            let width = u64::from(width);
            Ok((Format::Fixed { width }, cursor))
        }
        Word::A => {
            let (width, cursor) = width(cursor)?;
            let cursor = checked(is_text_width(direction, width), place, cursor)?;
            let width = width.map(u64::from);
            Ok((Format::Text { width }, cursor))
        }
        Word::X => {
            let (number, cursor) = count(cursor)?;
            let (number, cursor) = times(place, number, cursor)?;
            Ok((Format::Space { number }, cursor))
        }
        Word::Skip => {
            let (number, cursor) = number_or_one(cursor)?;
            let (number, cursor) = times(place, number, cursor)?;
            Ok((Format::Skip { number }, cursor))
        }
        Word::Column => {
            let (number, cursor) = count(cursor)?;
            let (number, cursor) = times(place, number, cursor)?;
            Ok((Format::Column { number }, cursor))
        }
        _ => Err(Stop::Stuck),
    }
}

/// An item that is no list, behind its repetition. It began at the place.
#[tactic(auto, unfolding(crate::specs::Reading::format_from))]
pub fn format<'a>(
    direction: Direction,
    place: Place,
    cursor: Cursor<'a>,
) -> Result<(Format, Cursor<'a>), Stop<'a>>
    ensures { Gives (λ x. (format_of x.0, cursor_of x.1)) result (format_from (direction_of direction) place (cursor_of cursor.entry)) }
{
    let Some((first, rest)) = cursor.tokens.split_first() else {
        return Err(Stop::Ended);
    };
    let Kind::Name(word) = first.kind else {
        return Err(Stop::Stuck);
    };
    let behind = Cursor {
        tokens: rest,
        marks: cursor.marks,
    };
    worded(direction, place, word, behind)
}
