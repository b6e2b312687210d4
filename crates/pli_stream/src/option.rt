// The options behind GET and PUT.

ghost use Rattle.std.specs.Prelude.{◌≡◌};
ghost use Rattle.pli_language.specs.Heads.{file_word};
ghost use Rattle.pli_language.specs.View.{option_of, skip_of};
ghost use Rattle.pli_phrase.specs.Answers.{Gives};
ghost use Rattle.pli_phrase.specs.View.{cursor_of};
ghost use Rattle.pli_stream.specs.Reading.{file_from, late_file_from, options_end, options_from, skip_from};
ghost use Rattle.pli_stream.specs.View.{direction_of};

use crate::item::{checked, is_times, number_or_one};
use crate::parts::Direction;
use pli_language::stmt::Skip;
use pli_language::token::{Kind, Symbol, Word};
use pli_phrase::cursor::Cursor;
use pli_phrase::stop::Stop;
use pli_phrase::token::{begins, place, taken};

/// The only file of a direction.
fn file_word(direction: Direction) -> Word
    ensures { result ≡ file_word (direction_of direction) }
{
    match direction {
        Direction::Getting => Word::Sysin,
        Direction::Putting => Word::Sysprint,
    }
}

/// Whether FILE stands here, and what is behind it.
#[tactic(auto, unfolding(crate::specs::Reading::file_from))]
fn file<'a>(direction: Direction, cursor: Cursor<'a>) -> Result<(bool, Cursor<'a>), Stop<'a>>
    ensures { Gives (λ x. (x.0, cursor_of x.1)) result (file_from (direction_of direction) (cursor_of cursor.entry)) }
{
    if !begins(Kind::Name(Word::File), &cursor) {
        return Ok((false, cursor));
    }
    let (_, cursor) = taken(Kind::Name(Word::File), cursor)?;
    let (_, cursor) = taken(Kind::Symbol(Symbol::OpenParenthesis), cursor)?;
    let (_, cursor) = taken(Kind::Name(file_word(direction)), cursor)?;
    let (_, cursor) = taken(Kind::Symbol(Symbol::CloseParenthesis), cursor)?;
    Ok((true, cursor))
}

/// SKIP with its number, where it stands.
#[tactic(auto, unfolding(crate::specs::Reading::skip_from))]
fn skip<'a>(cursor: Cursor<'a>) -> Result<(Option<Skip>, Cursor<'a>), Stop<'a>>
    ensures { Gives (λ x. (option_of skip_of x.0, cursor_of x.1)) result (skip_from (cursor_of cursor.entry)) }
{
    if !begins(Kind::Name(Word::Skip), &cursor) {
        return Ok((None, cursor));
    }
    let (word, cursor) = taken(Kind::Name(Word::Skip), cursor)?;
    let (number, cursor) = number_or_one(cursor)?;
    let cursor = checked(is_times(number), place(&word), cursor)?;
    let skip = Skip {
        number: u64::from(number),
        place: place(&word),
    };
    Ok((Some(skip), cursor))
}

/// FILE behind SKIP, where none stood before it.
#[tactic(auto, unfolding(crate::specs::Reading::late_file_from))]
fn late_file<'a>(
    direction: Direction,
    is_filed: bool,
    cursor: Cursor<'a>,
) -> Result<(bool, Cursor<'a>), Stop<'a>>
    ensures { Gives (λ x. (x.0, cursor_of x.1)) result (late_file_from (direction_of direction) is_filed (cursor_of cursor.entry)) }
{
    if is_filed {
        Ok((true, cursor))
    } else {
        file(direction, cursor)
    }
}

/// FILE and SKIP, each at most once, in any order.
#[tactic(auto, unfolding(crate::specs::Reading::options_from))]
pub fn options<'a>(
    direction: Direction,
    cursor: Cursor<'a>,
) -> Result<(Option<Skip>, Cursor<'a>), Stop<'a>>
    ensures { Gives (λ x. (option_of skip_of x.0, cursor_of x.1)) result (options_from (direction_of direction) (cursor_of cursor.entry)) }
{
    let (is_filed, cursor) = file(direction, cursor)?;
    let (skip, cursor) = skip(cursor)?;
    let (_, cursor) = late_file(direction, is_filed, cursor)?;
    if begins(Kind::Name(Word::File), &cursor) || begins(Kind::Name(Word::Skip), &cursor) {
        return Err(Stop::Stuck);
    }
    Ok((skip, cursor))
}
