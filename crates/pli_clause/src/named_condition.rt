// Conditions.

ghost use Rattle.std.specs.Prelude.{◌≡◌};
ghost use Rattle.pli_language.specs.Heads.{plain_condition};
ghost use Rattle.pli_phrase.specs.Answers.{Gives};
ghost use Rattle.pli_phrase.specs.View.{cursor_of};
ghost use Rattle.pli_clause.specs.Reading.{condition_from, endfile_from};

use crate::part::word;
use pli_language::condition::Condition;
use pli_language::token::{Kind, Symbol, Word};
use pli_phrase::cursor::Cursor;
use pli_phrase::stop::Stop;
use pli_phrase::token::taken;

/// The conditions of one word.
fn plain_condition(word: Word) -> Option<Condition>
    ensures { result ≡ plain_condition word }
{
    match word {
        Word::Area => Some(Condition::Area),
        Word::FixedOverflow => Some(Condition::FixedOverflow),
        Word::ZeroDivide => Some(Condition::ZeroDivide),
        Word::Error => Some(Condition::Error),
        _ => None,
    }
}

/// Behind ENDFILE: the one file that is read.
fn endfile<'a>(cursor: Cursor<'a>) -> Result<(Condition, Cursor<'a>), Stop<'a>>
    ensures { Gives (λ x. (x.0, cursor_of x.1)) result (endfile_from (cursor_of cursor.entry)) }
{
    let (_, cursor) = taken(Kind::Symbol(Symbol::OpenParenthesis), cursor)?;
    let (_, cursor) = taken(Kind::Name(Word::Sysin), cursor)?;
    let (_, cursor) = taken(Kind::Symbol(Symbol::CloseParenthesis), cursor)?;
    Ok((Condition::Endfile, cursor))
}

/// A condition.
///
/// # Errors
///
/// `Stuck` where the tokens name no condition, and `Ended` where they end inside one.
#[tactic(auto, unfolding(crate::specs::Reading::condition_from))]
pub fn condition<'a>(cursor: Cursor<'a>) -> Result<(Condition, Cursor<'a>), Stop<'a>>
    ensures { Gives (λ x. (x.0, cursor_of x.1)) result (condition_from (cursor_of cursor.entry)) }
{
    let ((_, word), cursor) = word(cursor)?;
    match word {
        Word::Endfile => endfile(cursor),
        _ => match plain_condition(word) {
            Some(condition) => Ok((condition, cursor)),
            None => Err(Stop::Stuck),
        },
    }
}
