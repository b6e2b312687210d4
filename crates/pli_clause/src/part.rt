// A word, and what may stand behind one.

ghost use Rattle.std.specs.Prelude.{◌≡◌};
ghost use Rattle.pli_language.specs.View.{expr_of, option_of, reference_of};
ghost use Rattle.pli_phrase.specs.Answers.{Gives};
ghost use Rattle.pli_phrase.specs.Reading.{expr_from};
ghost use Rattle.pli_phrase.specs.View.{cursor_of};
ghost use Rattle.pli_clause.specs.Parts.{behind_word, word_from};
ghost use Rattle.pli_clause.specs.Reading.{into_from};

use pli_language::expr::{Expr, Reference};
use pli_language::token::{Kind, Symbol, Token, Word};
use pli_phrase::cursor::Cursor;
use pli_phrase::expression::{expression, reference};
use pli_phrase::stop::Stop;
use pli_phrase::token::{begins, taken};
use std::alloc::Global;

/// A name's token, with its word.
///
/// # Errors
///
/// `Stuck` where the first token is no name, and `Ended` where there is none.
#[tactic(auto, unfolding(crate::specs::Parts::word_from))]
pub fn word<'a>(cursor: Cursor<'a>) -> Result<((Token, Word), Cursor<'a>), Stop<'a>>
    ensures { Gives (λ x. (x.0, cursor_of x.1)) result (word_from (cursor_of cursor.entry)) }
{
    let Some((first, rest)) = cursor.tokens.split_first() else {
        return Err(Stop::Ended);
    };
    let Kind::Name(word) = first.kind else {
        return Err(Stop::Stuck);
    };
    let behind = Cursor {
        tokens: rest,
        marks: cursor.marks,
    };
    Ok(((*first, word), behind))
}

/// The expression behind a word, where that word stands.
#[tactic(auto, unfolding(crate::specs::Parts::behind_word))]
pub fn expression_behind<'a>(
    alloc: Global,
    source: &[u8],
    word: Word,
    cursor: Cursor<'a>,
) -> Result<(Option<Expr>, Cursor<'a>), Stop<'a>>
    ensures { Gives (λ x. (option_of expr_of x.0, cursor_of x.1)) result (behind_word word (expr_from source.now) (cursor_of cursor.entry)) }
{
    if !begins(Kind::Name(word), &cursor) {
        return Ok((None, cursor));
    }
    let (_, cursor) = taken(Kind::Name(word), cursor)?;
    let (value, cursor) = expression(alloc, source, cursor)?;
    Ok((Some(value), cursor))
}

/// The reference in parentheses behind a word, where that word stands.
#[tactic(auto, unfolding(crate::specs::Parts::behind_word))]
pub fn reference_behind<'a>(
    alloc: Global,
    source: &[u8],
    word: Word,
    cursor: Cursor<'a>,
) -> Result<(Option<Reference>, Cursor<'a>), Stop<'a>>
    ensures { Gives (λ x. (option_of reference_of x.0, cursor_of x.1)) result (behind_word word (into_from source.now) (cursor_of cursor.entry)) }
{
    if !begins(Kind::Name(word), &cursor) {
        return Ok((None, cursor));
    }
    let (_, cursor) = taken(Kind::Name(word), cursor)?;
    let (_, cursor) = taken(Kind::Symbol(Symbol::OpenParenthesis), cursor)?;
    let (target, cursor) = reference(alloc, source, cursor)?;
    let (_, cursor) = taken(Kind::Symbol(Symbol::CloseParenthesis), cursor)?;
    Ok((Some(target), cursor))
}
