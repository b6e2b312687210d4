// Initial values.

ghost use Rattle.std.specs.Prelude.{◌≡◌, map};
ghost use Rattle.pli_language.specs.View.{initial_item_of, initial_value_of};
ghost use Rattle.pli_phrase.specs.Answers.{Gives};
ghost use Rattle.pli_phrase.specs.View.{cursor_of};
ghost use Rattle.pli_attributes.specs.Reading.{bare_from, initial_item_from, initial_items_from, repetition_from, symbol_value, text_behind, value_from, word_value};

use pli_language::declaration::{InitialItem, InitialValue};
use pli_language::token::{Kind, Symbol, Token, Word};
use pli_phrase::cursor::Cursor;
use pli_phrase::stop::Stop;
use pli_phrase::text::text;
use pli_phrase::token::{begins, number, spelling, taken};
use std::alloc::Global;

/// How often a value stands: once where nothing says it.
#[tactic(auto, unfolding(crate::specs::Reading::repetition_from))]
fn repetition<'a>(cursor: Cursor<'a>) -> Result<(u64, Cursor<'a>), Stop<'a>>
    ensures { Gives (λ x. (x.0, cursor_of x.1)) result (repetition_from (cursor_of cursor.entry)) }
{
    if !begins(Kind::Symbol(Symbol::OpenParenthesis), &cursor) {
        return Ok((1, cursor));
    }
    let (_, cursor) = taken(Kind::Symbol(Symbol::OpenParenthesis), cursor)?;
    let (times, cursor) = number(cursor)?;
    let (_, cursor) = taken(Kind::Symbol(Symbol::CloseParenthesis), cursor)?;
    Ok((u64::from(times), cursor))
}

/// A value of one word, behind it, with the empty parentheses that may stand there.
#[tactic(auto, unfolding(crate::specs::Reading::bare_from))]
fn bare<'a>(value: InitialValue, cursor: Cursor<'a>) -> Result<(InitialValue, Cursor<'a>), Stop<'a>>
    ensures { Gives (λ x. (initial_value_of x.0, cursor_of x.1)) result (bare_from (initial_value_of value) (cursor_of cursor.entry)) }
{
    if !begins(Kind::Symbol(Symbol::OpenParenthesis), &cursor) {
        return Ok((value, cursor));
    }
    let (_, cursor) = taken(Kind::Symbol(Symbol::OpenParenthesis), cursor)?;
    let (_, cursor) = taken(Kind::Symbol(Symbol::CloseParenthesis), cursor)?;
    Ok((value, cursor))
}

/// The value that begins with this symbol, behind it.
fn symbol_value<'a>(
    symbol: Symbol,
    cursor: Cursor<'a>,
) -> Result<(InitialValue, Cursor<'a>), Stop<'a>>
    ensures { Gives (λ x. (initial_value_of x.0, cursor_of x.1)) result (symbol_value symbol (cursor_of cursor.entry)) }
{
    match symbol {
        Symbol::Plus => {
            let (value, cursor) = number(cursor)?;
            Ok((InitialValue::Number(i64::from(value)), cursor))
        }
        Symbol::Minus => {
            let (value, cursor) = number(cursor)?;
            Ok((InitialValue::Number(-i64::from(value)), cursor))
        }
        Symbol::Times => Ok((InitialValue::Skip, cursor)),
        _ => Err(Stop::Stuck),
    }
}

/// The value that begins with this word, behind it.
fn word_value<'a>(word: Word, cursor: Cursor<'a>) -> Result<(InitialValue, Cursor<'a>), Stop<'a>>
    ensures { Gives (λ x. (initial_value_of x.0, cursor_of x.1)) result (word_value word (cursor_of cursor.entry)) }
{
    match word {
        Word::Null => bare(InitialValue::Null, cursor),
        Word::Empty => bare(InitialValue::Empty, cursor),
        _ => Err(Stop::Stuck),
    }
}

/// The text of a token, behind it.
fn text_value<'a>(
    alloc: Global,
    source: &[u8],
    token: &Token,
    cursor: Cursor<'a>,
) -> Result<(InitialValue, Cursor<'a>), Stop<'a>>
    ensures { Gives (λ x. (initial_value_of x.0, cursor_of x.1)) result (text_behind source.now token.now (cursor_of cursor.entry)) }
{
    match text(alloc, spelling(source, token))? {
        Some(text) => Ok((InitialValue::Text(text), cursor)),
        None => Err(Stop::Stuck),
    }
}

/// A value.
#[tactic(auto, unfolding(crate::specs::Reading::value_from))]
fn value<'a>(
    alloc: Global,
    source: &[u8],
    cursor: Cursor<'a>,
) -> Result<(InitialValue, Cursor<'a>), Stop<'a>>
    ensures { Gives (λ x. (initial_value_of x.0, cursor_of x.1)) result (value_from source.now (cursor_of cursor.entry)) }
{
    let Some((first, rest)) = cursor.tokens.split_first() else {
        return Err(Stop::Ended);
    };
    let behind = Cursor {
        tokens: rest,
        marks: cursor.marks,
    };
    match first.kind {
        Kind::Number(value) => Ok((InitialValue::Number(i64::from(value)), behind)),
        Kind::Text => text_value(alloc, source, first, behind),
        Kind::Bit(bit) => Ok((InitialValue::Bit(bit), behind)),
        Kind::Symbol(symbol) => symbol_value(symbol, behind),
        Kind::Name(word) => word_value(word, behind),
    }
}

/// A value with its repetition.
#[tactic(auto, unfolding(crate::specs::Reading::initial_item_from))]
fn initial_item<'a>(
    alloc: Global,
    source: &[u8],
    cursor: Cursor<'a>,
) -> Result<(InitialItem, Cursor<'a>), Stop<'a>>
    ensures { Gives (λ x. (initial_item_of x.0, cursor_of x.1)) result (initial_item_from source.now (cursor_of cursor.entry)) }
{
    let (repetition, cursor) = repetition(cursor)?;
    let (value, cursor) = value(alloc, source, cursor)?;
    Ok((InitialItem { repetition, value }, cursor))
}

/// One value or more, with commas between them.
pub fn initial_items<'a>(
    alloc: Global,
    source: &[u8],
    cursor: Cursor<'a>,
) -> Result<(Vec<InitialItem>, Cursor<'a>), Stop<'a>>
    ensures { Gives (λ x. (map initial_item_of x.0.items, cursor_of x.1)) result (initial_items_from source.now (cursor_of cursor.entry)) }
{
    let (first, behind) = initial_item(alloc, source, cursor)?;
    let mut items = Vec::new(alloc);
    items.push(first)?;
    let mut rest = behind;
    'further: while begins(Kind::Symbol(Symbol::Comma), &rest) {
        let (_, behind) = taken(Kind::Symbol(Symbol::Comma), rest)?;
        let (item, after) = initial_item(alloc, source, behind)?;
        items.push(item)?;
        rest = after;
    }
    Ok((items, rest))
}
