// Single tokens.

ghost use Rattle.std.specs.Prelude.{◌≡◌, ◌<◌, IfOk, MatchOption, length, slice_range, [], ◌∷◌, None, Some, if◌then◌else◌};
ghost use Rattle.pli_language.specs.Keywords.{in_upper_case};
ghost use Rattle.pli_language.specs.Spells.{name_at, next_kind, place_of};
ghost use Rattle.pli_language.specs.View.{name_of, option_of};
ghost use Rattle.pli_phrase.specs.Answers.{Gives};
ghost use Rattle.pli_phrase.specs.Tokens.{begins, count_from, is_terminal, name_from, number_from, same_symbol, same_word, starts_name, taken};
ghost use Rattle.pli_phrase.specs.View.{cursor_of};

use crate::cursor::Cursor;
use crate::stop::Stop;
use pli_language::expr::{Name, Place};
use pli_language::token::{Kind, Symbol, Token, Word};
use std::alloc::{AllocError, Global};

/// The place of a token.
pub fn place(token: &Token) -> Place
    ensures { result ≡ place_of token.now }
{
    Place {
        line: token.line,
        column: token.column,
    }
}

/// The bytes of a token, of which none stand outside the source.
pub fn spelling<'a>(source: &'a [u8], token: &Token) -> &'a [u8]
    ensures { result.now ≡ slice_range source.now token.now.start token.now.end }
{
    let end = token.end.min(source.len());
    let start = token.start.min(end);
    &source[start..end]
}

/// The letters of a name, in upper case.
pub fn letters(alloc: Global, source: &[u8], token: &Token) -> Result<Vec<u8>, AllocError>
    ensures { IfOk result (λ v. v.items ≡ in_upper_case (slice_range source.now token.now.start token.now.end)) }
{
    spelling(source, token)
        .iter()
        .map(|byte| byte.to_ascii_uppercase())
        .collect(alloc)
}

fn same_word(a: Word, b: Word) -> bool
    ensures { result ≡ same_word a b }
{
    a == b
}

fn same_symbol(a: Symbol, b: Symbol) -> bool
    ensures { result ≡ same_symbol a b }
{
    a == b
}

/// A token of this kind is this word or symbol. No other kind is one.
pub fn is_terminal(terminal: Kind, kind: Kind) -> bool
    ensures { result ≡ is_terminal terminal kind }
{
    match (terminal, kind) {
        (Kind::Name(wanted), Kind::Name(word)) => same_word(word, wanted),
        (Kind::Symbol(wanted), Kind::Symbol(symbol)) => same_symbol(symbol, wanted),
        _ => false,
    }
}

/// The kind of the first token.
pub fn next_kind(cursor: &Cursor) -> Option<Kind>
    ensures { result ≡ next_kind (cursor_of cursor.now).tokens }
{
    cursor.tokens.first().map(|token| token.kind)
}

/// The first token is this word or symbol.
pub fn begins(terminal: Kind, cursor: &Cursor) -> bool
    ensures { result ≡ begins terminal (cursor_of cursor.now) }
{
    match cursor.tokens.split_first() {
        Some((first, _)) => is_terminal(terminal, first.kind),
        None => false,
    }
}

/// The first token is a name.
pub fn next_is_name(cursor: &Cursor) -> bool
    ensures { result ≡ starts_name (next_kind (cursor_of cursor.now).tokens) }
{
    matches!(next_kind(cursor), Some(Kind::Name(_)))
}

/// A token that has to be this word or symbol.
#[tactic(auto, unfolding(crate::specs::Tokens::taken))]
pub fn taken<'a>(terminal: Kind, cursor: Cursor<'a>) -> Result<(Token, Cursor<'a>), Stop<'a>>
    ensures { Gives (λ x. (x.0, cursor_of x.1)) result (taken terminal (cursor_of cursor.entry)) }
{
    match cursor.tokens.split_first() {
        Some((first, rest)) if is_terminal(terminal, first.kind) => Ok((
            *first,
            Cursor {
                tokens: rest,
                marks: cursor.marks,
            },
        )),
        Some(_) => Err(Stop::Stuck),
        None => Err(Stop::Ended),
    }
}

/// A name.
#[tactic(auto, unfolding(crate::specs::Tokens::name_from))]
pub fn name<'a>(
    alloc: Global,
    source: &[u8],
    cursor: Cursor<'a>,
) -> Result<(Name, Cursor<'a>), Stop<'a>>
    ensures { Gives (λ x. (name_of x.0, cursor_of x.1)) result (name_from source.now (cursor_of cursor.entry)) }
{
    let Some((first, rest)) = cursor.tokens.split_first() else {
        return Err(Stop::Ended);
    };
    let Kind::Name(word) = first.kind else {
        return Err(Stop::Stuck);
    };
    let name = named(alloc, source, first, word)?;
    Ok((
        name,
        Cursor {
            tokens: rest,
            marks: cursor.marks,
        },
    ))
}

/// The name that a token with this word spells.
pub fn named(alloc: Global, source: &[u8], token: &Token, word: Word) -> Result<Name, AllocError>
    ensures { IfOk result (λ n. name_of n ≡ name_at source.now token.now word) }
{
    Ok(Name {
        letters: letters(alloc, source, token)?,
        word,
        place: place(token),
    })
}

/// A number.
#[tactic(auto, unfolding(crate::specs::Tokens::number_from))]
pub fn number<'a>(cursor: Cursor<'a>) -> Result<(u32, Cursor<'a>), Stop<'a>>
    ensures { Gives (λ x. (x.0, cursor_of x.1)) result (number_from (cursor_of cursor.entry)) }
{
    let Some((first, rest)) = cursor.tokens.split_first() else {
        return Err(Stop::Ended);
    };
    let Kind::Number(value) = first.kind else {
        return Err(Stop::Stuck);
    };
    Ok((
        value,
        Cursor {
            tokens: rest,
            marks: cursor.marks,
        },
    ))
}

/// A number in parentheses.
#[tactic(auto, unfolding(crate::specs::Tokens::count_from))]
pub fn count<'a>(cursor: Cursor<'a>) -> Result<(u32, Cursor<'a>), Stop<'a>>
    ensures { Gives (λ x. (x.0, cursor_of x.1)) result (count_from (cursor_of cursor.entry)) }
{
    let (_, cursor) = taken(Kind::Symbol(Symbol::OpenParenthesis), cursor)?;
    let (value, cursor) = number(cursor)?;
    let (_, cursor) = taken(Kind::Symbol(Symbol::CloseParenthesis), cursor)?;
    Ok((value, cursor))
}
