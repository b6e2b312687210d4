// Labels.

ghost use Rattle.std.specs.Prelude.{◌≡◌, IfOk, map};
ghost use Rattle.pli_language.specs.Parsing.{label_of};
ghost use Rattle.pli_language.specs.View.{name_of, option_of};
ghost use Rattle.pli_parse.specs.Reading.{label_front, labels_from};

use pli_language::expr::Name;
use pli_language::token::{Kind, Symbol, Token, Word};
use pli_phrase::token::named;
use std::alloc::{AllocError, Global};

/// The word of a name with a colon behind it.
fn label_of(first: Kind, second: Kind) -> Option<Word>
    ensures { result ≡ label_of first second }
{
    match (first, second) {
        (Kind::Name(word), Kind::Symbol(Symbol::Colon)) => Some(word),
        _ => None,
    }
}

/// The name that is the first label, with its word, and the tokens behind its colon.
fn label_front(tokens: &[Token]) -> Option<(Token, Word, &[Token])>
    ensures { option_of (λ x. (x.0, x.1, x.2.now)) result ≡ label_front tokens.now }
{
    let (first, behind) = tokens.split_first()?;
    let (second, rest) = behind.split_first()?;
    let word = label_of(first.kind, second.kind)?;
    Some((*first, word, rest))
}

/// Labels, as long as one more begins, and the tokens behind them.
pub fn labels<'a>(
    alloc: Global,
    source: &[u8],
    tokens: &'a [Token],
) -> Result<(Vec<Name>, &'a [Token]), AllocError>
    ensures { IfOk result (λ x. (map name_of x.0.items, x.1.now) ≡ labels_from source.now tokens.now) }
{
    let mut labels = Vec::new(alloc);
    let mut rest = tokens;
    'labels: while let Some((first, word, behind)) = label_front(rest) {
        labels.push(named(alloc, source, &first, word)?)?;
        rest = behind;
    }
    Ok((labels, rest))
}
