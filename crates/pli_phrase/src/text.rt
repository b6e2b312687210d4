// The value of a text.

ghost use Rattle.std.specs.Prelude.{◌≡◌, ◌<◌, IfOk, MatchOption, length, [], ◌∷◌, None, Some, if◌then◌else◌};
ghost use Rattle.pli_language.specs.View.{option_of};
ghost use Rattle.pli_language.specs.Tokens.{is_line_end};
ghost use Rattle.pli_phrase.specs.Tokens.{before, closed_text, is_last_quote, text_of};

use std::alloc::{AllocError, Global};

const QUOTE: u8 = b'\'';

fn is_line_end(byte: u8) -> bool
    ensures { result ≡ is_line_end byte }
{
    byte == b'\r' || byte == b'\n'
}

/// A quote is all that is left.
fn is_last_quote(bytes: &[u8]) -> bool
    ensures { result ≡ is_last_quote bytes.now }
{
    match bytes.split_first() {
        Some((first, rest)) => *first == QUOTE && rest.is_empty(),
        None => false,
    }
}

/// The next byte of a text, of which a quote stands doubled, and the bytes behind it.
#[tactic(auto, unfolding(crate::specs::Tokens::closed_text))]
fn next_byte(bytes: &[u8]) -> Option<(u8, &[u8])>
    ensures { MatchOption result (closed_text bytes.now ≡ (if is_last_quote bytes.now then Some [] else None)) (λ x. (closed_text bytes.now ≡ before x.0 (closed_text x.1.now)) × (length x.1.now < length bytes.now)) }
{
    let (first, rest) = bytes.split_first()?;
    if *first != QUOTE {
        return if is_line_end(*first) {
            None
        } else {
            Some((*first, rest))
        };
    }
    let (second, rest) = rest.split_first()?;
    if *second != QUOTE {
        return None;
    }
    Some((QUOTE, rest))
}

/// The text that the bytes spell between quotes.
#[tactic(auto, using(crate::proofs::Texts::text_snoc, crate::proofs::Texts::text_none))]
pub fn text(alloc: Global, bytes: &[u8]) -> Result<Option<Vec<u8>>, AllocError>
    ensures { IfOk result (λ o. option_of (λ v. v.items) o ≡ text_of bytes.now) }
{
    let Some((first, behind)) = bytes.split_first() else {
        return Ok(None);
    };
    if *first != QUOTE {
        return Ok(None);
    }
    let mut text = Vec::new(alloc);
    let mut rest = behind;
    while let Some((byte, behind)) = next_byte(rest) {
        text.push(byte)?;
        rest = behind;
    }
    Ok(if is_last_quote(rest) {
        Some(text)
    } else {
        None
    })
}
