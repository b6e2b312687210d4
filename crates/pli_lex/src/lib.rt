// The tokens of a source.
#![tactic(auto)]

mod piece;
mod place;
mod scan;
mod symbol;
mod word;

ghost use Rattle.std.specs.Prelude.{◌≡◌, ℕ, List, ◌⊎◌, MatchResult};
ghost use Rattle.pli_lex.specs.Answers.{HasAnswer};
ghost use Rattle.pli_lex.specs.Faults.{IsFaultOf, IsOutOfMemory, IsRefusal};
ghost use Rattle.pli_language.specs.Tokens.{Tokens, Refuses};
ghost use Rattle.pli_language.specs.declared.fault.SourceKind.{SourceKind};
ghost use Rattle.pli_language.specs.declared.token.Token.{Token};

use crate::piece::{Piece, next_piece};
use crate::place::Place;
use pli_language::fault::{SourceFault, SourceKind};
use pli_language::token::Token;
use std::alloc::Global;

/// The most bytes of a source.
pub const MOST_BYTES: usize = 1 << 20;

/// The most tokens of a source.
pub const MOST_TOKENS: usize = 10_000;

const OUT_OF_MEMORY: SourceFault = SourceFault {
    line: 0,
    column: 0,
    kind: SourceKind::Memory,
};

/// The tokens of a source, in its order, each the longest at its place, with only blanks and comments between them.
///
/// # Errors
///
/// The first place at which no further token stands, with what is wrong there: a byte that begins none, an unclosed
/// comment or text, a token past its limit, one token too many, or a form that is left out. A source of more than
/// 2^20 bytes is `TooLong` at 1:1 before all. `Memory` at 0:0 where memory ran out.
pub fn tokens(alloc: Global, source: &[u8]) -> Result<Vec<Token>, SourceFault>
    ensures read { MatchResult result (λ v. Tokens source.now v.items) (λ fault. IsFaultOf source.now fault) }
    // The tokens of a source are given, unless memory runs out.
    ensures only { (ts : List Token) → Tokens source.now ts → MatchResult result (λ v. v.items ≡ ts) (λ fault. IsOutOfMemory fault) }
    // A source that is to be refused is refused so, unless memory runs out.
    ensures refused { (line column : ℕ) (kind : SourceKind) → Refuses source.now line column kind → MatchResult result (λ v. ⊥) (λ fault. IsOutOfMemory fault ⊎ IsRefusal line column kind fault) }
{
    read(alloc, source)
}

/// A source has one list of tokens or one refusal, and not both.
pub fn one_answer()
    ensures some_answer { (s : List ℕ) → HasAnswer s }
    ensures one_list { (s : List ℕ) (ts us : List Token) → Tokens s ts → Tokens s us → ts ≡ us }
    ensures not_both { (s : List ℕ) (ts : List Token) (line column : ℕ) (kind : SourceKind) → Tokens s ts → Refuses s line column kind → ⊥ }
    ensures one_refusal { (s : List ℕ) (line column line_2 column_2 : ℕ) (kind kind_2 : SourceKind) → Refuses s line column kind → Refuses s line_2 column_2 kind_2 → (line ≡ line_2) × (column ≡ column_2) × (kind ≡ kind_2) }
{}

fn read(alloc: Global, source: &[u8]) -> Result<Vec<Token>, SourceFault>
    ensures { MatchResult result (λ v. Tokens source.now v.items) (λ fault. IsFaultOf source.now fault) }
{
    if source.len() > MOST_BYTES {
        return Err(SourceFault {
            line: 1,
            column: 1,
            kind: SourceKind::TooLong,
        });
    }
    let mut tokens = Vec::new(alloc);
    let mut place = Place::START;
    while place.offset < source.len() {
        let rest = &source[place.offset..];
        let len = match next_piece(rest) {
            Piece::Separator(len) => len,
            Piece::Token(kind, len) => {
                if tokens.len() == MOST_TOKENS {
                    return Err(place.fault(SourceKind::TooLong));
                }
                tokens
                    .push(place.token(kind, len))
                    .map_err(|_| OUT_OF_MEMORY)?;
                len
            }
            Piece::Refused(kind) => return Err(place.fault(kind)),
        };
        place = place.behind(&rest[..len]);
    }
    Ok(tokens)
}

#[cfg(test)]
mod tests;
