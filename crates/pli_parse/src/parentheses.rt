// Parentheses of a head that was read.

ghost use Rattle.std.specs.Prelude.{◌≡◌, ◌+◌, ◌≤◌, IfOk, length};
ghost use Rattle.pli_language.specs.Marks.{parentheses_marks, parenthesis_marks};
ghost use Rattle.pli_language.specs.Parsing.{before};
ghost use Rattle.pli_phrase.specs.View.{marks_of};

use pli_language::fault::SourceKind;
use pli_language::token::{Kind, Symbol, Token};
use pli_phrase::cursor::Marks;
use pli_phrase::token::place;
use std::alloc::AllocError;

/// The most parentheses that may be open at once.
const MOST_PARENTHESES: usize = 32;

/// How many parentheses are open behind a token, which is refused where it opens one too many.
fn parenthesis(token: &Token, opened: usize, marks: Marks) -> Result<(usize, Marks), AllocError>
    requires { opened + 1 ≤ 18446744073709551615 }
    ensures marks { IfOk result (λ x. (x.0, marks_of x.1) ≡ parenthesis_marks token.now token.now.kind opened (marks_of marks)) }
    // It opens one at most.
    ensures bound { IfOk result (λ x. x.0 ≤ opened + 1) }
{
    match token.kind {
        Kind::Symbol(Symbol::OpenParenthesis) => {
            if opened < MOST_PARENTHESES {
                return Ok((opened + 1, marks));
            }
            Ok((opened + 1, marks.note(place(token), SourceKind::TooLarge)?))
        }
        Kind::Symbol(Symbol::CloseParenthesis) => Ok((opened.saturating_sub(1), marks)),
        _ => Ok((opened, marks)),
    }
}

/// The marks of a head's tokens, where no parenthesis is open before them.
pub fn parentheses(tokens: &[Token], marks: Marks) -> Result<Marks, AllocError>
    ensures { IfOk result (λ m. marks_of m ≡ parentheses_marks 0 tokens.now (marks_of marks)) }
{
    let mut opened = 0;
    let mut marks = marks;
    for token in tokens {
        let (now_open, noted) = parenthesis(token, opened, marks)?;
        opened = now_open;
        marks = noted;
    }
    Ok(marks)
}

/// The tokens before the rest.
pub fn before<'a>(tokens: &'a [Token], rest: &[Token]) -> &'a [Token]
    ensures { result.now ≡ before tokens.now rest.now }
{
    &tokens[..tokens.len().saturating_sub(rest.len())]
}
