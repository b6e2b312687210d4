// How far a statement can be read that is none.

ghost use Rattle.std.specs.Prelude.{◌≡◌, [], IfOk};
ghost use Rattle.pli_language.specs.Marks.{no_marks};
ghost use Rattle.pli_phrase.specs.View.{marks_of};
ghost use Rattle.pli_messages.specs.Farthest.{farthest, goes_on, tokens_from, unread};

use pli_head::reading::head;
use pli_language::expr::Place;
use pli_language::fault::{SourceFault, SourceKind};
use pli_language::token::Token;
use pli_phrase::cursor::{Cursor, Marks};
use pli_phrase::expression::{Beginning, begins_assignment};
use pli_phrase::stop::Stop;
use pli_phrase::token::place;
use std::alloc::{AllocError, Global};

/// The most arguments and subscripts of a head.
const MOST_ARGUMENTS: u32 = 100;

fn no_marks(alloc: Global) -> Marks
    ensures { marks_of result ≡ no_marks }
{
    Marks {
        room: MOST_ARGUMENTS,
        faults: Vec::new(alloc),
    }
}

// Whether a head has these first tokens: one stands there, one that they end in, or they end in the target of an
// assignment.
fn goes_on(alloc: Global, source: &[u8], tokens: &[Token]) -> Result<bool, AllocError>
    ensures { IfOk result (λ b. b ≡ goes_on source.now tokens.now) }
{
    let start = Cursor {
        tokens,
        marks: no_marks(alloc),
    };
    if begins_assignment(alloc, source, &start)? == Beginning::Unknown {
        return Ok(true);
    }
    match head(alloc, source, start) {
        Ok(_) => Ok(true),
        Err(Stop::Ended) => Ok(true),
        Err(Stop::Stuck) => Ok(false),
        Err(Stop::LeftOut(_)) => Ok(false),
        Err(Stop::Memory) => Err(AllocError),
    }
}

/// The place of the first token up to which these are the first tokens of no head; nothing where there is none.
#[tactic(auto, using(crate::proofs::Taken::taken))]
pub fn unread(alloc: Global, source: &[u8], tokens: &[Token]) -> Result<Option<Place>, AllocError>
    ensures { IfOk result (λ o. o ≡ unread source.now [] tokens.now) }
{
    let mut count: usize = 0;
    for token in tokens {
        count += 1;
        if !goes_on(alloc, source, &tokens[..count])? {
            return Ok(Some(place(token)));
        }
    }
    Ok(None)
}

// The tokens from the one at a place on; none where there is none.
#[tactic(auto, using(crate::proofs::Taken::taken))]
fn tokens_from(tokens: &[Token], line: u32, column: u32) -> &[Token]
    ensures { result.now ≡ tokens_from line column tokens.now }
{
    let mut index: usize = 0;
    for token in tokens {
        if token.line == line && token.column == column {
            return &tokens[index..];
        }
        index += 1;
    }
    &[]
}

/// Where a statement that is refused as one that isn't spelled can be read no further; nothing where it is refused for
/// something else, or for where it stands.
pub fn farthest(
    alloc: Global,
    source: &[u8],
    tokens: &[Token],
    fault: SourceFault,
) -> Result<Option<Place>, AllocError>
    ensures { IfOk result (λ o. o ≡ farthest source.now tokens.now fault) }
{
    match fault.kind {
        SourceKind::Syntax => unread(alloc, source, tokens_from(tokens, fault.line, fault.column)),
        _ => Ok(None),
    }
}
