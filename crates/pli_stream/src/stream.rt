// The whole of what stands behind GET and PUT.

ghost use Rattle.std.specs.Prelude.{◌≡◌, map};
ghost use Rattle.pli_language.specs.View.{edit_pair_of, option_of, skip_of};
ghost use Rattle.pli_phrase.specs.Answers.{Gives};
ghost use Rattle.pli_phrase.specs.View.{cursor_of};
ghost use Rattle.pli_stream.specs.Reading.{edit_from, is_left_out_kind, moved, transfer_from};
ghost use Rattle.pli_stream.specs.View.{direction_of, transfer_of};

use crate::option::options;
use crate::pair::pairs;
use crate::parts::{Direction, Transfer};
use pli_language::stmt::{EditPair, Skip};
use pli_language::token::{Kind, Word};
use pli_phrase::cursor::Cursor;
use pli_phrase::stop::Stop;
use pli_phrase::token::{begins, next_kind, taken};
use std::alloc::Global;

/// EDIT with its pairs, where it stands.
#[tactic(auto, unfolding(crate::specs::Reading::edit_from))]
fn edit<'a>(
    alloc: Global,
    source: &[u8],
    direction: Direction,
    cursor: Cursor<'a>,
) -> Result<(Vec<EditPair>, Cursor<'a>), Stop<'a>>
    ensures { Gives (λ x. (map edit_pair_of x.0.items, cursor_of x.1)) result (edit_from source.now (direction_of direction) (cursor_of cursor.entry)) }
{
    if !begins(Kind::Name(Word::Edit), &cursor) {
        return Ok((Vec::new(alloc), cursor));
    }
    let (_, cursor) = taken(Kind::Name(Word::Edit), cursor)?;
    pairs(alloc, source, direction, cursor)
}

/// SKIP or EDIT has to stand.
fn moved<'a>(
    skip: Option<Skip>,
    pairs: Vec<EditPair>,
    cursor: Cursor<'a>,
) -> Result<(Transfer, Cursor<'a>), Stop<'a>>
    ensures { Gives (λ x. (transfer_of x.0, cursor_of x.1)) result (moved (option_of skip_of skip) (map edit_pair_of pairs.items) (cursor_of cursor.entry)) }
{
    if skip.is_some() || !pairs.is_empty() {
        return Ok((Transfer { skip, pairs }, cursor));
    }
    if cursor.tokens.is_empty() {
        Err(Stop::Ended)
    } else {
        Err(Stop::Stuck)
    }
}

/// A word that is left out directly behind GET and PUT.
fn is_left_out(next: Option<Kind>) -> bool
    ensures { result ≡ is_left_out_kind next }
{
    matches!(next, Some(Kind::Name(Word::List | Word::Data)))
}

/// What stands behind GET or PUT, up to a token that is none of it: the options FILE and SKIP, and EDIT with its pairs.
///
/// # Errors
///
/// `LeftOut` where the word LIST or DATA comes first; `Stuck` where the next token goes on with nothing, or neither SKIP
/// nor EDIT stands; `Ended` where the tokens end inside, and `Memory`.
#[tactic(auto, unfolding(crate::specs::Reading::transfer_from))]
pub fn transfer<'a>(
    alloc: Global,
    source: &[u8],
    direction: Direction,
    cursor: Cursor<'a>,
) -> Result<(Transfer, Cursor<'a>), Stop<'a>>
    ensures { Gives (λ x. (transfer_of x.0, cursor_of x.1)) result (transfer_from source.now (direction_of direction) (cursor_of cursor.entry)) }
{
    if is_left_out(next_kind(&cursor)) {
        return Err(Stop::LeftOut(cursor));
    }
    let (skip, cursor) = options(direction, cursor)?;
    let (pairs, cursor) = edit(alloc, source, direction, cursor)?;
    moved(skip, pairs, cursor)
}
