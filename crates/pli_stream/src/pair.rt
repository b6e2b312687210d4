// Data lists with the format lists that they go by.

ghost use Rattle.std.specs.Prelude.{◌≡◌, map};
ghost use Rattle.pli_language.specs.View.{edit_pair_of, exprs_of};
ghost use Rattle.pli_phrase.specs.Answers.{Gives};
ghost use Rattle.pli_phrase.specs.View.{cursor_of};
ghost use Rattle.pli_stream.specs.Reading.{pair_from, pairs_from};
ghost use Rattle.pli_stream.specs.View.{direction_of};

use crate::format::formats;
use crate::item::checked;
use crate::parts::Direction;
use pli_language::stmt::EditPair;
use pli_language::token::{Kind, Symbol};
use pli_phrase::cursor::Cursor;
use pli_phrase::expression::expressions;
use pli_phrase::stop::Stop;
use pli_phrase::token::{begins, place, taken};
use std::alloc::Global;

/// A data list and its format list, each in parentheses.
#[tactic(auto, unfolding(crate::specs::Reading::pair_from))]
fn pair<'a>(
    alloc: Global,
    source: &[u8],
    direction: Direction,
    cursor: Cursor<'a>,
) -> Result<(EditPair, Cursor<'a>), Stop<'a>>
    ensures { Gives (λ x. (edit_pair_of x.0, cursor_of x.1)) result (pair_from source.now (direction_of direction) (cursor_of cursor.entry)) }
{
    let (_, cursor) = taken(Kind::Symbol(Symbol::OpenParenthesis), cursor)?;
    let (items, cursor) = expressions(alloc, source, cursor)?;
    let (_, cursor) = taken(Kind::Symbol(Symbol::CloseParenthesis), cursor)?;
    let (opening, cursor) = taken(Kind::Symbol(Symbol::OpenParenthesis), cursor)?;
    let ((formats, moves_data), cursor) = formats(alloc, direction, cursor)?;
    let place = place(&opening);
    let cursor = checked(moves_data, place, cursor)?;
    let pair = EditPair {
        items,
        formats,
        place,
    };
    Ok((pair, cursor))
}

/// One pair or more.
pub fn pairs<'a>(
    alloc: Global,
    source: &[u8],
    direction: Direction,
    cursor: Cursor<'a>,
) -> Result<(Vec<EditPair>, Cursor<'a>), Stop<'a>>
    ensures { Gives (λ x. (map edit_pair_of x.0.items, cursor_of x.1)) result (pairs_from source.now (direction_of direction) (cursor_of cursor.entry)) }
{
    let (first, behind) = pair(alloc, source, direction, cursor)?;
    let mut pairs = Vec::new(alloc);
    pairs.push(first)?;
    let mut rest = behind;
    'further: while begins(Kind::Symbol(Symbol::OpenParenthesis), &rest) {
        let (pair, after) = pair(alloc, source, direction, rest)?;
        pairs.push(pair)?;
        rest = after;
    }
    Ok((pairs, rest))
}
