// Extents, bounds and dimensions.

ghost use Rattle.std.specs.Prelude.{◌≡◌, IfOk, map};
ghost use Rattle.pli_language.specs.View.{bound_of, expr_of, extent_of};
ghost use Rattle.pli_phrase.specs.Answers.{Gives};
ghost use Rattle.pli_phrase.specs.View.{cursor_of};
ghost use Rattle.pli_attributes.specs.Reading.{bound_from, bounds_from, dimension_due, dimensions_from, extent_from, one_bound, refer_from, upper_from};

use pli_language::declaration::{Bound, Extent, Refer};
use pli_language::expr::Expr;
use pli_language::fault::SourceKind;
use pli_language::token::{Kind, Symbol, Word};
use pli_phrase::cursor::Cursor;
use pli_phrase::expression::expression;
use pli_phrase::stop::Stop;
use pli_phrase::token::{begins, name, place, taken};
use std::alloc::{AllocError, Global};

/// The most dimensions that may stand in one pair of parentheses.
const MOST_DIMENSIONS: usize = 8;

/// An extent behind its expression: the member that keeps its value, where one stands.
fn refer<'a>(
    alloc: Global,
    source: &[u8],
    value: Expr,
    cursor: Cursor<'a>,
) -> Result<(Extent, Cursor<'a>), Stop<'a>>
    ensures { Gives (λ x. (extent_of x.0, cursor_of x.1)) result (refer_from source.now (expr_of value) (cursor_of cursor.entry)) }
{
    if !begins(Kind::Name(Word::Refer), &cursor) {
        return Ok((Extent { value, refer: None }, cursor));
    }
    let (word, cursor) = taken(Kind::Name(Word::Refer), cursor)?;
    let (_, cursor) = taken(Kind::Symbol(Symbol::OpenParenthesis), cursor)?;
    let (member, cursor) = name(alloc, source, cursor)?;
    let (_, cursor) = taken(Kind::Symbol(Symbol::CloseParenthesis), cursor)?;
    let refer = Some(Refer {
        member,
        place: place(&word),
    });
    Ok((Extent { value, refer }, cursor))
}

/// An expression, and the member that keeps its value, where one stands.
#[tactic(auto, unfolding(crate::specs::Reading::extent_from))]
pub fn extent<'a>(
    alloc: Global,
    source: &[u8],
    cursor: Cursor<'a>,
) -> Result<(Extent, Cursor<'a>), Stop<'a>>
    ensures { Gives (λ x. (extent_of x.0, cursor_of x.1)) result (extent_from source.now (cursor_of cursor.entry)) }
{
    let (value, cursor) = expression(alloc, source, cursor)?;
    refer(alloc, source, value, cursor)
}

/// A bound behind its first extent, which is its lower one where a colon stands.
fn upper<'a>(
    alloc: Global,
    source: &[u8],
    first: Extent,
    cursor: Cursor<'a>,
) -> Result<(Bound, Cursor<'a>), Stop<'a>>
    ensures { Gives (λ x. (bound_of x.0, cursor_of x.1)) result (upper_from source.now (extent_of first) (cursor_of cursor.entry)) }
{
    if !begins(Kind::Symbol(Symbol::Colon), &cursor) {
        return Ok((Bound::Upper(first), cursor));
    }
    let (_, cursor) = taken(Kind::Symbol(Symbol::Colon), cursor)?;
    let (upper, cursor) = extent(alloc, source, cursor)?;
    Ok((
        Bound::Both {
            lower: first,
            upper,
        },
        cursor,
    ))
}

/// `*`, an upper bound, or both bounds.
#[tactic(auto, unfolding(crate::specs::Reading::bound_from))]
fn bound<'a>(
    alloc: Global,
    source: &[u8],
    cursor: Cursor<'a>,
) -> Result<(Bound, Cursor<'a>), Stop<'a>>
    ensures { Gives (λ x. (bound_of x.0, cursor_of x.1)) result (bound_from source.now (cursor_of cursor.entry)) }
{
    if begins(Kind::Symbol(Symbol::Times), &cursor) {
        let (star, cursor) = taken(Kind::Symbol(Symbol::Times), cursor)?;
        return Ok((
            Bound::Star {
                place: place(&star),
            },
            cursor,
        ));
    }
    let (first, cursor) = extent(alloc, source, cursor)?;
    upper(alloc, source, first, cursor)
}

/// Marks the place of a dimension before which as many stand as may.
fn dimension_due<'a>(before: usize, cursor: Cursor<'a>) -> Result<Cursor<'a>, AllocError>
    ensures { IfOk result (λ c. cursor_of c ≡ dimension_due before (cursor_of cursor.entry)) }
{
    let Some((first, _)) = cursor.tokens.split_first() else {
        return Ok(cursor);
    };
    if before < MOST_DIMENSIONS {
        return Ok(cursor);
    }
    let marks = cursor.marks.note(place(first), SourceKind::TooLarge)?;
    Ok(Cursor {
        tokens: cursor.tokens,
        marks,
    })
}

/// A bound before which so many stand.
fn dimension<'a>(
    alloc: Global,
    source: &[u8],
    before: usize,
    cursor: Cursor<'a>,
) -> Result<(Bound, Cursor<'a>), Stop<'a>>
    ensures { Gives (λ x. (bound_of x.0, cursor_of x.1)) result (one_bound source.now before (cursor_of cursor.entry)) }
{
    let cursor = dimension_due(before, cursor)?;
    bound(alloc, source, cursor)
}

/// One bound or more, with commas between them.
fn bounds<'a>(
    alloc: Global,
    source: &[u8],
    cursor: Cursor<'a>,
) -> Result<(Vec<Bound>, Cursor<'a>), Stop<'a>>
    ensures { Gives (λ x. (map bound_of x.0.items, cursor_of x.1)) result (bounds_from source.now (cursor_of cursor.entry)) }
{
    let (first, behind) = dimension(alloc, source, 0, cursor)?;
    let mut bounds = Vec::new(alloc);
    bounds.push(first)?;
    let mut rest = behind;
    'further: while begins(Kind::Symbol(Symbol::Comma), &rest) {
        let (_, behind) = taken(Kind::Symbol(Symbol::Comma), rest)?;
        let (bound, after) = dimension(alloc, source, bounds.len(), behind)?;
        bounds.push(bound)?;
        rest = after;
    }
    Ok((bounds, rest))
}

/// Bounds in parentheses, where they stand.
#[tactic(auto, unfolding(crate::specs::Reading::dimensions_from))]
pub fn dimensions<'a>(
    alloc: Global,
    source: &[u8],
    cursor: Cursor<'a>,
) -> Result<(Vec<Bound>, Cursor<'a>), Stop<'a>>
    ensures { Gives (λ x. (map bound_of x.0.items, cursor_of x.1)) result (dimensions_from source.now (cursor_of cursor.entry)) }
{
    if !begins(Kind::Symbol(Symbol::OpenParenthesis), &cursor) {
        return Ok((Vec::new(alloc), cursor));
    }
    let (_, cursor) = taken(Kind::Symbol(Symbol::OpenParenthesis), cursor)?;
    let (bounds, cursor) = bounds(alloc, source, cursor)?;
    let (_, cursor) = taken(Kind::Symbol(Symbol::CloseParenthesis), cursor)?;
    Ok((bounds, cursor))
}
