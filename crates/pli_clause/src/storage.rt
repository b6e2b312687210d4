// What ALLOCATE and FREE hold.

ghost use Rattle.std.specs.Prelude.{◌≡◌, map};
ghost use Rattle.pli_language.specs.View.{allocation_of, freeing_of};
ghost use Rattle.pli_phrase.specs.Answers.{Gives};
ghost use Rattle.pli_phrase.specs.View.{cursor_of};
ghost use Rattle.pli_clause.specs.Reading.{allocation_from, allocations_from, area_first, freeing_from, freeings_from, locator_first, placing_ended, placing_from};
ghost use Rattle.pli_clause.specs.View.{placing_of};

use crate::part::reference_behind;
use pli_language::declaration::{Allocation, Freeing};
use pli_language::expr::Reference;
use pli_language::token::{Kind, Symbol, Word};
use pli_phrase::cursor::Cursor;
use pli_phrase::expression::reference;
use pli_phrase::stop::Stop;
use pli_phrase::token::{begins, name, taken};
use std::alloc::Global;

/// Where a variable is allocated, and the locator that is set.
#[derive(Drop)]
pub struct Placing {
    pub area: Option<Reference>,
    pub locator: Option<Reference>,
}

/// A placing is whole where neither IN nor SET goes on.
fn placing_ended<'a>(
    placing: Placing,
    cursor: Cursor<'a>,
) -> Result<(Placing, Cursor<'a>), Stop<'a>>
    ensures { Gives (λ x. (placing_of x.0, cursor_of x.1)) result (placing_ended (placing_of placing) (cursor_of cursor.entry)) }
{
    if begins(Kind::Name(Word::In), &cursor) || begins(Kind::Name(Word::Set), &cursor) {
        return Err(Stop::Stuck);
    }
    Ok((placing, cursor))
}

/// IN, where it stands, and SET behind it.
fn area_first<'a>(
    alloc: Global,
    source: &[u8],
    cursor: Cursor<'a>,
) -> Result<(Placing, Cursor<'a>), Stop<'a>>
    ensures { Gives (λ x. (placing_of x.0, cursor_of x.1)) result (area_first source.now (cursor_of cursor.entry)) }
{
    let (area, cursor) = reference_behind(alloc, source, Word::In, cursor)?;
    let (locator, cursor) = reference_behind(alloc, source, Word::Set, cursor)?;
    placing_ended(Placing { area, locator }, cursor)
}

/// SET, where it stands, and IN behind it.
fn locator_first<'a>(
    alloc: Global,
    source: &[u8],
    cursor: Cursor<'a>,
) -> Result<(Placing, Cursor<'a>), Stop<'a>>
    ensures { Gives (λ x. (placing_of x.0, cursor_of x.1)) result (locator_first source.now (cursor_of cursor.entry)) }
{
    let (locator, cursor) = reference_behind(alloc, source, Word::Set, cursor)?;
    let (area, cursor) = reference_behind(alloc, source, Word::In, cursor)?;
    placing_ended(Placing { area, locator }, cursor)
}

/// IN and SET, each at most once, in either order.
#[tactic(auto, unfolding(crate::specs::Reading::placing_from, crate::specs::Parts::both_from))]
fn area_and_locator<'a>(
    alloc: Global,
    source: &[u8],
    cursor: Cursor<'a>,
) -> Result<(Placing, Cursor<'a>), Stop<'a>>
    ensures { Gives (λ x. (placing_of x.0, cursor_of x.1)) result (placing_from source.now (cursor_of cursor.entry)) }
{
    if begins(Kind::Name(Word::In), &cursor) {
        area_first(alloc, source, cursor)
    } else {
        locator_first(alloc, source, cursor)
    }
}

/// A variable with its placing.
#[tactic(auto, unfolding(crate::specs::Reading::allocation_from))]
fn allocation<'a>(
    alloc: Global,
    source: &[u8],
    cursor: Cursor<'a>,
) -> Result<(Allocation, Cursor<'a>), Stop<'a>>
    ensures { Gives (λ x. (allocation_of x.0, cursor_of x.1)) result (allocation_from source.now (cursor_of cursor.entry)) }
{
    let (variable, cursor) = name(alloc, source, cursor)?;
    let (placing, cursor) = area_and_locator(alloc, source, cursor)?;
    Ok((
        Allocation {
            variable,
            area: placing.area,
            locator: placing.locator,
        },
        cursor,
    ))
}

/// What stands behind ALLOCATE: one variable or more, with commas between them.
///
/// # Errors
///
/// `Stuck` where no variable goes on, `Ended` where the tokens end inside one, and `Memory`.
pub fn allocations<'a>(
    alloc: Global,
    source: &[u8],
    cursor: Cursor<'a>,
) -> Result<(Vec<Allocation>, Cursor<'a>), Stop<'a>>
    ensures { Gives (λ x. (map allocation_of x.0.items, cursor_of x.1)) result (allocations_from source.now (cursor_of cursor.entry)) }
{
    let (first, behind) = allocation(alloc, source, cursor)?;
    let mut allocations = Vec::new(alloc);
    allocations.push(first)?;
    let mut rest = behind;
    'further: while begins(Kind::Symbol(Symbol::Comma), &rest) {
        let (_, behind) = taken(Kind::Symbol(Symbol::Comma), rest)?;
        let (allocation, after) = allocation(alloc, source, behind)?;
        allocations.push(allocation)?;
        rest = after;
    }
    Ok((allocations, rest))
}

/// A generation, and the area in which it is said to lie.
#[tactic(auto, unfolding(crate::specs::Reading::freeing_from))]
fn freeing<'a>(
    alloc: Global,
    source: &[u8],
    cursor: Cursor<'a>,
) -> Result<(Freeing, Cursor<'a>), Stop<'a>>
    ensures { Gives (λ x. (freeing_of x.0, cursor_of x.1)) result (freeing_from source.now (cursor_of cursor.entry)) }
{
    let (generation, cursor) = reference(alloc, source, cursor)?;
    let (area, cursor) = reference_behind(alloc, source, Word::In, cursor)?;
    Ok((Freeing { generation, area }, cursor))
}

/// What stands behind FREE: one generation or more, with commas between them.
///
/// # Errors
///
/// `Stuck` where no generation goes on, `Ended` where the tokens end inside one, and `Memory`.
pub fn freeings<'a>(
    alloc: Global,
    source: &[u8],
    cursor: Cursor<'a>,
) -> Result<(Vec<Freeing>, Cursor<'a>), Stop<'a>>
    ensures { Gives (λ x. (map freeing_of x.0.items, cursor_of x.1)) result (freeings_from source.now (cursor_of cursor.entry)) }
{
    let (first, behind) = freeing(alloc, source, cursor)?;
    let mut freeings = Vec::new(alloc);
    freeings.push(first)?;
    let mut rest = behind;
    'further: while begins(Kind::Symbol(Symbol::Comma), &rest) {
        let (_, behind) = taken(Kind::Symbol(Symbol::Comma), rest)?;
        let (freeing, after) = freeing(alloc, source, behind)?;
        freeings.push(freeing)?;
        rest = after;
    }
    Ok((freeings, rest))
}
