// Items of DECLARE.

ghost use Rattle.std.specs.Prelude.{◌≡◌, map};
ghost use Rattle.pli_language.specs.View.{declare_item_of, declared_name_of};
ghost use Rattle.pli_phrase.specs.Answers.{Gives};
ghost use Rattle.pli_phrase.specs.View.{cursor_of};
ghost use Rattle.pli_attributes.specs.Reading.{declare_item_from, declare_items_from, declared_name_from, declared_names_from, front_from, level_from, names_from};
ghost use Rattle.pli_attributes.specs.View.{front_of};

use crate::attribute::attributes;
use crate::extent::dimensions;
use pli_language::declaration::{Bound, DeclareItem, DeclaredName};
use pli_language::token::{Kind, Symbol};
use pli_phrase::cursor::Cursor;
use pli_phrase::stop::Stop;
use pli_phrase::token::{begins, name, next_kind, number, taken};
use std::alloc::Global;

/// What stands before the attributes of an item.
#[derive(Drop)]
pub struct ItemFront {
    pub level: Option<u64>,
    pub names: Vec<DeclaredName>,
    pub dimensions: Vec<Bound>,
}

/// A name with its dimensions.
#[tactic(auto, unfolding(crate::specs::Reading::declared_name_from))]
fn declared_name<'a>(
    alloc: Global,
    source: &[u8],
    cursor: Cursor<'a>,
) -> Result<(DeclaredName, Cursor<'a>), Stop<'a>>
    ensures { Gives (λ x. (declared_name_of x.0, cursor_of x.1)) result (declared_name_from source.now (cursor_of cursor.entry)) }
{
    let (name, cursor) = name(alloc, source, cursor)?;
    let (dimensions, cursor) = dimensions(alloc, source, cursor)?;
    Ok((DeclaredName { name, dimensions }, cursor))
}

/// One name or more, with commas between them.
fn declared_names<'a>(
    alloc: Global,
    source: &[u8],
    cursor: Cursor<'a>,
) -> Result<(Vec<DeclaredName>, Cursor<'a>), Stop<'a>>
    ensures { Gives (λ x. (map declared_name_of x.0.items, cursor_of x.1)) result (declared_names_from source.now (cursor_of cursor.entry)) }
{
    let (first, behind) = declared_name(alloc, source, cursor)?;
    let mut names = Vec::new(alloc);
    names.push(first)?;
    let mut rest = behind;
    'further: while begins(Kind::Symbol(Symbol::Comma), &rest) {
        let (_, behind) = taken(Kind::Symbol(Symbol::Comma), rest)?;
        let (name, after) = declared_name(alloc, source, behind)?;
        names.push(name)?;
        rest = after;
    }
    Ok((names, rest))
}

/// A level, where one stands.
#[tactic(auto, unfolding(crate::specs::Reading::level_from))]
fn level<'a>(cursor: Cursor<'a>) -> Result<(Option<u64>, Cursor<'a>), Stop<'a>>
    ensures { Gives (λ x. (x.0, cursor_of x.1)) result (level_from (cursor_of cursor.entry)) }
{
    if !matches!(next_kind(&cursor), Some(Kind::Number(_))) {
        return Ok((None, cursor));
    }
    let (level, cursor) = number(cursor)?;
    Ok((Some(u64::from(level)), cursor))
}

/// Behind a level: a name, or names in parentheses with their dimensions.
#[tactic(auto, unfolding(crate::specs::Reading::names_from))]
fn names<'a>(
    alloc: Global,
    source: &[u8],
    level: Option<u64>,
    cursor: Cursor<'a>,
) -> Result<(ItemFront, Cursor<'a>), Stop<'a>>
    ensures { Gives (λ x. (front_of x.0, cursor_of x.1)) result (names_from source.now level (cursor_of cursor.entry)) }
{
    if begins(Kind::Symbol(Symbol::OpenParenthesis), &cursor) {
        let (_, cursor) = taken(Kind::Symbol(Symbol::OpenParenthesis), cursor)?;
        let (names, cursor) = declared_names(alloc, source, cursor)?;
        let (_, cursor) = taken(Kind::Symbol(Symbol::CloseParenthesis), cursor)?;
        let (dimensions, cursor) = dimensions(alloc, source, cursor)?;
        return Ok((
            ItemFront {
                level,
                names,
                dimensions,
            },
            cursor,
        ));
    }
    let (name, cursor) = declared_name(alloc, source, cursor)?;
    let mut names = Vec::new(alloc);
    names.push(name)?;
    Ok((
        ItemFront {
            level,
            names,
            dimensions: Vec::new(alloc),
        },
        cursor,
    ))
}

/// What stands before the attributes of an item.
#[tactic(auto, unfolding(crate::specs::Reading::front_from))]
fn front<'a>(
    alloc: Global,
    source: &[u8],
    cursor: Cursor<'a>,
) -> Result<(ItemFront, Cursor<'a>), Stop<'a>>
    ensures { Gives (λ x. (front_of x.0, cursor_of x.1)) result (front_from source.now (cursor_of cursor.entry)) }
{
    let (level, cursor) = level(cursor)?;
    names(alloc, source, level, cursor)
}

/// An item: names with their attributes.
#[tactic(auto, unfolding(crate::specs::Reading::declare_item_from))]
fn declare_item<'a>(
    alloc: Global,
    source: &[u8],
    cursor: Cursor<'a>,
) -> Result<(DeclareItem, Cursor<'a>), Stop<'a>>
    ensures { Gives (λ x. (declare_item_of x.0, cursor_of x.1)) result (declare_item_from source.now (cursor_of cursor.entry)) }
{
    let (front, cursor) = front(alloc, source, cursor)?;
    let (attributes, cursor) = attributes(alloc, source, cursor)?;
    Ok((
        DeclareItem {
            level: front.level,
            names: front.names,
            dimensions: front.dimensions,
            attributes,
        },
        cursor,
    ))
}

/// What stands behind the word DECLARE: one item or more, with commas between them, up to a token that is none.
///
/// # Errors
///
/// `LeftOut` with the word of an attribute that is left out as its first token; `Stuck` where no item goes on, `Ended`
/// where the tokens end inside one, and `Memory`.
pub fn declare_items<'a>(
    alloc: Global,
    source: &[u8],
    cursor: Cursor<'a>,
) -> Result<(Vec<DeclareItem>, Cursor<'a>), Stop<'a>>
    ensures { Gives (λ x. (map declare_item_of x.0.items, cursor_of x.1)) result (declare_items_from source.now (cursor_of cursor.entry)) }
{
    let (first, behind) = declare_item(alloc, source, cursor)?;
    let mut items = Vec::new(alloc);
    items.push(first)?;
    let mut rest = behind;
    'further: while begins(Kind::Symbol(Symbol::Comma), &rest) {
        let (_, behind) = taken(Kind::Symbol(Symbol::Comma), rest)?;
        let (item, after) = declare_item(alloc, source, behind)?;
        items.push(item)?;
        rest = after;
    }
    Ok((items, rest))
}
