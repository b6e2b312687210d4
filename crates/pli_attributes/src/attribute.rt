// Attributes.

ghost use Rattle.std.specs.Prelude.{◌≡◌, map};
ghost use Rattle.pli_language.specs.Attributes.{is_left_out_attribute, plain_attribute};
ghost use Rattle.pli_language.specs.View.{attribute_of, option_of};
ghost use Rattle.pli_phrase.specs.Answers.{Gives};
ghost use Rattle.pli_phrase.specs.View.{cursor_of};
ghost use Rattle.pli_attributes.specs.Reading.{attribute_from, attributes_from, initials_from, worded};

use crate::initial::initial_items;
use crate::word::{bit, owner, precision, size};
use pli_language::declaration::Attribute;
use pli_language::token::{Kind, Symbol, Token, Word};
use pli_phrase::cursor::Cursor;
use pli_phrase::stop::Stop;
use pli_phrase::token::{next_is_name, taken};
use std::alloc::Global;

/// The attributes of one word.
fn plain_attribute(word: Word) -> Option<Attribute>
    ensures { option_of attribute_of result ≡ plain_attribute word }
{
    match word {
        Word::Varying => Some(Attribute::Varying),
        Word::Pointer | Word::Ptr => Some(Attribute::Pointer),
        Word::Automatic => Some(Attribute::Automatic),
        Word::Static => Some(Attribute::Static),
        Word::Controlled => Some(Attribute::Controlled),
        Word::Builtin => Some(Attribute::Builtin),
        Word::Aligned => Some(Attribute::Aligned),
        Word::Unaligned => Some(Attribute::Unaligned),
        Word::Internal => Some(Attribute::Internal),
        _ => None,
    }
}

/// The words of attributes that are left out.
fn is_left_out(word: Word) -> bool
    ensures { result ≡ is_left_out_attribute word }
{
    matches!(
        word,
        Word::Decimal
            | Word::Float
            | Word::Picture
            | Word::Complex
            | Word::Label
            | Word::Entry
            | Word::File
            | Word::External
            | Word::Like
            | Word::Defined
            | Word::Union
            | Word::Generic
    )
}

/// Behind INITIAL.
fn initials<'a>(
    alloc: Global,
    source: &[u8],
    cursor: Cursor<'a>,
) -> Result<(Attribute, Cursor<'a>), Stop<'a>>
    ensures { Gives (λ x. (attribute_of x.0, cursor_of x.1)) result (initials_from source.now (cursor_of cursor.entry)) }
{
    let (_, cursor) = taken(Kind::Symbol(Symbol::OpenParenthesis), cursor)?;
    let (items, cursor) = initial_items(alloc, source, cursor)?;
    let (_, cursor) = taken(Kind::Symbol(Symbol::CloseParenthesis), cursor)?;
    Ok((Attribute::Initial(items), cursor))
}

/// An attribute of this word, behind the word, which is the first of `at`.
fn worded<'a>(
    alloc: Global,
    source: &[u8],
    at: &'a [Token],
    word: Word,
    cursor: Cursor<'a>,
) -> Result<(Attribute, Cursor<'a>), Stop<'a>>
    ensures { Gives (λ x. (attribute_of x.0, cursor_of x.1)) result (worded source.now at.now word (cursor_of cursor.entry)) }
{
    match word {
        Word::Fixed => {
            let (digits, cursor) = precision(at, cursor)?;
            Ok((Attribute::Fixed(digits), cursor))
        }
        Word::Binary => {
            let (digits, cursor) = precision(at, cursor)?;
            Ok((Attribute::Binary(digits), cursor))
        }
        Word::Character => {
            let (length, cursor) = size(alloc, source, cursor)?;
            Ok((Attribute::Character(length), cursor))
        }
        Word::Bit => bit(at, cursor),
        Word::Offset => {
            let (area, cursor) = owner(alloc, source, cursor)?;
            Ok((Attribute::Offset(area), cursor))
        }
        Word::Area => {
            let (size, cursor) = size(alloc, source, cursor)?;
            Ok((Attribute::Area(size), cursor))
        }
        Word::Based => {
            let (locator, cursor) = owner(alloc, source, cursor)?;
            Ok((Attribute::Based(locator), cursor))
        }
        Word::Initial => initials(alloc, source, cursor),
        _ => {
            if is_left_out(word) {
                Err(Stop::LeftOut(Cursor {
                    tokens: at,
                    marks: cursor.marks,
                }))
            } else {
                Err(Stop::Stuck)
            }
        }
    }
}

/// An attribute.
#[tactic(auto, unfolding(crate::specs::Reading::attribute_from))]
fn attribute<'a>(
    alloc: Global,
    source: &[u8],
    cursor: Cursor<'a>,
) -> Result<(Attribute, Cursor<'a>), Stop<'a>>
    ensures { Gives (λ x. (attribute_of x.0, cursor_of x.1)) result (attribute_from source.now (cursor_of cursor.entry)) }
{
    let Some((first, rest)) = cursor.tokens.split_first() else {
        return Err(Stop::Ended);
    };
    let Kind::Name(word) = first.kind else {
        return Err(Stop::Stuck);
    };
    let behind = Cursor {
        tokens: rest,
        marks: cursor.marks,
    };
    match plain_attribute(word) {
        Some(attribute) => Ok((attribute, behind)),
        None => worded(alloc, source, cursor.tokens, word, behind),
    }
}

/// The attributes up to a token that is no name, which may be none: those of RETURNS, or of an item of DECLARE.
///
/// # Errors
///
/// `LeftOut` with the word of an attribute that is left out as its first token; `Stuck` where no attribute goes on,
/// `Ended` where the tokens end inside one, and `Memory`.
pub fn attributes<'a>(
    alloc: Global,
    source: &[u8],
    cursor: Cursor<'a>,
) -> Result<(Vec<Attribute>, Cursor<'a>), Stop<'a>>
    ensures { Gives (λ x. (map attribute_of x.0.items, cursor_of x.1)) result (attributes_from source.now (cursor_of cursor.entry)) }
{
    let mut attributes = Vec::new(alloc);
    let mut rest = cursor;
    'further: while next_is_name(&rest) {
        let (attribute, after) = attribute(alloc, source, rest)?;
        attributes.push(attribute)?;
        rest = after;
    }
    Ok((attributes, rest))
}
