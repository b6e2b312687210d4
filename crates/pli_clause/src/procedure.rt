// What stands behind PROCEDURE: parameters and options.

ghost use Rattle.std.specs.Prelude.{◌≡◌, IfOk, map};
ghost use Rattle.pli_language.specs.View.{attribute_of, name_of, procedure_option_of};
ghost use Rattle.pli_phrase.specs.Answers.{Gives};
ghost use Rattle.pli_phrase.specs.View.{cursor_of};
ghost use Rattle.pli_clause.specs.Reading.{main_from, names_from, one_parameter, option_from, options_from, parameter_due, parameters_from, returning, returns_from};

use crate::part::word;
use pli_attributes::attributes;
use pli_language::declaration::Attribute;
use pli_language::expr::Name;
use pli_language::fault::SourceKind;
use pli_language::stmt::ProcedureOption;
use pli_language::token::{Kind, Symbol, Word};
use pli_phrase::cursor::Cursor;
use pli_phrase::stop::Stop;
use pli_phrase::token::{begins, name, place, taken};
use std::alloc::{AllocError, Global};

/// The most parameters that a procedure may have.
const MOST_PARAMETERS: usize = 16;

/// Marks the place of a parameter before which as many stand as may.
fn parameter_due<'a>(before: usize, cursor: Cursor<'a>) -> Result<Cursor<'a>, AllocError>
    ensures { IfOk result (λ c. cursor_of c ≡ parameter_due before (cursor_of cursor.entry)) }
{
    let Some((first, _)) = cursor.tokens.split_first() else {
        return Ok(cursor);
    };
    if before < MOST_PARAMETERS {
        return Ok(cursor);
    }
    let marks = cursor.marks.note(place(first), SourceKind::TooLarge)?;
    Ok(Cursor {
        tokens: cursor.tokens,
        marks,
    })
}

/// A parameter before which so many stand.
fn parameter<'a>(
    alloc: Global,
    source: &[u8],
    before: usize,
    cursor: Cursor<'a>,
) -> Result<(Name, Cursor<'a>), Stop<'a>>
    ensures { Gives (λ x. (name_of x.0, cursor_of x.1)) result (one_parameter source.now before (cursor_of cursor.entry)) }
{
    let cursor = parameter_due(before, cursor)?;
    name(alloc, source, cursor)
}

/// One parameter or more, with commas between them.
fn names<'a>(
    alloc: Global,
    source: &[u8],
    cursor: Cursor<'a>,
) -> Result<(Vec<Name>, Cursor<'a>), Stop<'a>>
    ensures { Gives (λ x. (map name_of x.0.items, cursor_of x.1)) result (names_from source.now (cursor_of cursor.entry)) }
{
    let (first, behind) = parameter(alloc, source, 0, cursor)?;
    let mut names = Vec::new(alloc);
    names.push(first)?;
    let mut rest = behind;
    'further: while begins(Kind::Symbol(Symbol::Comma), &rest) {
        let (_, behind) = taken(Kind::Symbol(Symbol::Comma), rest)?;
        let (name, after) = parameter(alloc, source, names.len(), behind)?;
        names.push(name)?;
        rest = after;
    }
    Ok((names, rest))
}

/// Parameters in parentheses, where they stand. A seventeenth one and each behind it is marked.
///
/// # Errors
///
/// `Stuck` where no name or parenthesis goes on, `Ended` where the tokens end inside, and `Memory`.
#[tactic(auto, unfolding(crate::specs::Reading::parameters_from))]
pub fn parameters<'a>(
    alloc: Global,
    source: &[u8],
    cursor: Cursor<'a>,
) -> Result<(Vec<Name>, Cursor<'a>), Stop<'a>>
    ensures { Gives (λ x. (map name_of x.0.items, cursor_of x.1)) result (parameters_from source.now (cursor_of cursor.entry)) }
{
    if !begins(Kind::Symbol(Symbol::OpenParenthesis), &cursor) {
        return Ok((Vec::new(alloc), cursor));
    }
    let (_, cursor) = taken(Kind::Symbol(Symbol::OpenParenthesis), cursor)?;
    let (names, cursor) = names(alloc, source, cursor)?;
    let (_, cursor) = taken(Kind::Symbol(Symbol::CloseParenthesis), cursor)?;
    Ok((names, cursor))
}

/// Behind OPTIONS: the one option that stands there.
fn main_option<'a>(cursor: Cursor<'a>) -> Result<(ProcedureOption, Cursor<'a>), Stop<'a>>
    ensures { Gives (λ x. (procedure_option_of x.0, cursor_of x.1)) result (main_from (cursor_of cursor.entry)) }
{
    let (_, cursor) = taken(Kind::Symbol(Symbol::OpenParenthesis), cursor)?;
    let (_, cursor) = taken(Kind::Name(Word::Main), cursor)?;
    let (_, cursor) = taken(Kind::Symbol(Symbol::CloseParenthesis), cursor)?;
    Ok((ProcedureOption::Main, cursor))
}

/// What is returned has one attribute at least.
fn returning<'a>(
    attributes: Vec<Attribute>,
    cursor: Cursor<'a>,
) -> Result<(ProcedureOption, Cursor<'a>), Stop<'a>>
    ensures { Gives (λ x. (procedure_option_of x.0, cursor_of x.1)) result (returning (map attribute_of attributes.items) (cursor_of cursor.entry)) }
{
    if attributes.is_empty() {
        Err(Stop::Stuck)
    } else {
        Ok((ProcedureOption::Returns(attributes), cursor))
    }
}

/// Behind RETURNS: the attributes of what is returned.
#[tactic(auto, unfolding(crate::specs::Reading::returns_from))]
fn returns<'a>(
    alloc: Global,
    source: &[u8],
    cursor: Cursor<'a>,
) -> Result<(ProcedureOption, Cursor<'a>), Stop<'a>>
    ensures { Gives (λ x. (procedure_option_of x.0, cursor_of x.1)) result (returns_from source.now (cursor_of cursor.entry)) }
{
    let (_, cursor) = taken(Kind::Symbol(Symbol::OpenParenthesis), cursor)?;
    let (attributes, cursor) = attributes(alloc, source, cursor)?;
    let (_, cursor) = taken(Kind::Symbol(Symbol::CloseParenthesis), cursor)?;
    returning(attributes, cursor)
}

/// An option.
#[tactic(auto, unfolding(crate::specs::Reading::option_from))]
fn option<'a>(
    alloc: Global,
    source: &[u8],
    cursor: Cursor<'a>,
) -> Result<(ProcedureOption, Cursor<'a>), Stop<'a>>
    ensures { Gives (λ x. (procedure_option_of x.0, cursor_of x.1)) result (option_from source.now (cursor_of cursor.entry)) }
{
    let ((_, word), cursor) = word(cursor)?;
    match word {
        Word::Options => main_option(cursor),
        Word::Recursive => Ok((ProcedureOption::Recursive, cursor)),
        Word::Returns => returns(alloc, source, cursor),
        _ => Err(Stop::Stuck),
    }
}

/// The options of a procedure, up to the semicolon.
///
/// # Errors
///
/// `LeftOut` with the word of an attribute that is left out as its first token; `Stuck` where no option goes on, `Ended`
/// where the tokens end before the semicolon, and `Memory`.
pub fn options<'a>(
    alloc: Global,
    source: &[u8],
    cursor: Cursor<'a>,
) -> Result<(Vec<ProcedureOption>, Cursor<'a>), Stop<'a>>
    ensures { Gives (λ x. (map procedure_option_of x.0.items, cursor_of x.1)) result (options_from source.now (cursor_of cursor.entry)) }
{
    let mut options = Vec::new(alloc);
    let mut rest = cursor;
    'further: while !begins(Kind::Symbol(Symbol::Semicolon), &rest) {
        let (option, after) = option(alloc, source, rest)?;
        options.push(option)?;
        rest = after;
    }
    Ok((options, rest))
}
