// The choice among the places of a name.

ghost use Rattle.std.specs.Prelude.{◌≡◌, filter, map};
ghost use Rattle.pli_language.specs.declared.scope.Found.TheVariants as F;
ghost use Rattle.pli_declare.specs.Among.{full_at, further_of, going, letters_of, part_at};
ghost use Rattle.pli_declare.specs.Shown.{declaration_of};

use crate::qualifiers::{may_mean, means_fully};
use crate::scope::Declaration;
use pli_language::scope::{DeclarationAt, Found};

/// The declaration at this place is meant by its full name.
fn full_at(declarations: &[Declaration], qualifiers: &[&[u8]], index: usize) -> bool
    ensures { result ≡ full_at (letters_of qualifiers.now) (map declaration_of declarations.now) index }
{
    match declarations.get(index) {
        Some(declaration) => means_fully(qualifiers, &declaration.what),
        None => false,
    }
}

/// The declaration at this place may be meant.
fn part_at(declarations: &[Declaration], qualifiers: &[&[u8]], index: usize) -> bool
    ensures { result ≡ part_at (letters_of qualifiers.now) (map declaration_of declarations.now) index }
{
    match declarations.get(index) {
        Some(declaration) => may_mean(qualifiers, &declaration.what),
        None => false,
    }
}

/// What was found so far, with one more place that matches or doesn't.
fn further(matches: bool, block: usize, index: usize, found: Found) -> Found
    ensures { result ≡ further_of matches block index found }
{
    if !matches {
        return found;
    }
    match found {
        Found::None => Found::One(DeclarationAt { block, index }),
        Found::One(_) => Found::Ambiguous,
        Found::Ambiguous => Found::Ambiguous,
    }
}

/// What is meant among these places of a block: the full match, else the only match.
pub fn among(
    declarations: &[Declaration],
    block: usize,
    qualifiers: &[&[u8]],
    places: &[usize],
) -> Found
    ensures { result ≡ going block F.None (filter (full_at (letters_of qualifiers.now) (map declaration_of declarations.now)) places.now) (filter (part_at (letters_of qualifiers.now) (map declaration_of declarations.now)) places.now) }
{
    let mut found = Found::None;
    for index in places {
        let index = *index;
        if full_at(declarations, qualifiers, index) {
            return Found::One(DeclarationAt { block, index });
        }
        let matches = part_at(declarations, qualifiers, index);
        found = further(matches, block, index, found);
    }
    found
}
