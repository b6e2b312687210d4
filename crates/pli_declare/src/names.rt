// A block's declarations, with the places of each name.

ghost use Rattle.std.specs.Prelude.{◌≡◌, ◌++◌, ◌∷◌, [], map, IfOk, length};
ghost use Rattle.std.specs.Prelude.{nat_eq};
ghost use Rattle.std.specs.Cmp.Lexicographic.{pointwise};
ghost use Rattle.pli_language.specs.Means.{means_in, places};
ghost use Rattle.pli_declare.specs.Among.{letters_of};
ghost use Rattle.pli_declare.specs.Index.{places_at, IsIndex};
ghost use Rattle.pli_declare.specs.Shown.{declaration_of};

use crate::among::among;
use crate::scope::Declaration;
use indexmap::IndexMap;
use pli_language::scope::Found;
use std::alloc::{AllocError, Global};

/// The declarations of a block in source order, and where each name stands among them.
#[derive(Drop)]
pub struct Names<'a> {
    pub declarations: Vec<Declaration<'a>>,
    places: IndexMap<&'a [u8], Vec<usize>>,
    ghost indexed: { ∥ IsIndex places (map declaration_of declarations.items) ∥₁ },
}

/// The letters of a declaration's name.
fn letters<'a>(declaration: &Declaration<'a>) -> &'a [u8]
    ensures { result.now ≡ declaration.now.name.now.letters.items }
{
    declaration.name.letters.as_slice()
}

/// The places of a name, copied.
fn copied(
    alloc: Global,
    places: &IndexMap<&[u8], Vec<usize>>,
    key: &[u8],
) -> Result<Vec<usize>, AllocError>
    ensures { IfOk result (λ v. v.items ≡ places_at places.now key.now) }
{
    match places.get(key) {
        Some(found) => found.to_vec(alloc),
        None => Ok(Vec::new(alloc)),
    }
}

/// These declarations, with the places of each name.
pub fn indexed<'a>(
    alloc: Global,
    declarations: Vec<Declaration<'a>>,
) -> Result<Names<'a>, AllocError>
    ensures { IfOk result (λ n. n.declarations.items ≡ declarations.entry.items) }
{
    let mut places = IndexMap::new(alloc);
    for (i, declaration) in declarations.iter().enumerate() {
        let key = letters(declaration);
        let mut at = copied(alloc, &places, key)?;
        at.push(i)?;
        places.insert(key, at)?;
    }
    Ok(Names {
        declarations,
        places,
    })
}

impl Names<'_> {
    /// What these qualifiers and this last name mean in this block.
    pub fn find(&self, block: usize, qualifiers: &[&[u8]], last: &[u8]) -> Found
        ensures { result ≡ means_in (letters_of qualifiers.now) last.now block (map declaration_of self.now.declarations.items) }
    {
        match self.places.get(last) {
            Some(places) => among(&self.declarations, block, qualifiers, places),
            None => Found::None,
        }
    }

    /// Where a name stands among this block's declarations.
    pub fn places_of(&self, name: &[u8]) -> &[usize]
        ensures { result.now ≡ places (λ d. pointwise nat_eq name.now d.name.letters) 0 (map declaration_of self.now.declarations.items) }
    {
        match self.places.get(name) {
            Some(places) => places,
            None => &[],
        }
    }
}
