// The scopes of a program, and what names mean in them.

ghost use Rattle.std.specs.Prelude.{◌≡◌, ◌++◌, ◌∷◌, [], map, IfOk, slice_get};
ghost use Rattle.pli_language.specs.Declarations.{blocks_of, outermost};
ghost use Rattle.pli_language.specs.Means.{declarations_of, means_from, means_in, names_mean};
ghost use Rattle.pli_language.specs.View.{tree_of};
ghost use Rattle.pli_declare.specs.Among.{letters_of};
ghost use Rattle.pli_declare.specs.ShownBlocks.{block_of};

use crate::blocks::{inside, put_blocks};
use crate::names::indexed;
use crate::scope::Block;
use pli_language::scope::Found;
use pli_language::stmt::Tree;
use std::alloc::{AllocError, Global};

/// The blocks of a program by their numbers: 0 is the whole program, then procedures and BEGIN blocks as they begin.
#[derive(Drop)]
pub struct Scopes<'a> {
    pub blocks: Vec<Block<'a>>,
}

impl Scopes<'_> {
    /// What names with points between them mean in the block with this number, outermost name first: the innermost block
    /// with a match decides, by its full match, else by its only match. No block has another number, and no names mean
    /// nothing.
    pub fn find(&self, block: usize, names: &[&[u8]]) -> Found
        ensures { result ≡ names_mean (map block_of self.now.blocks.items) block (letters_of names.now) }
    {
        let Some((last, qualifiers)) = names.split_last() else {
            return Found::None;
        };
        match self.blocks.get(block) {
            Some(home) => found_around(&self.blocks, &home.around, qualifiers, last),
            None => Found::None,
        }
    }
}

/// What is meant in the block with this number itself.
fn found_in(blocks: &[Block], block: usize, qualifiers: &[&[u8]], last: &[u8]) -> Found
    ensures { result ≡ means_in (letters_of qualifiers.now) last.now block (declarations_of (slice_get (map block_of blocks.now) block)) }
{
    match blocks.get(block) {
        Some(found) => found.names.find(block, qualifiers, last),
        None => Found::None,
    }
}

/// What is meant in the first of these blocks that has a match.
fn found_around(blocks: &[Block], around: &[usize], qualifiers: &[&[u8]], last: &[u8]) -> Found
    ensures { result ≡ means_from (map block_of blocks.now) around.now (letters_of qualifiers.now) last.now }
{
    for block in around {
        match found_in(blocks, *block, qualifiers, last) {
            Found::None => {}
            Found::One(declaration) => return Found::One(declaration),
            Found::Ambiguous => return Found::Ambiguous,
        }
    }
    Found::None
}

/// The block that is the whole program, which declares nothing.
fn outermost<'a>(alloc: Global) -> Result<Block<'a>, AllocError>
    ensures { IfOk result (λ b. block_of b ≡ outermost) }
{
    Ok(Block {
        around: inside(alloc, 0, &[])?,
        head: None,
        names: indexed(alloc, Vec::new(alloc))?,
    })
}

/// The scopes of a program.
pub fn read_scopes<'a>(alloc: Global, tree: &'a Tree) -> Result<Scopes<'a>, AllocError>
    ensures { IfOk result (λ s. map block_of s.blocks.items ≡ blocks_of (tree_of tree.now)) }
{
    let mut blocks = Vec::new(alloc);
    blocks.push(outermost(alloc)?)?;
    put_blocks(alloc, &mut blocks, &[0], &tree.procedures)?;
    Ok(Scopes { blocks })
}
