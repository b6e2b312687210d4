// The code of a source with the names that a reader knows its procedures by.

ghost use Rattle.std.specs.Prelude.{◌≡◌, ◌⊎◌, map, IfOk, MatchResult};
ghost use Rattle.pli_language.specs.Declarations.{blocks_of};
ghost use Rattle.pli_language.specs.Refusals.{want_of_memory};
ghost use Rattle.pli_language.specs.View.{tree_of, name_of, procedure_head_of};
ghost use Rattle.pli_typing.specs.Resolving.{IsMistyped};
ghost use Rattle.pli_declare.specs.ShownBlocks.{block_of};
ghost use Rattle.pli_compile.specs.Compiling.{IsRefused};
ghost use Rattle.pli_compile.specs.Naming.{IsNamed, IsTreeNamed, block_letters, first_letters};

use crate::compile::OUT_OF_MEMORY;
use crate::parsed::parse_source;
use pli_declare::Scopes;
use pli_declare::scope::Block;
use pli_declaring::declare;
use pli_language::expr::Name;
use pli_language::fault::SourceFault;
use pli_language::stmt::Tree;
use pli_tree::resolve;
use rv_assembly::code::Code;
use rv_program::generate::unlinked;
use std::alloc::{AllocError, Global};

/// Code before it stands at its places, and the names of its procedures.
#[derive(Drop)]
pub struct NamedCode {
    pub code: Code,
    /// For each block by its number the letters of its first label; none where it is no procedure.
    pub names: Vec<Vec<u8>>,
}

fn first_letters(alloc: Global, labels: &[Name]) -> Result<Vec<u8>, AllocError>
    ensures { IfOk result (λ v. v.items ≡ first_letters (map name_of labels.now)) }
{
    match labels.first() {
        Some(name) => Ok(Vec::from_slice(alloc, &name.letters)?),
        None => Ok(Vec::new(alloc)),
    }
}

fn block_letters(alloc: Global, block: &Block) -> Result<Vec<u8>, AllocError>
    ensures { IfOk result (λ v. v.items ≡ block_letters (block_of block.now)) }
{
    match block.head {
        Some(head) => first_letters(alloc, &head.labels),
        None => Ok(Vec::new(alloc)),
    }
}

#[tactic(auto, using(crate::proofs::Names::gathered))]
fn names_of(alloc: Global, blocks: &[Block]) -> Result<Vec<Vec<u8>>, AllocError>
    ensures { IfOk result (λ v. map (λ l. l.items) v.items ≡ map block_letters (map block_of blocks.now)) }
{
    let mut names = Vec::new(alloc);
    for block in blocks {
        names.push(block_letters(alloc, block)?)?;
    }
    Ok(names)
}

/// The code of a tree whose declarations break no rule.
fn tree_code<'a>(alloc: Global, tree: &'a Tree, scopes: &Scopes<'a>) -> Result<Code, SourceFault>
    requires { map block_of scopes.now.blocks.items ≡ blocks_of (tree_of tree.now) }
    ensures { MatchResult result (λ code. IsTreeNamed (tree_of tree.now) code) (λ f. (f ≡ want_of_memory) ⊎ IsMistyped (tree_of tree.now) f) }
{
    let typed = resolve(alloc, tree, scopes)?;
    match unlinked(alloc, &typed) {
        Ok(code) => Ok(code),
        Err(_) => Err(OUT_OF_MEMORY),
    }
}

/// The code of a source, for a listing.
///
/// # Errors
///
/// As `compile`.
pub fn named_code(alloc: Global, source: &[u8]) -> Result<NamedCode, SourceFault>
    ensures { MatchResult result (λ n. IsNamed source.now n.code (map (λ l. l.items) n.names.items)) (λ f. IsRefused source.now f) }
{
    let parsed = parse_source(alloc, source)?;
    let scopes = declare(alloc, &parsed.tree)?;
    let code = tree_code(alloc, &parsed.tree, &scopes)?;
    match names_of(alloc, &scopes.blocks) {
        Ok(names) => Ok(NamedCode { code, names }),
        Err(_) => Err(OUT_OF_MEMORY),
    }
}
