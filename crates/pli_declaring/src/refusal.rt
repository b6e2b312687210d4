// The scopes of a program, or the first rule that its declarations break.

ghost use Rattle.std.specs.Prelude.{◌≡◌, ◌++◌, ◌⊎◌, [], map, None, IfErr, IfOk};
ghost use Rattle.std.specs.List.{flat_map};
ghost use Rattle.pli_language.specs.Declarations.{blocks_of};
ghost use Rattle.pli_language.specs.Declaring.{block_faults, declaring_faults, main_faults, outer_procedures, static_faults, statics_in};
ghost use Rattle.pli_language.specs.Refusals.{IsLeast, soonest, want_of_memory};
ghost use Rattle.pli_language.specs.View.{items_of, tree_of};
ghost use Rattle.pli_declare.specs.ShownBlocks.{block_of};

use crate::block::noted_blocks;
use crate::program::noted_main;
use crate::statics::{noted_statics, statics_of};
use pli_declare::scope::Block;
use pli_declare::{Scopes, read_scopes};
use pli_language::fault::{SourceFault, SourceKind};
use pli_language::stmt::{Items, Tree};
use std::alloc::{AllocError, Global};

const OUT_OF_MEMORY: SourceFault = SourceFault {
    line: 0,
    column: 0,
    kind: SourceKind::Memory,
};

/// The least of what a program with these blocks breaks.
#[tactic(auto, using(crate::proofs::Whole::whole))]
fn least_broken(
    alloc: Global,
    procedures: &Items,
    blocks: &[Block],
) -> Result<Option<SourceFault>, AllocError>
    ensures { IfOk result (λ r. r ≡ soonest None (main_faults (outer_procedures (items_of procedures.now)) ++ flat_map block_faults (map block_of blocks.now) ++ static_faults (flat_map (λ b. statics_in b.declarations) (map block_of blocks.now)))) }
{
    let found = noted_main(None, procedures);
    let found = noted_blocks(found, blocks);
    let statics = statics_of(alloc, blocks)?;
    Ok(noted_statics(found, &statics))
}

/// The scopes of a program's declarations, or the first rule that its declarations break.
///
/// # Errors
///
/// The least of all that the declarations break, by line, then column, then number. `Memory` at 0:0 where memory ran
/// out.
pub fn declare<'a>(alloc: Global, tree: &'a Tree) -> Result<Scopes<'a>, SourceFault>
    // The scopes are those of the program.
    ensures scopes { IfOk result (λ s. map block_of s.blocks.items ≡ blocks_of (tree_of tree.now)) }
    // The declarations of a program that is accepted break nothing.
    ensures accepted { IfOk result (λ s. declaring_faults (tree_of tree.now) ≡ []) }
    // A refusal is the least of what they break.
    ensures refused { IfErr result (λ f. (f ≡ want_of_memory) ⊎ IsLeast (declaring_faults (tree_of tree.now)) f) }
{
    let Ok(scopes) = read_scopes(alloc, tree) else {
        return Err(OUT_OF_MEMORY);
    };
    match least_broken(alloc, &tree.procedures, &scopes.blocks) {
        Ok(None) => Ok(scopes),
        Ok(Some(least)) => Err(least),
        Err(_) => Err(OUT_OF_MEMORY),
    }
}
