// What a block's declarations break.

ghost use Rattle.std.specs.Prelude.{◌≡◌, [], length, map, nat_lt};
ghost use Rattle.std.specs.List.{flat_map};
ghost use Rattle.pli_language.specs.Declaring.{block_faults, block_head_faults, declarations_faults, names_of};
ghost use Rattle.pli_language.specs.Refusals.{soonest};
ghost use Rattle.pli_language.specs.View.{name_of};
ghost use Rattle.pli_declare.specs.Shown.{declaration_of};
ghost use Rattle.pli_declare.specs.ShownBlocks.{block_of};

use crate::head::noted_head;
use crate::structure::noted_declarations;
use crate::twice::{noted_parameters, noted_twice};
use pli_declare::scope::Block;
use pli_language::fault::SourceFault;

/// What the head of a block breaks, where it is a procedure.
#[tactic(auto, using(crate::proofs::Faults::faults))]
fn noted_block_head(found: Option<SourceFault>, block: &Block) -> Option<SourceFault>
    ensures { result ≡ soonest found (block_head_faults (block_of block.now) (block_of block.now).head) }
{
    match block.head {
        None => found,
        Some(head) => {
            let found = noted_head(found, block.around.len() > 2, head);
            noted_parameters(found, &block.names.declarations, &head.parameters)
        }
    }
}

/// What the variables of a block break.
#[tactic(auto, using(crate::proofs::Faults::faults))]
fn noted_variables(found: Option<SourceFault>, block: &Block) -> Option<SourceFault>
    ensures { result ≡ soonest found (declarations_faults (names_of (block_of block.now).head) [] (block_of block.now).declarations) }
{
    match block.head {
        None => noted_declarations(found, &[], &block.names.declarations),
        Some(head) => noted_declarations(found, &head.parameters, &block.names.declarations),
    }
}

/// What a block's declarations break.
#[tactic(auto, using(crate::proofs::Faults::faults))]
fn noted_block(found: Option<SourceFault>, block: &Block) -> Option<SourceFault>
    ensures { result ≡ soonest found (block_faults (block_of block.now)) }
{
    let found = noted_block_head(found, block);
    let found = noted_twice(found, &block.names);
    noted_variables(found, block)
}

/// What the declarations of blocks break.
#[tactic(auto, using(crate::proofs::Faults::steps))]
pub fn noted_blocks(found: Option<SourceFault>, blocks: &[Block]) -> Option<SourceFault>
    ensures { result ≡ soonest found (flat_map block_faults (map block_of blocks.now)) }
{
    let mut found = found;
    for block in blocks {
        found = noted_block(found, block);
    }
    found
}
