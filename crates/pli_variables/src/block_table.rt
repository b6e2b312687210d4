// What is kept of each block.

ghost use Rattle.std.specs.Prelude.{◌≡◌, length, map, IfOk};
ghost use Rattle.pli_declare.specs.ShownBlocks.{block_of};
ghost use Rattle.pli_variables.specs.BlockTables.{block_table, table_given, table_of};
ghost use Rattle.pli_variables.specs.Rows.{blocks_shown, rows_before};
ghost use Rattle.pli_variables.specs.ShownShapes.{home_in, home_of};

use crate::home::Home;
use crate::meant::Meant;
use crate::parameter::indices_of;
use crate::procedure::procedure_row;
use crate::shape::Shape;
use crate::shaping::{shapes_given, wholes_given};
use crate::variable::parameters_of;
use pli_declare::scope::Block;
use std::alloc::{AllocError, Global};

/// The shapes of a block's declarations and of its variables of level 1, the places of its parameters among these, and the
/// blocks of the procedures that it declares.
#[derive(Drop)]
pub struct BlockTable<'a> {
    pub declared: Vec<Option<Shape<'a>>>,
    pub variables: Vec<Option<Shape<'a>>>,
    pub parameters: Vec<usize>,
    pub procedures: Vec<Option<usize>>,
}

/// What is kept of a block.
fn table_given<'a>(
    alloc: Global,
    meant: &Meant,
    home: &Home<'_, 'a>,
) -> Result<BlockTable<'a>, AllocError>
    ensures { IfOk result (λ t. table_of t ≡ table_given (blocks_shown meant.now.scopes.now) (home_of home.now)) }
{
    let declared = shapes_given(alloc, home)?;
    let variables = wholes_given(alloc, home)?;
    let parameters = indices_of(alloc, &home.groups, parameters_of(home.block))?;
    let procedures = procedure_row(alloc, &meant.scopes.blocks, &home.block.names.declarations)?;
    Ok(BlockTable {
        declared,
        variables,
        parameters,
        procedures,
    })
}

/// What is kept of a block of this number.
fn table_of_block<'a>(
    alloc: Global,
    meant: &Meant,
    block: &Block<'a>,
    number: usize,
) -> Result<BlockTable<'a>, AllocError>
    ensures { IfOk result (λ t. table_of t ≡ table_given (blocks_shown meant.now.scopes.now) (home_in (blocks_shown meant.now.scopes.now) (block_of block.now) number)) }
{
    let home = Home::new(alloc, meant, block, number)?;
    table_given(alloc, meant, &home)
}

/// What is kept of the block with this number.
fn block_table<'a>(
    alloc: Global,
    meant: &Meant<'_, '_, 'a>,
    number: usize,
) -> Result<BlockTable<'a>, AllocError>
    ensures { IfOk result (λ t. table_of t ≡ block_table (blocks_shown meant.now.scopes.now) number) }
{
    match meant.scopes.blocks.get(number) {
        Some(block) => table_of_block(alloc, meant, block, number),
        None => Ok(BlockTable {
            declared: Vec::new(alloc),
            variables: Vec::new(alloc),
            parameters: Vec::new(alloc),
            procedures: Vec::new(alloc),
        }),
    }
}

/// What is kept of all blocks.
#[tactic(auto, using(crate::proofs::Tabled::variables))]
pub fn block_tables<'a>(
    alloc: Global,
    meant: &Meant<'_, '_, 'a>,
) -> Result<Vec<BlockTable<'a>>, AllocError>
    ensures { IfOk result (λ v. map table_of v.items ≡ rows_before (block_table (blocks_shown meant.now.scopes.now)) (length (blocks_shown meant.now.scopes.now))) }
{
    let mut out = Vec::new(alloc);
    for number in 0..meant.scopes.blocks.len() {
        out.push(block_table(alloc, meant, number)?)?;
    }
    Ok(out)
}
