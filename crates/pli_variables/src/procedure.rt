// Procedures: their blocks, and what RETURNS says.

ghost use Rattle.std.specs.Prelude.{◌≡◌, map, IfOk};
ghost use Rattle.pli_typing.specs.Calls.{block_of_procedure, is_block_of, returns_in};
ghost use Rattle.pli_language.specs.View.{option_of, procedure_head_of, procedure_option_of};
ghost use Rattle.pli_declare.specs.Shown.{declaration_of, what_of};
ghost use Rattle.pli_declare.specs.ShownBlocks.{block_of};
ghost use Rattle.pli_variables.specs.Procedures.{attributes_shown, procedure_of_what, procedure_row, returns_of};

use pli_declare::scope::{Block, Declaration, What};
use pli_language::declaration::Attribute;
use pli_language::stmt::{ProcedureHead, ProcedureOption};
use std::alloc::{AllocError, Global};

/// The block is this procedure's.
fn is_block_of(head: &ProcedureHead, block: &Block) -> bool
    ensures { result ≡ is_block_of (procedure_head_of head.now) (block_of block.now).head }
{
    match block.head {
        Some(other) => head.place == other.place,
        None => false,
    }
}

/// The number of a procedure's block among these.
#[tactic(auto, using(crate::proofs::Amounts::found))]
pub fn block_of_procedure(blocks: &[Block], head: &ProcedureHead) -> usize
    ensures { result ≡ block_of_procedure (map block_of blocks.now) (procedure_head_of head.now) }
{
    for (i, block) in blocks.iter().enumerate() {
        if is_block_of(head, block) {
            return i;
        }
    }
    blocks.len()
}

/// The attributes of an option that is RETURNS.
fn returns_of(option: &ProcedureOption) -> Option<&[Attribute]>
    ensures { option_of attributes_shown result ≡ returns_of (procedure_option_of option.now) }
{
    match option {
        ProcedureOption::Returns(attributes) => Some(attributes),
        ProcedureOption::Main => None,
        ProcedureOption::Recursive => None,
    }
}

/// The attributes of RETURNS, if it is among these.
#[tactic(auto, using(crate::proofs::Procedures::options))]
pub fn returns_in(options: &[ProcedureOption]) -> Option<&[Attribute]>
    ensures { option_of attributes_shown result ≡ returns_in (map procedure_option_of options.now) }
{
    for option in options {
        if let Some(attributes) = returns_of(option) {
            return Some(attributes);
        }
    }
    None
}

/// The number of the block of the procedure that is declared, if one is.
fn procedure_of_what(blocks: &[Block], what: &What) -> Option<usize>
    ensures { result ≡ procedure_of_what (map block_of blocks.now) (what_of what.now) }
{
    match what {
        What::Procedure(head) => Some(block_of_procedure(blocks, head)),
        What::Variable(_) => None,
        What::Label => None,
    }
}

/// Those of these declarations.
#[tactic(auto, using(crate::proofs::Grouping::groups))]
pub fn procedure_row(
    alloc: Global,
    blocks: &[Block],
    declarations: &[Declaration],
) -> Result<Vec<Option<usize>>, AllocError>
    ensures { IfOk result (λ v. v.items ≡ procedure_row (map block_of blocks.now) (map declaration_of declarations.now)) }
{
    let mut out = Vec::new(alloc);
    for declaration in declarations {
        out.push(procedure_of_what(blocks, &declaration.what))?;
    }
    Ok(out)
}
