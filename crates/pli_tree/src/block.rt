// What each block declares.

ghost use Rattle.std.specs.Prelude.{◌≡◌, map, IfOk, OnOk};
ghost use Rattle.pli_typing.specs.Calls.{returns_in};
ghost use Rattle.pli_typing.specs.Generations as G;
ghost use Rattle.pli_language.specs.Refusals.{soonest};
ghost use Rattle.pli_typing.specs.Resolving as Z;
ghost use Rattle.pli_typing.specs.TypedStatementView.{declared_variable_of};
ghost use Rattle.pli_language.specs.View.{attribute_of, procedure_option_of};
ghost use Rattle.pli_declare.specs.ShownBlocks.{block_of};
ghost use Rattle.pli_variables.specs.Rows.{blocks_shown};

use pli_declare::scope::Block;
use pli_generation::named::names_demanded;
use pli_generation::variable::declared_variables;
use pli_language::declaration::Attribute;
use pli_language::fault::SourceFault;
use pli_language::stmt::ProcedureOption;
use pli_operand::notes::Notes;
use pli_reference::scope::Scope;
use pli_typing::typed::DeclaredVariable;
use pli_variables::Tables;
use pli_variables::declared::returns_in;
use std::alloc::{AllocError, Global};

/// The block that holds a block, by the numbers from its own on.
#[tactic(auto, using(crate::proofs::Blocks::holder_is))]
fn holder_of(around: &[usize]) -> usize
    ensures { result ≡ Z.holder_of around.now }
{
    match around.get(1) {
        Some(holder) => *holder,
        None => 0,
    }
}

/// The names in the attributes of RETURNS.
fn attributes_demanded(
    found: Option<SourceFault>,
    tables: &Tables,
    holder: usize,
    attributes: &[Attribute],
) -> Option<SourceFault>
    ensures { result ≡ soonest found (G.names_demanded (blocks_shown tables.now.scopes.now) holder (map attribute_of attributes.now)).faults }
{
    let mut notes = Notes {
        found,
        own: None,
        forbidden: false,
    };
    names_demanded(&mut notes, tables, holder, attributes);
    notes.found
}

/// The names in RETURNS, which are looked up from the block that declares the procedure.
#[tactic(auto, using(pli_declaring::proofs::Faults::faults))]
fn returns_demanded(
    found: Option<SourceFault>,
    tables: &Tables,
    holder: usize,
    options: &[ProcedureOption],
) -> Option<SourceFault>
    ensures { result ≡ soonest found (Z.returns_demanded (blocks_shown tables.now.scopes.now) holder (returns_in (map procedure_option_of options.now))).faults }
{
    match returns_in(options) {
        Some(attributes) => attributes_demanded(found, tables, holder, attributes),
        None => found,
    }
}

/// The names in the head of a block.
#[tactic(auto, using(pli_declaring::proofs::Faults::faults))]
fn head_demanded(found: Option<SourceFault>, tables: &Tables, block: &Block) -> Option<SourceFault>
    ensures { result ≡ soonest found (Z.head_demanded (blocks_shown tables.now.scopes.now) (block_of block.now) (block_of block.now).head).faults }
{
    match block.head {
        Some(head) => returns_demanded(found, tables, holder_of(&block.around), &head.options),
        None => found,
    }
}

/// What the blocks of a program declare, with what their heads break.
#[tactic(auto, using(crate::proofs::Blocks::found_end, std::proofs::lemmas::List::drop_all))]
pub fn block_variables<'a>(
    alloc: Global,
    tables: &Tables<'_, 'a>,
    found: &mut Option<SourceFault>,
) -> Result<Vec<Vec<DeclaredVariable<'a>>>, AllocError>
    ensures faults { OnOk result (found.new ≡ soonest found.old (Z.block_variables (blocks_shown tables.now.scopes.now) 0 (blocks_shown tables.now.scopes.now)).faults) }
    ensures value { IfOk result (λ v. map (λ b. map declared_variable_of b.items) v.items ≡ (Z.block_variables (blocks_shown tables.now.scopes.now) 0 (blocks_shown tables.now.scopes.now)).value) }
{
    let mut out = Vec::new(alloc);
    for block in 0..tables.scopes.blocks.len() {
        *found = head_demanded(*found, tables, &tables.scopes.blocks[block]);
        let variables = declared_variables(alloc, Scope { tables, block }, found)?;
        out.push(variables)?;
    }
    Ok(out)
}
