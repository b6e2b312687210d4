// Calls of procedures.

ghost use Rattle.std.specs.Prelude.{◌≡◌, ◌++◌, [], map, slice_get, unwrap_or, IfOk, OnOk};
ghost use Rattle.pli_typing.specs.Calls as C;
ghost use Rattle.pli_typing.specs.TypedView.{call_of};
ghost use Rattle.pli_typing.specs.Variables.{declarations_at, variables_in};
ghost use Rattle.pli_transfer.specs.Shown.{callee_of};
ghost use Rattle.pli_language.specs.View.{name_of, procedure_head_of};
ghost use Rattle.pli_declare.specs.ShownBlocks.{block_of};
ghost use Rattle.pli_operand.specs.Notes.{noted};
ghost use Rattle.pli_operand.specs.Shown.{designated_of, notes_of, operand_of};

use crate::part::whole_by;
use pli_language::expr::{Name, Place};
use pli_language::stmt::ProcedureHead;
use pli_operand::notes::Notes;
use pli_operand::operand::{Designated, Operand};
use pli_transfer::argument::arguments_judged;
use pli_transfer::callee::Callee;
use pli_typing::typed;
use pli_typing::typed::Call;
use pli_variables::Tables;
use std::alloc::{AllocError, Global};

/// The variable of level 1 with this index, behind others.
#[tactic(auto, using(crate::proofs::Calls::whole_of_none, crate::proofs::Calls::whole_of_some, crate::proofs::Parts::lists))]
fn put_whole<'t, 'a>(
    out: &mut Vec<Designated<'t, 'a>>,
    tables: &'t Tables<'_, 'a>,
    block: usize,
    index: usize,
) -> Result<(), AllocError>
    ensures { OnOk result (map designated_of out.new.items ≡ map designated_of out.old.items ++ C.whole_of (map block_of tables.now.scopes.now.blocks.items) block (unwrap_or (slice_get (variables_in (declarations_at (map block_of tables.now.scopes.now.blocks.items) block)) index) [])) }
{
    match tables.variable_shape(block, index) {
        Some(shape) => Ok(out.push(whole_by(shape))?),
        None => Ok(()),
    }
}

/// The parameters of a procedure, as its own block sees them.
#[tactic(auto, using(pli_declare::proofs::Chains::drop_here, std::proofs::lemmas::List::drop_all, crate::proofs::Parts::lists))]
fn parameters_at<'t, 'a>(
    alloc: Global,
    tables: &'t Tables<'_, 'a>,
    block: usize,
    indices: &[usize],
) -> Result<Vec<Designated<'t, 'a>>, AllocError>
    ensures { IfOk result (λ v. map designated_of v.items ≡ C.parameters_at (map block_of tables.now.scopes.now.blocks.items) block indices.now) }
{
    let mut out = Vec::new(alloc);
    for index in indices {
        put_whole(&mut out, tables, block, *index)?;
    }
    Ok(out)
}

/// The parameters of these names.
fn parameters_of<'t, 'a>(
    alloc: Global,
    tables: &'t Tables<'_, 'a>,
    block: usize,
    names: &[Name],
) -> Result<Vec<Designated<'t, 'a>>, AllocError>
    ensures { IfOk result (λ v. map designated_of v.items ≡ C.parameters_of (map block_of tables.now.scopes.now.blocks.items) block (map name_of names.now)) }
{
    let indices = tables.parameter_indices(alloc, block, names)?;
    parameters_at(alloc, tables, block, &indices)
}

/// A call of the procedure with this block, which another block declares.
#[tactic(auto, using(pli_operand::proofs::Noting::noting))]
fn call_of<'a>(
    alloc: Global,
    notes: &mut Notes,
    tables: &Tables<'_, 'a>,
    holder: usize,
    callee: &Callee<'_, '_, 'a>,
    operands: Vec<Operand<'_, 'a>>,
) -> Result<Call<'a>, AllocError>
    ensures noted { OnOk result (notes_of notes.new ≡ noted (notes_of notes.old) (C.call_of (map block_of tables.now.scopes.now.blocks.items) holder (callee_of callee.now) (map operand_of operands.entry.items))) }
    ensures value { IfOk result (λ c. call_of c ≡ (C.call_of (map block_of tables.now.scopes.now.blocks.items) holder (callee_of callee.now) (map operand_of operands.entry.items)).value) }
{
    let arguments = arguments_judged(alloc, notes, callee, operands)?;
    Ok(Call {
        callee: typed::Callee {
            procedure: callee.block,
            level: tables.level_of_block(holder),
        },
        arguments,
    })
}

/// A call, by a name at a place, of a procedure that a block declares.
#[tactic(auto, using(pli_operand::proofs::Noting::noting))]
pub fn procedure_called<'a>(
    alloc: Global,
    notes: &mut Notes,
    tables: &Tables<'_, 'a>,
    holder: usize,
    head: &ProcedureHead,
    place: Place,
    operands: Vec<Operand<'_, 'a>>,
) -> Result<Call<'a>, AllocError>
    ensures noted { OnOk result (notes_of notes.new ≡ noted (notes_of notes.old) (C.procedure_called (map block_of tables.now.scopes.now.blocks.items) holder (procedure_head_of head.now) place (map operand_of operands.entry.items))) }
    ensures value { IfOk result (λ c. call_of c ≡ (C.procedure_called (map block_of tables.now.scopes.now.blocks.items) holder (procedure_head_of head.now) place (map operand_of operands.entry.items)).value) }
{
    let block = tables.block_of_procedure(head);
    let parameters = parameters_of(alloc, tables, block, &head.parameters)?;
    let callee = Callee {
        block,
        parameters: &parameters,
        place,
    };
    call_of(alloc, notes, tables, holder, &callee, operands)
}
