// RETURN.

ghost use Rattle.std.specs.Prelude.{◌≡◌, slice_get, IfOk, OnOk, Some};
ghost use Rattle.pli_language.specs.declared.fault.SourceKind.TheVariants.{TypeMismatch};
ghost use Rattle.pli_typing.specs.Judging.{broken};
ghost use Rattle.pli_typing.specs.SingleStatements as S;
ghost use Rattle.pli_typing.specs.TypedStatementView.{stmt_of};
ghost use Rattle.pli_typing.specs.TypedTree as Y;
ghost use Rattle.pli_typing.specs.TypedView.{leaf_type_of};
ghost use Rattle.pli_typing.specs.Variables.{head_of_block};
ghost use Rattle.pli_language.specs.View.{expr_of, option_of, procedure_head_of};
ghost use Rattle.pli_operand.specs.Notes.{noted};
ghost use Rattle.pli_operand.specs.Shown.{notes_of, operand_of};
ghost use Rattle.pli_variables.specs.Rows.{blocks_shown};
ghost use Rattle.pli_tree.specs.Shown.{context_of};

use crate::context::Context;
use pli_language::expr::{Expr, Place};
use pli_language::fault::SourceKind;
use pli_language::stmt::ProcedureHead;
use pli_operand::notes::Notes;
use pli_operand::operand::Operand;
use pli_operand::stored::operand_stored;
use pli_reference::expression::operand;
use pli_typing::statement::Stmt;
use pli_typing::typed::LeafType;
use pli_variables::Tables;
use std::alloc::{AllocError, Global};

/// The procedure that a block is, if it is one.
fn head_at<'s, 'a>(tables: &Tables<'s, 'a>, block: usize) -> Option<&'a ProcedureHead>
    ensures { option_of (λ h. procedure_head_of h.now) result ≡ head_of_block (slice_get (blocks_shown tables.now.scopes.now) block) }
{
    tables.scopes.blocks.get(block)?.head
}

/// The first of some blocks, or the whole program.
fn first_or_none(blocks: &[usize]) -> usize
    ensures { result ≡ S.first_or_none blocks.now }
{
    match blocks.split_first() {
        Some((block, _)) => *block,
        None => 0,
    }
}

/// What the innermost procedure around returns; the block that declares it stands next around it.
fn result_around(tables: &Tables, around: &[usize]) -> Option<LeafType>
    ensures { option_of leaf_type_of result ≡ S.result_around (blocks_shown tables.now.scopes.now) around.now }
{
    let mut rest = around;
    while let Some((block, behind)) = rest.split_first() {
        if let Some(head) = head_at(tables, *block) {
            return tables.result_type(first_or_none(behind), head);
        }
        rest = behind;
    }
    None
}

/// A rule is broken by RETURN.
#[tactic(auto, using(pli_operand::proofs::Noting::noting), unfolding(pli_typing::specs::TypedStatementView::stmt_of))]
fn mismatched<'a>(notes: &mut Notes, place: Place) -> Stmt<'a>
    ensures noted { notes_of notes.new ≡ noted (notes_of notes.old) (broken place TypeMismatch (Y.Return place.line)) }
    ensures value { stmt_of result ≡ Y.Return place.line }
{
    notes.broken(place, SourceKind::TypeMismatch);
    Stmt::Return { line: place.line }
}

/// A value where no function is.
fn unwanted<'a>(notes: &mut Notes, place: Place, _operand: Operand<'_, 'a>) -> Stmt<'a>
    ensures noted { notes_of notes.new ≡ noted (notes_of notes.old) (broken place TypeMismatch (Y.Return place.line)) }
    ensures value { stmt_of result ≡ Y.Return place.line }
{
    mismatched(notes, place)
}

#[tactic(auto, using(pli_operand::proofs::Noting::noting), unfolding(pli_typing::specs::TypedStatementView::stmt_of))]
fn returned_as<'a>(
    alloc: Global,
    notes: &mut Notes,
    place: Place,
    kind: LeafType,
    operand: Operand<'_, 'a>,
) -> Result<Stmt<'a>, AllocError>
    ensures noted { OnOk result (notes_of notes.new ≡ noted (notes_of notes.old) (S.returned place (Some (leaf_type_of kind)) (operand_of operand.entry))) }
    ensures value { IfOk result (λ s. stmt_of s ≡ (S.returned place (Some (leaf_type_of kind)) (operand_of operand.entry)).value) }
{
    Ok(Stmt::ReturnValue {
        kind,
        value: operand_stored(alloc, notes, kind, operand)?,
        line: place.line,
    })
}

/// RETURN with a value, where the procedure around returns this.
fn returned<'a>(
    alloc: Global,
    notes: &mut Notes,
    place: Place,
    kind: Option<LeafType>,
    operand: Operand<'_, 'a>,
) -> Result<Stmt<'a>, AllocError>
    ensures noted { OnOk result (notes_of notes.new ≡ noted (notes_of notes.old) (S.returned place (option_of leaf_type_of kind) (operand_of operand.entry))) }
    ensures value { IfOk result (λ s. stmt_of s ≡ (S.returned place (option_of leaf_type_of kind) (operand_of operand.entry)).value) }
{
    match kind {
        Some(kind) => returned_as(alloc, notes, place, kind, operand),
        None => Ok(unwanted(notes, place, operand)),
    }
}

/// RETURN without a value.
#[tactic(auto, using(pli_operand::proofs::Noting::noting), unfolding(pli_typing::specs::TypedStatementView::stmt_of))]
fn not_returned<'a>(notes: &mut Notes, place: Place, kind: Option<LeafType>) -> Stmt<'a>
    ensures noted { notes_of notes.new ≡ noted (notes_of notes.old) (S.not_returned place (option_of leaf_type_of kind)) }
    ensures value { stmt_of result ≡ (S.not_returned place (option_of leaf_type_of kind)).value }
{
    match kind {
        Some(_) => mismatched(notes, place),
        None => Stmt::Return { line: place.line },
    }
}

/// A function returns a value, and no other procedure does.
#[tactic(auto, using(pli_operand::proofs::Noting::noting))]
pub fn return_statement<'a>(
    alloc: Global,
    context: &Context<'_, '_, 'a>,
    notes: &mut Notes,
    value: &'a Option<Expr>,
    place: Place,
) -> Result<Stmt<'a>, AllocError>
    ensures noted { OnOk result (notes_of notes.new ≡ noted (notes_of notes.old) (S.return_statement (context_of context.now) (option_of expr_of value.now) place)) }
    ensures value { IfOk result (λ s. stmt_of s ≡ (S.return_statement (context_of context.now) (option_of expr_of value.now) place).value) }
{
    let kind = result_around(context.scope.tables, &context.around);
    match value {
        Some(value) => {
            let operand = operand(alloc, context.scope, notes, value)?;
            Ok(returned(alloc, notes, place, kind, operand)?)
        }
        None => Ok(not_returned(notes, place, kind)),
    }
}
