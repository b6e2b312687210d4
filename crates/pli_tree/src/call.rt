// CALL.

ghost use Rattle.std.specs.Prelude.{◌≡◌, map, IfOk, OnOk, Some};
ghost use Rattle.pli_language.specs.Declarations.{ProcedureName};
ghost use Rattle.pli_typing.specs.Judging.{broken};
ghost use Rattle.pli_typing.specs.SingleStatements as S;
ghost use Rattle.pli_typing.specs.TypedStatementView.{stmt_of};
ghost use Rattle.pli_typing.specs.TypedTree as Y;
ghost use Rattle.pli_typing.specs.Variables.{what_at};
ghost use Rattle.pli_language.specs.View.{arguments_of, name_of, procedure_head_of};
ghost use Rattle.pli_operand.specs.Notes.{noted};
ghost use Rattle.pli_operand.specs.Shown.{notes_of, operand_of};
ghost use Rattle.pli_reference.specs.Shown.{scope_of};
ghost use Rattle.pli_variables.specs.Rows.{blocks_shown};

use pli_declare::scope::What;
use pli_declaring::attribute::is_builtin;
use pli_language::expr::{Arguments, Name, Place};
use pli_language::fault::SourceKind;
use pli_language::scope::{DeclarationAt, Found};
use pli_language::stmt::ProcedureHead;
use pli_operand::notes::Notes;
use pli_operand::operand::Operand;
use pli_reference::call::procedure_called;
use pli_reference::expression::arguments_in;
use pli_reference::scope::Scope;
use pli_typing::statement::Stmt;
use pli_variables::Tables;
use std::alloc::{AllocError, Global};

/// A rule is broken by a CALL with these operands.
#[tactic(auto, using(pli_operand::proofs::Noting::noting), unfolding(pli_typing::specs::TypedStatementView::stmt_of))]
fn refused<'a>(
    notes: &mut Notes,
    place: Place,
    broken_at: Place,
    kind: SourceKind,
    _operands: Vec<Operand>,
) -> Stmt<'a>
    ensures noted { notes_of notes.new ≡ noted (notes_of notes.old) (broken broken_at kind (Y.Null place.line)) }
    ensures value { stmt_of result ≡ Y.Null place.line }
{
    notes.broken(broken_at, kind);
    Stmt::Null { line: place.line }
}

#[tactic(auto, using(pli_operand::proofs::Noting::noting), unfolding(pli_typing::specs::TypedStatementView::stmt_of))]
fn called_procedure<'a>(
    alloc: Global,
    notes: &mut Notes,
    tables: &Tables<'_, 'a>,
    holder: usize,
    head: &ProcedureHead,
    name: &Name,
    place: Place,
    operands: Vec<Operand<'_, 'a>>,
) -> Result<Stmt<'a>, AllocError>
    ensures noted { OnOk result (notes_of notes.new ≡ noted (notes_of notes.old) (S.called_procedure (blocks_shown tables.now.scopes.now) holder (procedure_head_of head.now) (name_of name.now) place (map operand_of operands.entry.items))) }
    ensures value { IfOk result (λ s. stmt_of s ≡ (S.called_procedure (blocks_shown tables.now.scopes.now) holder (procedure_head_of head.now) (name_of name.now) place (map operand_of operands.entry.items)).value) }
{
    let call = procedure_called(alloc, notes, tables, holder, head, name.place, operands)?;
    Ok(Stmt::Call {
        call,
        line: place.line,
    })
}

/// A procedure that is no function.
fn called_head<'a>(
    alloc: Global,
    notes: &mut Notes,
    tables: &Tables<'_, 'a>,
    holder: usize,
    head: &ProcedureHead,
    name: &Name,
    place: Place,
    operands: Vec<Operand<'_, 'a>>,
) -> Result<Stmt<'a>, AllocError>
    ensures noted { OnOk result (notes_of notes.new ≡ noted (notes_of notes.old) (S.called_what (blocks_shown tables.now.scopes.now) holder (Some (ProcedureName (procedure_head_of head.now))) (name_of name.now) place (map operand_of operands.entry.items))) }
    ensures value { IfOk result (λ s. stmt_of s ≡ (S.called_what (blocks_shown tables.now.scopes.now) holder (Some (ProcedureName (procedure_head_of head.now))) (name_of name.now) place (map operand_of operands.entry.items)).value) }
{
    if tables.result_type(holder, head).is_some() {
        return Ok(refused(notes, place, place, SourceKind::TypeMismatch, operands));
    }
    called_procedure(alloc, notes, tables, holder, head, name, place, operands)
}

fn called_at<'a>(
    alloc: Global,
    notes: &mut Notes,
    tables: &Tables<'_, 'a>,
    at: DeclarationAt,
    name: &Name,
    place: Place,
    operands: Vec<Operand<'_, 'a>>,
) -> Result<Stmt<'a>, AllocError>
    ensures noted { OnOk result (notes_of notes.new ≡ noted (notes_of notes.old) (S.called_what (blocks_shown tables.now.scopes.now) at.block (what_at (blocks_shown tables.now.scopes.now) at) (name_of name.now) place (map operand_of operands.entry.items))) }
    ensures value { IfOk result (λ s. stmt_of s ≡ (S.called_what (blocks_shown tables.now.scopes.now) at.block (what_at (blocks_shown tables.now.scopes.now) at) (name_of name.now) place (map operand_of operands.entry.items)).value) }
{
    match tables.what_at(at) {
        Some(What::Procedure(head)) => {
            called_head(alloc, notes, tables, at.block, head, name, place, operands)
        }
        Some(What::Variable(_)) | Some(What::Label) | None => {
            Ok(refused(notes, place, place, SourceKind::TypeMismatch, operands))
        }
    }
}

/// What is found of the name that is called.
fn called_found<'a>(
    alloc: Global,
    notes: &mut Notes,
    tables: &Tables<'_, 'a>,
    found: Found,
    name: &Name,
    place: Place,
    operands: Vec<Operand<'_, 'a>>,
) -> Result<Stmt<'a>, AllocError>
    ensures noted { OnOk result (notes_of notes.new ≡ noted (notes_of notes.old) (S.called_found (blocks_shown tables.now.scopes.now) found (name_of name.now) place (map operand_of operands.entry.items))) }
    ensures value { IfOk result (λ s. stmt_of s ≡ (S.called_found (blocks_shown tables.now.scopes.now) found (name_of name.now) place (map operand_of operands.entry.items)).value) }
{
    match found {
        Found::One(at) => called_at(alloc, notes, tables, at, name, place, operands),
        Found::None if is_builtin(name.word) => {
            Ok(refused(notes, place, place, SourceKind::TypeMismatch, operands))
        }
        Found::None => Ok(refused(notes, place, name.place, SourceKind::Undeclared, operands)),
        Found::Ambiguous => Ok(refused(notes, place, name.place, SourceKind::Ambiguous, operands)),
    }
}

/// CALL of a procedure by its name.
#[tactic(auto, using(pli_operand::proofs::Noting::noting))]
pub fn call_statement<'a>(
    alloc: Global,
    scope: Scope<'_, '_, 'a>,
    notes: &mut Notes,
    name: &Name,
    arguments: &'a Arguments,
    place: Place,
) -> Result<Stmt<'a>, AllocError>
    ensures noted { OnOk result (notes_of notes.new ≡ noted (notes_of notes.old) (S.call_statement (scope_of scope.entry) (name_of name.now) (arguments_of arguments.now) place)) }
    ensures value { IfOk result (λ s. stmt_of s ≡ (S.call_statement (scope_of scope.entry) (name_of name.now) (arguments_of arguments.now) place).value) }
{
    let operands = match arguments_in(alloc, scope, notes, arguments)? {
        Some(operands) => operands,
        None => Vec::new(alloc),
    };
    let found = scope.tables.name_means(scope.block, name);
    called_found(alloc, notes, scope.tables, found, name, place, operands)
}
