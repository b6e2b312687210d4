// GOTO.

ghost use Rattle.std.specs.Prelude.{◌≡◌, false, slice_get, map};
ghost use Rattle.pli_language.specs.declared.fault.SourceKind.TheVariants.{Ambiguous};
ghost use Rattle.pli_typing.specs.Judging.{broken};
ghost use Rattle.pli_typing.specs.SingleStatements as S;
ghost use Rattle.pli_typing.specs.TypedStatementView.{stmt_of};
ghost use Rattle.pli_typing.specs.TypedTree as Y;
ghost use Rattle.pli_typing.specs.Variables.{declarations_at};
ghost use Rattle.pli_language.specs.View.{name_of, option_of};
ghost use Rattle.pli_operand.specs.Notes.{noted};
ghost use Rattle.pli_operand.specs.Shown.{notes_of};
ghost use Rattle.pli_variables.specs.Rows.{blocks_shown};
ghost use Rattle.pli_tree.specs.Shown.{context_of};

use crate::context::Context;
use pli_declare::scope::What;
use pli_language::expr::{Name, Place};
use pli_language::fault::SourceKind;
use pli_language::scope::{DeclarationAt, Found};
use pli_operand::notes::Notes;
use pli_typing::statement::Stmt;
use pli_variables::Tables;

/// The place of the label that is declared there, if one is.
fn label_at(tables: &Tables, at: DeclarationAt) -> Option<Place>
    ensures { result ≡ S.label_declared (slice_get (declarations_at (blocks_shown tables.now.scopes.now) at.block) at.index) }
{
    let block = tables.scopes.blocks.get(at.block)?;
    let declaration = block.names.declarations.get(at.index)?;
    match declaration.what {
        What::Label => Some(declaration.name.place),
        What::Variable(_) | What::Procedure(_) => None,
    }
}

/// A GOTO to what may be named here.
#[tactic(auto, using(pli_operand::proofs::Noting::noting), unfolding(pli_typing::specs::TypedStatementView::stmt_of))]
fn jump<'a>(
    notes: &mut Notes,
    context: &Context<'_, '_, 'a>,
    name: &'a Name,
    place: Place,
    block: usize,
    is_target: bool,
) -> Stmt<'a>
    ensures noted { notes_of notes.new ≡ noted (notes_of notes.old) (S.jump (context_of context.now) (name_of name.now) place block is_target) }
    ensures value { stmt_of result ≡ (S.jump (context_of context.now) (name_of name.now) place block is_target).value }
{
    if is_target {
        return Stmt::Goto {
            level: context.scope.tables.level_of_block(block),
            label: &name.letters,
            line: place.line,
        };
    }
    notes.broken(name.place, SourceKind::BadLabel);
    Stmt::Null { line: place.line }
}

/// A GOTO to a name that means two things.
#[tactic(auto, using(pli_operand::proofs::Noting::noting), unfolding(pli_typing::specs::TypedStatementView::stmt_of))]
fn ambiguous<'a>(notes: &mut Notes, name: &Name, place: Place) -> Stmt<'a>
    ensures noted { notes_of notes.new
        ≡ noted (notes_of notes.old) (broken name.now.place Ambiguous (Y.Null place.line)) }
    ensures value { stmt_of result ≡ Y.Null place.line }
{
    notes.broken(name.place, SourceKind::Ambiguous);
    Stmt::Null { line: place.line }
}

/// What the name means must be a label that can be named here.
pub fn goto_statement<'a>(
    notes: &mut Notes,
    context: &Context<'_, '_, 'a>,
    name: &'a Name,
    place: Place,
) -> Stmt<'a>
    ensures noted { notes_of notes.new ≡ noted (notes_of notes.old) (S.goto_statement (context_of context.now) (name_of name.now) place) }
    ensures value { stmt_of result ≡ (S.goto_statement (context_of context.now) (name_of name.now) place).value }
{
    let tables = context.scope.tables;
    match tables.name_means(context.scope.block, name) {
        Found::One(at) => {
            let is_target = match label_at(tables, at) {
                Some(label) => context.is_target(label),
                None => false,
            };
            jump(notes, context, name, place, at.block, is_target)
        }
        Found::None => jump(notes, context, name, place, 0, false),
        Found::Ambiguous => ambiguous(notes, name, place),
    }
}
