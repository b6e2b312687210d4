// A whole program.

ghost use Rattle.std.specs.Prelude.{◌≡◌, ◌⊎◌, map, IfErr, IfOk};
ghost use Rattle.pli_language.specs.Declarations.{blocks_of};
ghost use Rattle.pli_language.specs.Refusals.{least, want_of_memory};
ghost use Rattle.pli_typing.specs.Resolving as Z;
ghost use Rattle.pli_typing.specs.TypedStatementView.{program_of};
ghost use Rattle.pli_language.specs.View.{tree_of};
ghost use Rattle.pli_declare.specs.ShownBlocks.{block_of};
ghost use Rattle.pli_variables.specs.Rows.{blocks_shown};
ghost use Rattle.pli_tree.specs.Shown.{context_of};

use crate::block::block_variables;
use crate::context::Context;
use crate::statement::statements;
use crate::walked::Walked;
use pli_declare::Scopes;
use pli_language::fault::{SourceFault, SourceKind};
use pli_language::stmt::Tree;
use pli_reference::scope::Scope;
use pli_typing::statement::Typed;
use pli_variables::Tables;
use std::alloc::{AllocError, Global};

const OUT_OF_MEMORY: SourceFault = SourceFault {
    line: 0,
    column: 0,
    kind: SourceKind::Memory,
};

/// A typed tree with the least rule that its program breaks.
#[derive(Drop)]
struct Judged<'a> {
    typed: Typed<'a>,
    found: Option<SourceFault>,
}

/// Where the outer procedures of a program stand.
fn outermost<'t, 's, 'a>(
    alloc: Global,
    tables: &'t Tables<'s, 'a>,
) -> Result<Context<'t, 's, 'a>, AllocError>
    ensures { IfOk result (λ c. context_of c ≡ Z.outermost_context (blocks_shown tables.now.scopes.now)) }
{
    let mut around = Vec::new(alloc);
    around.push(0)?;
    Ok(Context {
        scope: Scope { tables, block: 0 },
        around,
        outermost: Vec::new(alloc),
        inner: Vec::new(alloc),
        outer: Vec::new(alloc),
    })
}

/// The typed tree of a program by its tables, whatever it breaks.
#[tactic(auto, using(crate::proofs::Blocks::faults_are, crate::proofs::Blocks::typed_is))]
fn by_tables<'a>(
    alloc: Global,
    tree: &'a Tree,
    tables: &Tables<'_, 'a>,
) -> Result<Judged<'a>, AllocError>
    requires { blocks_shown tables.now.scopes.now ≡ blocks_of (tree_of tree.now) }
    ensures typed { IfOk result (λ j. program_of j.typed ≡ Z.typed_tree (tree_of tree.now)) }
    ensures found { IfOk result (λ j. j.found ≡ least (Z.typing_faults (tree_of tree.now))) }
{
    let context = outermost(alloc, tables)?;
    let mut walked = Walked::from(alloc, 1);
    statements(alloc, &context, &mut walked, &tree.procedures)?;
    let Walked {
        mut found,
        procedures,
        ..
    } = walked;
    let variables = block_variables(alloc, tables, &mut found)?;
    Ok(Judged {
        typed: Typed {
            variables,
            procedures,
        },
        found,
    })
}

/// The typed tree of a program, whatever it breaks.
fn resolved<'a>(
    alloc: Global,
    tree: &'a Tree,
    scopes: &Scopes<'a>,
) -> Result<Judged<'a>, AllocError>
    requires { map block_of scopes.now.blocks.items ≡ blocks_of (tree_of tree.now) }
    ensures typed { IfOk result (λ j. program_of j.typed ≡ Z.typed_tree (tree_of tree.now)) }
    ensures found { IfOk result (λ j. j.found ≡ least (Z.typing_faults (tree_of tree.now))) }
{
    let tables = Tables::new(alloc, scopes)?;
    by_tables(alloc, tree, &tables)
}

/// The typed tree of a program, by the scopes of its blocks.
///
/// # Errors
///
/// The least of the rules of typing that the program breaks, by line, column and number; `Memory` at 0:0 where memory ran
/// out.
pub fn resolve<'a>(
    alloc: Global,
    tree: &'a Tree,
    scopes: &Scopes<'a>,
) -> Result<Typed<'a>, SourceFault>
    requires { map block_of scopes.now.blocks.items ≡ blocks_of (tree_of tree.now) }
    // A program that keeps the rules has its typed tree.
    ensures typed { IfOk result (λ t. Z.Resolves (tree_of tree.now) (program_of t)) }
    // A refusal is the least of what the program breaks.
    ensures refused { IfErr result (λ f. (f ≡ want_of_memory) ⊎ Z.IsMistyped (tree_of tree.now) f) }
{
    let Ok(judged) = resolved(alloc, tree, scopes) else {
        return Err(OUT_OF_MEMORY);
    };
    let Judged { typed, found } = judged;
    match found {
        Some(fault) => Err(fault),
        None => Ok(typed),
    }
}
