// Where declared names are used.

ghost use Rattle.std.specs.Prelude.{◌≡◌, ◌++◌, map, IfOk};
ghost use Rattle.std.specs.List.{flat_map};
ghost use Rattle.pli_language.specs.Means.{names_mean};
ghost use Rattle.pli_declare.specs.Among.{letters_of};
ghost use Rattle.pli_declare.specs.ShownBlocks.{block_of};
ghost use Rattle.pli_listing.specs.Mentions.{mention_of};
ghost use Rattle.pli_listing.specs.Uses.{lines_of, same_declaration, used};

use crate::mention::Mention;
use pli_declare::Scopes;
use pli_language::scope::{DeclarationAt, Found};
use std::alloc::{AllocError, Global};

/// A use of what is declared, with the line of the name.
#[derive(Clone, Copy, PartialEq, Eq, Debug)]
pub struct Use {
    pub declaration: DeclarationAt,
    pub line: u32,
}

/// The uses that names are, in order. Names that mean nothing, such as those of built-in functions, are none.
#[tactic(auto, using(crate::proofs::Gathered::gathered))]
pub fn uses(
    alloc: Global,
    scopes: &Scopes<'_>,
    mentions: &[Mention<'_>],
) -> Result<Vec<Use>, AllocError>
    ensures { IfOk result (λ v. v.items ≡
        flat_map (used (map block_of scopes.now.blocks.items)) (map mention_of mentions.now)) }
{
    let mut uses = Vec::new(alloc);
    for mention in mentions {
        match scopes.find(mention.block, &mention.names) {
            Found::One(declaration) => uses.push(Use {
                declaration,
                line: mention.line,
            })?,
            Found::None => {}
            Found::Ambiguous => {}
        }
    }
    Ok(uses)
}

fn same_declaration(one: DeclarationAt, other: DeclarationAt) -> bool
    ensures { result ≡ same_declaration one other }
{
    one.block == other.block && one.index == other.index
}

/// The lines of the uses of a declaration, each once where it follows itself.
#[tactic(auto, using(crate::proofs::Gathered::gathered))]
pub fn lines_of(
    alloc: Global,
    uses: &[Use],
    declaration: DeclarationAt,
) -> Result<Vec<u32>, AllocError>
    ensures { IfOk result (λ v. v.items ≡ lines_of declaration 0 uses.now) }
{
    let mut lines = Vec::new(alloc);
    // (lines are counted from 1)
    let mut last = 0;
    for used in uses {
        if same_declaration(used.declaration, declaration) && used.line != last {
            lines.push(used.line)?;
            last = used.line;
        }
    }
    Ok(lines)
}
