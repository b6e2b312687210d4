// The tree of a source's tokens.
#![tactic(auto)]

mod end;
mod labels;
mod least;
mod parentheses;
mod source;
mod turn;

ghost use Rattle.std.specs.Prelude.{◌≢◌, IfErr, IfOk};
ghost use Rattle.pli_language.specs.Parsing.{RefusesTokens, Spells};
ghost use Rattle.pli_language.specs.Tokens.{Tokens};
ghost use Rattle.pli_language.specs.View.{tree_of};
ghost use Rattle.pli_parse.specs.Answers.{out_of_memory};

use crate::source::tree;
use pli_language::fault::{SourceFault, SourceKind};
use pli_language::stmt::Tree;
use pli_language::token::Token;
use std::alloc::Global;

const OUT_OF_MEMORY: SourceFault = SourceFault {
    line: 0,
    column: 0,
    kind: SourceKind::Memory,
};

/// The tree of a source's tokens.
///
/// # Errors
///
/// The least of the rules that the tokens break, as far as heads are spelled and may stand where they stand. `Memory` at
/// 0:0 where memory ran out.
#[tactic(auto, using(crate::proofs::Found::answer_spells, crate::proofs::Found::answer_refuses))]
pub fn parse(alloc: Global, source: &[u8], tokens: &[Token]) -> Result<Tree, SourceFault>
    requires { Tokens source.now tokens.now }
    // The tokens spell the tree and break no rule.
    ensures spelled { IfOk result (λ tree. Spells source.now tokens.now (tree_of tree)) }
    // Unless memory ran out, the tokens spell no tree, and this is the least of the rules that they break.
    ensures refused { IfErr result (λ f. f ≢ out_of_memory → RefusesTokens source.now tokens.now f) }
{
    match tree(alloc, source, tokens) {
        Ok(answer) => answer,
        Err(_) => Err(OUT_OF_MEMORY),
    }
}
