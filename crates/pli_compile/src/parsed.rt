// A source as far as its tree.

ghost use Rattle.std.specs.Prelude.{MatchResult};
ghost use Rattle.pli_language.specs.View.{tree_of};
ghost use Rattle.pli_compile.specs.Compiling.{IsParsed, IsRefused};

use pli_language::fault::SourceFault;
use pli_language::stmt::Tree;
use pli_lex::tokens;
use pli_parse::parse;
use std::alloc::Global;

/// The tree of a source, and how many tokens spell it.
#[derive(Drop)]
pub(crate) struct Parsed {
    pub tokens: usize,
    pub tree: Tree,
}

/// The tree of a source.
///
/// # Errors
///
/// The refusals of `tokens`, then those of `parse`.
pub(crate) fn parse_source(alloc: Global, source: &[u8]) -> Result<Parsed, SourceFault>
    ensures { MatchResult result (λ p. IsParsed source.now p.tokens (tree_of p.tree)) (λ f. IsRefused source.now f) }
{
    let tokens = tokens(alloc, source)?;
    let tree = parse(alloc, source, &tokens)?;
    Ok(Parsed {
        tokens: tokens.len(),
        tree,
    })
}
