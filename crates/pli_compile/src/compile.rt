// From a source to its image.

ghost use Rattle.std.specs.Prelude.{◌≡◌, ◌⊎◌, ◌≤◌, ◌↔◌, IsTrue, length, map, MatchResult};
ghost use Rattle.rv_meaning.specs.Images.{IsLoadable};
ghost use Rattle.pli_language.specs.Declarations.{blocks_of};
ghost use Rattle.pli_language.specs.Refusals.{want_of_memory};
ghost use Rattle.pli_language.specs.View.{tree_of};
ghost use Rattle.pli_typing.specs.Resolving.{IsMistyped};
ghost use Rattle.pli_typing.specs.TypedStatementView.{program_of};
ghost use Rattle.pli_declare.specs.ShownBlocks.{block_of};
ghost use Rattle.rv_program.specs.Generated.{IsCodeOf};
ghost use Rattle.pli_compile.specs.Compiling.{most_words, IsImageFor, IsRefused, IsTreeCoded};

use crate::parsed::parse_source;
use number_headlines::laws::number_headlines_kept;
use pli_declare::Scopes;
use pli_declaring::declare;
use pli_headline::first_path::first_path_proved;
use pli_headline::laws::headline_so_far;
use pli_language::fault::{SourceFault, SourceKind};
use pli_language::stmt::Tree;
use pli_tree::resolve;
use pli_typing::statement::Typed;
use rv_image::image::Image;
use rv_program::generate::generate;
use small_frames::laws::accepted_small;
use std::alloc::Global;
use unit_numbers::laws::unit_number_headlines_kept;
use well_formed_trees::laws::accepted_well_formed;

pub(crate) const OUT_OF_MEMORY: SourceFault = SourceFault {
    line: 0,
    column: 0,
    kind: SourceKind::Memory,
};

/// That a machine loads each image: calling it does nothing.
fn loads(image: &Image)
    ensures { IsLoadable image.now }
{
    let _ = image.code();
}

/// Whether an image has no more words of code than so many tokens allow.
fn is_short(image: &Image, tokens: usize) -> bool
    ensures { IsTrue result ↔ (length image.now.code ≤ most_words tokens) }
{
    let most = tokens.saturating_mul(104).saturating_add(4000);
    image.code().len() <= most
}

/// An image that is short for so many tokens. Another one is want of memory: names that share a long extent have such.
fn short(image: Image, tokens: usize) -> Result<Image, SourceFault>
    ensures { MatchResult result (λ i. (i ≡ image) × (length i.code ≤ most_words tokens)) (λ f. (f ≡ want_of_memory) × ¬ (length image.code ≤ most_words tokens)) }
{
    if is_short(&image, tokens) {
        Ok(image)
    } else {
        Err(OUT_OF_MEMORY)
    }
}

/// The image of the code of a typed program.
fn coded(alloc: Global, typed: &Typed) -> Result<Image, SourceFault>
    ensures { MatchResult result (λ image. IsCodeOf (program_of typed.now) image) (λ f. f ≡ want_of_memory) }
{
    match generate(alloc, typed) {
        Ok(image) => Ok(image),
        Err(_) => Err(OUT_OF_MEMORY),
    }
}

/// The image of a tree whose declarations break no rule.
fn tree_coded<'a>(alloc: Global, tree: &'a Tree, scopes: &Scopes<'a>) -> Result<Image, SourceFault>
    requires { map block_of scopes.now.blocks.items ≡ blocks_of (tree_of tree.now) }
    ensures { MatchResult result (λ image. IsTreeCoded (tree_of tree.now) image) (λ f. (f ≡ want_of_memory) ⊎ IsMistyped (tree_of tree.now) f) }
{
    let typed = resolve(alloc, tree, scopes)?;
    let image = coded(alloc, &typed)?;
    loads(&image);
    Ok(image)
}

/// The image of a source.
///
/// # Errors
///
/// The refusals of `tokens`, then those of `parse`, then those of `declare`, then those of `resolve`, each the least of its
/// phase. `Memory` at 0:0 where memory ran out.
pub fn compile(alloc: Global, source: &[u8]) -> Result<Image, SourceFault>
    ensures { MatchResult result (λ image. IsImageFor source.now image) (λ fault. IsRefused source.now fault) }
{
    headline_so_far();
    number_headlines_kept();
    unit_number_headlines_kept();
    accepted_well_formed();
    first_path_proved();
    accepted_small();
    let parsed = parse_source(alloc, source)?;
    let scopes = declare(alloc, &parsed.tree)?;
    let coded = tree_coded(alloc, &parsed.tree, &scopes)?;
    let image = short(coded, parsed.tokens)?;
    Ok(image)
}
