// Images between a source, a file, a run and a list.

ghost use Rattle.std.specs.Prelude.{◌≡◌, IfOk, MatchResult};
ghost use Rattle.pli_compile.specs.Compiling.{IsRefused};
ghost use Rattle.pli_run.specs.Filing.{IsCompiledTo, IsRunBetween, IsRunBetweenFor, IsRunFor, IsRunOf};
ghost use Rattle.rv_image.specs.Headers.{IsFaultOf};

use crate::run::{RunFault, Traced, run};
use crate::streams::run_traced;
use cut_runs::laws::accepted_cut_runs_meant;
use pli_compile::compile::compile;
use pli_edit::drain::Drain;
use pli_edit::feed::Feed;
use pli_language::fault::{SourceFault, SourceKind};
use pli_meaning::outcome::Outcome;
use rv_image::image::Image;
use rv_meaning::image::ImageFault;
use std::alloc::Global;

/// The bytes of a source's image.
///
/// # Errors
///
/// The refusals of `compile`, and `Memory` at 0:0 where there is none for the bytes.
pub fn compiled_bytes(alloc: Global, source: &[u8]) -> Result<Vec<u8>, SourceFault>
    ensures { MatchResult result (λ bytes. IsCompiledTo source.now bytes.items) (λ fault. IsRefused source.now fault) }
{
    let image = compile(alloc, source)?;
    match image.to_bytes() {
        Ok(bytes) => Ok(bytes),
        Err(_) => Err(SourceFault {
            line: 0,
            column: 0,
            kind: SourceKind::Memory,
        }),
    }
}

/// Runs the image that has these bytes, at a base, on an input, for at most `bound` instructions. Where the bytes are
/// those of a source's image, it answers what `compile_and_run` may answer for the source.
///
/// # Errors
///
/// Of the rules that the bytes break, the one of the least number; `Memory` where they are an image's and there is no
/// memory for it. What a run of it comes to stands inside.
pub fn run_bytes(
    alloc: Global,
    bytes: &[u8],
    base: u32,
    input: &[u8],
    bound: u64,
) -> Result<Result<Outcome, RunFault>, ImageFault>
    ensures ran { MatchResult result (λ ran. IsRunOf bytes.now input.now base bound ran)
        (λ fault. IsFaultOf bytes.now fault) }
    ensures meant { IfOk result (λ ran. IsRunFor bytes.now input.now base bound ran) }
{
    accepted_cut_runs_meant();
    let image = Image::from_bytes(alloc, bytes)?;
    Ok(run(alloc, &image, base, input, bound))
}

/// Runs the image that has these bytes, at a base, on what a feed gives, for at most `bound` instructions. Where the
/// bytes are those of a source's image, it answers what `compile_and_stream` may answer for the source.
///
/// # Errors
///
/// Those of `run_bytes`; then no call of the feed or the drain is made. What a run comes to stands inside.
pub fn stream_bytes<F: Feed, D: Drain>(
    alloc: Global,
    bytes: &[u8],
    base: u32,
    feed: F,
    drain: D,
    bound: u64,
) -> (Result<Result<Traced, RunFault>, ImageFault>, F, D)
    ensures ran { MatchResult result.0
        (λ ran. IsRunBetween bytes.now base bound (F.history feed) (D.history drain) ran (F.history result.1)
        (D.history result.2))
        (λ fault. IsFaultOf bytes.now fault × (F.history result.1 ≡ F.history feed)
        × (D.history result.2 ≡ D.history drain)) }
    ensures meant { IfOk result.0 (λ ran. IsRunBetweenFor bytes.now base bound (F.history feed) (D.history drain) ran
        (F.history result.1) (D.history result.2)) }
{
    accepted_cut_runs_meant();
    match Image::from_bytes(alloc, bytes) {
        Ok(image) => {
            let (ran, feed, drain) = run_traced(alloc, &image, base, feed, drain, bound);
            (Ok(ran), feed, drain)
        }
        Err(fault) => (Err(fault), feed, drain),
    }
}
