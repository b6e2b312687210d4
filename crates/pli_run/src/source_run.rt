// From a source to what a run of it comes to.

ghost use Rattle.std.specs.Prelude.{◌≡◌, ◌↔◌, ℕ, List, [], IsErrOf};
ghost use Rattle.rv_meaning.specs.Machine.{IsValidBase};
ghost use Rattle.pli_run.specs.declared.run.RunFault as RunFault;
ghost use Rattle.pli_run.specs.Asking.{IsSilentSource};
ghost use Rattle.pli_run.specs.Running.{own_output};
ghost use Rattle.pli_run.specs.Answering.{Answers, AnswersWith, IsUncompiledFor};
ghost use Rattle.pli_run.specs.Streaming.{IsStreamed};
ghost use Rattle.pli_run.specs.Tracing.{outcome_of, TracesSource};

use crate::run::{RunFault, Traced, run};
use crate::streams::run_traced;
use cut_runs::laws::accepted_cut_runs_meant;
use pli_compile::compile::compile;
use pli_edit::drain::Drain;
use pli_edit::feed::Feed;
use pli_language::fault::{SourceFault, SourceKind};
use pli_meaning::outcome::Outcome;
use rv_machine::base::valid_base;
use std::alloc::Global;

/// What comes of a source without an image: want of memory, with nothing done, or its refusal.
fn uncompiled(alloc: Global, fault: SourceFault) -> RunFault
    ensures { IsUncompiledFor fault result }
{
    match fault.kind {
        SourceKind::Memory => RunFault::Memory {
            acts: 0,
            output: Vec::new(alloc),
        },
        _ => RunFault::Source(fault),
    }
}

/// Compiles a source and runs it at a base, on an input, for at most `bound` instructions. What it answers is what the
/// code that the definitions have for the program comes to. Where the headline is proved for the program, that shows
/// the program's own output, raised conditions and end after just the acts that it reports.
///
/// # Errors
///
/// `BadBase` before all, where the base isn't a multiple of 4,096 with 16 MiB of addresses from it on. `Source` where
/// the source is refused. `Memory` where memory ran out, with the acts and the output up to there: none, where it ran
/// out before the run. With that output begins all that the run shows with more instructions; and where the headline is
/// proved, all that the program means at as many acts or more.
pub fn compile_and_run(
    alloc: Global,
    source: &[u8],
    base: u32,
    input: &[u8],
    bound: u64,
) -> Result<Outcome, RunFault>
    ensures bad_base { IsErrOf result RunFault.BadBase ↔ ¬ IsValidBase base }
    ensures meant { IsValidBase base → Answers source.now input.now base bound result }
{
    accepted_cut_runs_meant();
    if !valid_base(base) {
        return Err(RunFault::BadBase);
    }
    match compile(alloc, source) {
        Ok(image) => run(alloc, &image, base, input, bound),
        Err(fault) => Err(uncompiled(alloc, fault)),
    }
}

/// Compiles a source and runs it at a base, on what a feed gives, for at most `bound` instructions. It answers what
/// `compile_and_run` does, or `Read` or `Write` where a stream fails, as `run_traced` does; a source that is refused,
/// and one whose run asks for no input, makes no read.
///
/// # Errors
///
/// Those of `compile_and_run` and of `run_traced`.
pub fn compile_and_stream<F: Feed, D: Drain>(
    alloc: Global,
    source: &[u8],
    base: u32,
    feed: F,
    drain: D,
    bound: u64,
) -> (Result<Traced, RunFault>, F, D)
    ensures bad_base { IsErrOf (outcome_of result.0) RunFault.BadBase ↔ ¬ IsValidBase base }
    ensures untouched { ¬ IsValidBase base → (F.history result.1 ≡ F.history feed)
        × (D.history result.2 ≡ D.history drain) }
    ensures meant { IsValidBase base → IsStreamed (F.history feed) (D.history drain) (outcome_of result.0)
        (F.history result.1) (D.history result.2)
        (λ input output taken. AnswersWith source.now input base bound output taken (outcome_of result.0)
        × TracesSource source.now input base bound result.0) }
    ensures unread { IsValidBase base → (input : List ℕ) → IsSilentSource source.now base input bound →
        F.history result.1 ≡ F.history feed }
    ensures empty { own_output (outcome_of result.0) ≡ [] }
{
    accepted_cut_runs_meant();
    if valid_base(base) {
        return match compile(alloc, source) {
            Ok(image) => run_traced(alloc, &image, base, feed, drain, bound),
            Err(fault) => (Err(uncompiled(alloc, fault)), feed, drain),
        };
    }
    (Err(RunFault::BadBase), feed, drain)
}
