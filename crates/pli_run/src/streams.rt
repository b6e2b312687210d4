// Runs between a feed and a drain.

ghost use Rattle.std.specs.Prelude.{◌≡◌, ◌↔◌, ℕ, List, [], false, IfOk, IsErrOf};
ghost use Rattle.rv_meaning.specs.Machine.{IsValidBase};
ghost use Rattle.pli_meaning.specs.InputLines.{first_input};
ghost use Rattle.pli_runtime.specs.Seen.{fault_of};
ghost use Rattle.pli_run.specs.declared.run.RunFault as RunFault;
ghost use Rattle.pli_run.specs.Asking.{IsSilent};
ghost use Rattle.pli_run.specs.Running.{own_output, stream_fault_of, ShowsImage};
ghost use Rattle.pli_run.specs.Stopping.{came_to};
ghost use Rattle.pli_run.specs.Streaming.{IsStreamed};
ghost use Rattle.pli_run.specs.Tracing.{outcome_of, TracesImage};

use crate::run::{RunFault, Stop, Traced, by_step, stopped, unstarted};
use pli_activations::activations::Activations;
use pli_edit::drain::{Before, Drain};
use pli_edit::drain_output::DrainOutput;
use pli_edit::feed::Feed;
use pli_edit::feed_input::FeedInput;
use pli_edit::input_stream::InputStream;
use pli_edit::output_stream::OutputStream;
use pli_meaning::outcome::Outcome;
use rv_image::image::Image;
use rv_machine::base::valid_base;
use rv_machine::machine::Step;
use std::alloc::Global;
use std::marker::Brand;

/// The fault of a write that failed.
const WRITE: u8 = 5;

/// What a run has come to behind its last step, which a stream that failed has ended.
fn came_to(outcome: Outcome, fault: Option<u8>, last: Step) -> Result<Outcome, RunFault>
    ensures { result ≡ came_to outcome fault last }
{
    match fault {
        None => by_step(outcome, last),
        Some(number) if number == WRITE => Err(RunFault::Write {
            acts: outcome.acts,
            output: outcome.output,
        }),
        Some(_) => Err(RunFault::Read {
            acts: outcome.acts,
            output: outcome.output,
        }),
    }
}

/// The outcome with the blocks that are entered at its end.
fn traced(ran: Result<Outcome, RunFault>, entered: Activations) -> Result<Traced, RunFault>
    ensures { (outcome_of result ≡ ran) × IfOk result (λ t. t.entered ≡ entered) }
{
    match ran {
        Ok(outcome) => Ok(Traced { outcome, entered }),
        Err(fault) => Err(fault),
    }
}

/// Runs an image at a valid base between streams that haven't failed, for at most `bound` instructions.
fn between<I: InputStream, O: OutputStream>(
    alloc: Global,
    image: &Image,
    base: u32,
    input: I,
    output: O,
    bound: u64,
) -> (Result<Traced, RunFault>, I, O)
    requires valid { IsValidBase base }
    requires unwritten { O.output output ≡ [] }
    requires unfailed { (I.has_failed input ≡ false) × (O.has_failed output ≡ false) }
    ensures told { (bytes all : List ℕ) → I.input input all ≡ first_input bytes → I.agrees result.1 all →
        ShowsImage image.now base bytes bound (O.output result.2) (O.taken result.2) (outcome_of result.0)
        × TracesImage image.now base bytes bound result.0 }
    ensures follows { I.follows input result.1 }
    ensures unread { (bytes all : List ℕ) → I.input input all ≡ first_input bytes → I.agrees input all →
        IsSilent image.now base bytes bound → result.1 ≡ input }
    ensures faults { stream_fault_of (outcome_of result.0) ≡ fault_of (I.has_failed result.1) (O.has_failed result.2) }
    ensures based { ¬ IsErrOf (outcome_of result.0) RunFault.BadBase }
    ensures empty { own_output (outcome_of result.0) ≡ [] }
{
    match stopped(alloc, image, base, input, output, bound) {
        Ok(Stop { last, services }) => {
            let fault = services.stream_fault();
            let (outcome, entered, input, output) = services.into_parts();
            let ran = came_to(outcome, fault, last);
            (traced(ran, entered), input, output)
        }
        Err((input, output)) => (Err(unstarted(alloc)), input, output),
    }
}

/// The same at any base, between a feed and a drain that took just what `B` knows of.
fn streamed<F: Feed, D: Drain, B: Before>(
    alloc: Global,
    image: &Image,
    base: u32,
    feed: F,
    drain: D,
    bound: u64,
) -> (Result<Traced, RunFault>, F, D)
    requires { D.history drain ≡ B.before }
    ensures bad_base { IsErrOf (outcome_of result.0) RunFault.BadBase ↔ ¬ IsValidBase base }
    ensures untouched { ¬ IsValidBase base → (F.history result.1 ≡ F.history feed)
        × (D.history result.2 ≡ D.history drain) }
    ensures unread { IsValidBase base → (input : List ℕ) → IsSilent image.now base input bound →
        F.history result.1 ≡ F.history feed }
    ensures told { IsValidBase base → IsStreamed (F.history feed) B.before (outcome_of result.0)
        (F.history result.1) (D.history result.2)
        (λ input output taken. ShowsImage image.now base input bound output taken (outcome_of result.0)
        × TracesImage image.now base input bound result.0) }
    ensures empty { own_output (outcome_of result.0) ≡ [] }
{
    if !valid_base(base) {
        return (Err(RunFault::BadBase), feed, drain);
    }
    let input = FeedInput::new(alloc, feed);
    let output = DrainOutput::<D, B>::new(drain);
    let (ran, input, output) = between(alloc, image, base, input, output, bound);
    (ran, input.into_inner(), output.into_inner())
}

/// Runs an image at a base, on what a feed gives, for at most `bound` instructions. What is written goes to a drain
/// before the next act; the output of what comes back is empty. The blocks that are entered at an outcome come with it.
///
/// It answers `Read` where a read failed, or one more than 2^30 was wanted, and `Write` where a write failed or took
/// nothing; then the drain took a part of the output from its front, with all that was written before the last act, and
/// nothing was done behind that act. Else it answers what `run` does. A run that asks for no input makes no read, and
/// none is made behind one that gave nothing or failed.
pub fn run_traced<F: Feed, D: Drain>(
    alloc: Global,
    image: &Image,
    base: u32,
    feed: F,
    drain: D,
    bound: u64,
) -> (Result<Traced, RunFault>, F, D)
    ensures bad_base { IsErrOf (outcome_of result.0) RunFault.BadBase ↔ ¬ IsValidBase base }
    ensures untouched { ¬ IsValidBase base → (F.history result.1 ≡ F.history feed)
        × (D.history result.2 ≡ D.history drain) }
    ensures unread { IsValidBase base → (input : List ℕ) → IsSilent image.now base input bound →
        F.history result.1 ≡ F.history feed }
    ensures told { IsValidBase base → IsStreamed (F.history feed) (D.history drain) (outcome_of result.0)
        (F.history result.1) (D.history result.2)
        (λ input output taken. ShowsImage image.now base input bound output taken (outcome_of result.0)
        × TracesImage image.now base input bound result.0) }
    ensures empty { own_output (outcome_of result.0) ≡ [] }
{
    streamed::<F, D, Brand>(alloc, image, base, feed, drain, bound)
}

/// The outcome by itself.
fn untraced(ran: Result<Traced, RunFault>) -> Result<Outcome, RunFault>
    ensures { result ≡ outcome_of ran }
{
    match ran {
        Ok(traced) => Ok(traced.outcome),
        Err(fault) => Err(fault),
    }
}

/// Runs an image at a base, on what a feed gives, for at most `bound` instructions. It answers as `run_traced` does.
pub fn run_stream<F: Feed, D: Drain>(
    alloc: Global,
    image: &Image,
    base: u32,
    feed: F,
    drain: D,
    bound: u64,
) -> (Result<Outcome, RunFault>, F, D)
    ensures bad_base { IsErrOf result.0 RunFault.BadBase ↔ ¬ IsValidBase base }
    ensures untouched { ¬ IsValidBase base → (F.history result.1 ≡ F.history feed)
        × (D.history result.2 ≡ D.history drain) }
    ensures unread { IsValidBase base → (input : List ℕ) → IsSilent image.now base input bound →
        F.history result.1 ≡ F.history feed }
    ensures told { IsValidBase base → IsStreamed (F.history feed) (D.history drain) result.0
        (F.history result.1) (D.history result.2)
        (λ input output taken. ShowsImage image.now base input bound output taken result.0) }
    ensures empty { own_output result.0 ≡ [] }
{
    let (ran, feed, drain) = run_traced(alloc, image, base, feed, drain, bound);
    (untraced(ran), feed, drain)
}
