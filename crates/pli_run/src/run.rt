// Runs of images.

ghost use Rattle.std.specs.Prelude.{◌≡◌, ◌↔◌, List, [], IfErr, IfOk, IsErrOf};
ghost use Rattle.rv_meaning.specs.Machine.{IsValidBase};
ghost use Rattle.rv_meaning.specs.Tables.{TableSignature};
ghost use Rattle.pli_meaning.specs.Pictures.{Picture};
ghost use Rattle.image_runs.specs.Runs.{run_of};
ghost use Rattle.pli_run.specs.Running.{number_of, IsUnstarted, IsPicture, IsTabled, Tells};
ghost use Rattle.pli_run.specs.Stopping.{by_step, IsStopped};

use pli_activations::activations::Activations;
use pli_edit::input::Input;
use pli_edit::input_stream::InputStream;
use pli_edit::output::Output;
use pli_edit::output_stream::OutputStream;
use pli_environment::environment::Environment;
use pli_language::fault::SourceFault;
use pli_meaning::outcome::Outcome;
use rv_image::image::Image;
use rv_machine::base::valid_base;
use rv_machine::machine::{Machine, Step};
use rv_meaning::instr::Fault;
use std::alloc::Global;
use thiserror::Error;

/// Why a source or an image came to no outcome, by its number. Acts and output are those up to there. Where a write
/// failed, the act whose bytes were being written is counted.
#[derive(Debug, Drop, Error)]
pub enum RunFault {
    #[error("MEMORY")]
    Memory {
        acts: u64,
        output: Vec<u8>,
    },
    #[error("BASE")]
    BadBase,
    #[error("{0}")]
    Source(SourceFault),
    #[error("READ")]
    Read {
        acts: u64,
        output: Vec<u8>,
    },
    #[error("WRITE")]
    Write {
        acts: u64,
        output: Vec<u8>,
    },
    #[error("MACHINE {number} {fault:?}", number = *fault as u8)]
    Machine {
        fault: Fault,
        acts: u64,
        output: Vec<u8>,
    },
}

/// An outcome, with the blocks that are entered at its end.
#[derive(Drop)]
pub struct Traced {
    pub outcome: Outcome,
    pub entered: Activations,
}

/// Services behind the last step of their machine.
pub(crate) struct Stop<I: InputStream, O: OutputStream> {
    pub last: Step,
    pub services: Environment<I, O>,
}

impl RunFault {
    /// Its number, which is not that of a machine's fault or of a refusal inside it.
    pub fn number(&self) -> u8
        ensures { result ≡ number_of self.now }
    {
        match self {
            RunFault::Memory { .. } => 1,
            RunFault::BadBase => 2,
            RunFault::Source(_) => 3,
            RunFault::Read { .. } => 4,
            RunFault::Write { .. } => 5,
            RunFault::Machine { .. } => 6,
        }
    }
}

/// Runs an image at a base, on an input, for at most `bound` instructions.
///
/// It answers `BadBase` where the base isn't a multiple of 4,096 with 16 MiB of addresses from it on, `Machine` where
/// an instruction can't be carried out, and `Memory` where there is none for the machine or its services.
pub fn run(
    alloc: Global,
    image: &Image,
    base: u32,
    input: &[u8],
    bound: u64,
) -> Result<Outcome, RunFault>
    ensures bad_base { IsErrOf result RunFault.BadBase ↔ ¬ IsValidBase base }
    ensures told { IsValidBase base → (p : Picture) (gs : List TableSignature) → IsPicture p image.now →
        IsTabled gs image.now → Tells (run_of p gs base input.now) bound result }
{
    if !valid_base(base) {
        return Err(RunFault::BadBase);
    }
    let Ok(whole) = Input::new(alloc, input) else {
        return Err(unstarted(alloc));
    };
    let output = Output::new(alloc);
    let Ok(Stop { last, services }) = stopped(alloc, image, base, whole, output, bound) else {
        return Err(unstarted(alloc));
    };
    let Ok(outcome) = services.into_outcome() else {
        return Err(unstarted(alloc));
    };
    by_step(outcome, last)
}

/// Runs an image at a valid base between streams that haven't failed, for at most `bound` instructions. Without memory
/// to begin both come back.
pub(crate) fn stopped<I: InputStream, O: OutputStream>(
    alloc: Global,
    image: &Image,
    base: u32,
    input: I,
    output: O,
    bound: u64,
) -> Result<Stop<I, O>, (I, O)>
    requires valid { IsValidBase base }
    requires unwritten { O.output output ≡ [] }
    ensures stopped { IfOk result (λ stop. IsStopped (record {
      agrees = I.agrees;
      input = I.input;
      follows = I.follows;
      read_failed = I.has_failed;
      output = O.output;
      taken = O.taken;
      grows = O.grows;
      write_failed = O.has_failed;
    }) image.now base input output bound stop.last stop.services) }
    ensures back { IfErr result (λ b. (b.0 ≡ input) × (b.1 ≡ output)) }
{
    let code_bytes = 4 * image.code().len() as u32;
    let mut services = Environment::over(alloc, code_bytes, image.table(), input, output)?;
    match Machine::new(alloc, image, base) {
        Ok(mut machine) => {
            let last = machine.run_for(&mut services, bound).last;
            Ok(Stop { last, services })
        }
        Err(_) => {
            let (_, _, input, output) = services.into_parts();
            Err((input, output))
        }
    }
}

/// What a run has come to behind its last step.
pub(crate) fn by_step(outcome: Outcome, last: Step) -> Result<Outcome, RunFault>
    ensures { result ≡ by_step outcome last }
{
    match last {
        Step::Ran | Step::Ended => Ok(outcome),
        Step::Fault(fault) => Err(RunFault::Machine {
            fault,
            acts: outcome.acts,
            output: outcome.output,
        }),
        Step::Refused => Err(RunFault::Memory {
            acts: outcome.acts,
            output: outcome.output,
        }),
    }
}

/// No memory to start.
pub(crate) fn unstarted(alloc: Global) -> RunFault
    ensures { IsUnstarted result }
{
    RunFault::Memory {
        acts: 0,
        output: Vec::new(alloc),
    }
}
