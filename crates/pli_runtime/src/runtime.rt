// What the services of a run keep between calls.

ghost use Rattle.std.specs.Prelude.{◌≡◌, ℕ, List, [], IfOk, IfErr, false, replicate};
ghost use Rattle.controlled_gens.specs.Rooted.{none_rooted};
ghost use Rattle.area_keeper.specs.Keeper.{Keeper};
ghost use Rattle.pli_meaning.specs.InputLines.{first_input};
ghost use Rattle.pli_serving.specs.ServiceState.{first_services};
ghost use Rattle.pli_storage.specs.Held.{IsLaid};
ghost use Rattle.rv_meaning.specs.Tables.{AreSignatures, TableSignature, table_words};
ghost use Rattle.pli_runtime.specs.Running.{running, world_told};
ghost use Rattle.pli_runtime.specs.Seen as seen;
ghost use Rattle.pli_runtime.specs.Seen.{fault_of, run_seen, CanServe};

use controlled_gens::controlled::Controlled;
use pli_edit::input::Input;
use pli_edit::input_stream::InputStream;
use pli_edit::output::Output;
use pli_edit::output_stream::OutputStream;
use pli_entries::entries::Entries;
use pli_language::condition::Condition;
use pli_making::in_use::InUse;
use pli_meaning::outcome::{End, Outcome};
use pli_services::flow::Flow;
use pli_services::shown::Shown;
use pli_signatures::signatures::Signatures;
use pli_storage::held::Held;
use pli_storage::variables::Variables;
use pli_transmission::streams::Streams;
use pli_values::layout::Layout;
use std::alloc::{AllocError, Global};

/// So many CONTROLLED variables have numbers.
const VARIABLES: u32 = 1 << 16;

/// The fault of a read that failed.
const READ: u8 = 4;

/// The fault of a write that failed.
const WRITE: u8 = 5;

/// What a run shows and the blocks that are entered; its variables, and what the AUTOMATIC ones count for; its input
/// and the places in format lists; and the entries of expressions.
#[derive(Drop)]
pub struct Runtime<I = Input, O = Output> {
    pub alloc: Global,
    pub flow: Flow<O>,
    pub held: Held,
    pub in_use: InUse,
    pub streams: Streams<I>,
    pub entries: Entries,
}

/// No variable lives yet, and nothing was placed in the heap.
fn first_held(alloc: Global, layout: Layout, signatures: Signatures) -> Result<Held, AllocError>
    ensures { IfOk result (λ h. (h.layout ≡ layout) × (h.signatures ≡ signatures) × (h.variables ≡ none_rooted)
        × (h.heap_made ≡ false) × (h.controlled ≡ replicate 65536 [])) }
{
    let Ok(controlled) = Controlled::new(alloc, VARIABLES) else {
        return Err(AllocError);
    };
    Ok(Held {
        layout,
        signatures,
        variables: Variables::new(alloc),
        heap_made: false,
        controlled,
    })
}

impl<I: InputStream, O: OutputStream> Runtime<I, O> {
    /// Before the first call, with the signatures of an image's table, whose words are those of signatures, and over an
    /// input and an output on which nothing is written. Without memory both come back.
    pub fn over(
        alloc: Global,
        layout: Layout,
        table: &[u32],
        input: I,
        output: O,
    ) -> Result<Runtime<I, O>, (I, O)>
        requires { O.output output ≡ [] }
        ensures services { (gs : List TableSignature) → AreSignatures gs → table.now ≡ table_words gs →
            IfOk result (λ r. (bytes : List ℕ) → seen.running (run_seen O.output r (first_input bytes))
            ≡ first_services gs bytes) }
        ensures layout { IfOk result (λ r. r.held.layout ≡ layout) }
        ensures standing { IfOk result (λ r. (k : Keeper) → (m : List ℕ) → IsLaid k layout m → CanServe k r m) }
        ensures streams { IfOk result (λ r. (r.streams.input ≡ input) × (r.flow.shown.output ≡ output)) }
        ensures back { IfErr result (λ b. (b.0 ≡ input) × (b.1 ≡ output)) }
    {
        let Ok(signatures) = Signatures::from_table(alloc, table) else {
            return Err((input, output));
        };
        let Ok(held) = first_held(alloc, layout, signatures) else {
            return Err((input, output));
        };
        Ok(Runtime {
            alloc,
            flow: Flow::new(alloc, output),
            held,
            in_use: InUse::new(alloc),
            streams: Streams::over(alloc, input),
            entries: Entries::new(alloc),
        })
    }

    /// How many acts were carried out.
    pub fn acts(&self) -> u64
        ensures { result ≡ self.now.flow.shown.acts }
    {
        self.flow.shown.acts
    }

    /// The conditions raised with their codes, in order.
    pub fn raised(&self) -> &[(Condition, u16)]
        ensures { result.now ≡ self.now.flow.shown.raised.items }
    {
        self.flow.shown.raised.as_slice()
    }

    /// How the run stands.
    pub fn end(&self) -> End
        ensures { result ≡ self.now.flow.shown.end }
    {
        self.flow.shown.end
    }

    /// The number of the fault of a stream, if one failed: 5 where a write failed, else 4 where a read failed.
    pub fn stream_fault(&self) -> Option<u8>
        ensures { result ≡ fault_of (I.has_failed self.now.streams.input) (O.has_failed self.now.flow.shown.output) }
    {
        if self.flow.shown.output.has_failed() {
            return Some(WRITE);
        }
        if self.streams.input.has_failed() {
            return Some(READ);
        }
        None
    }

    /// The input and the output.
    pub fn into_streams(self) -> (I, O)
        ensures { (result.0 ≡ self.streams.input) × (result.1 ≡ self.flow.shown.output) }
    {
        let Runtime { flow, streams, .. } = self;
        let Shown { output, .. } = flow.shown;
        (streams.into_input(), output)
    }

    /// What the run has come to, but for its output, which is empty; and the input and the output.
    pub fn into_parts(self) -> (Outcome, I, O)
        ensures outcome { seen.world_told result.0 ≡ record {
          acts = self.flow.shown.acts;
          output = [];
          raised = self.flow.shown.raised.items;
          end = self.flow.shown.end;
        } }
        ensures streams { (result.1 ≡ self.streams.input) × (result.2 ≡ self.flow.shown.output) }
    {
        let Runtime {
            alloc,
            flow,
            streams,
            ..
        } = self;
        let Shown {
            acts,
            output,
            raised,
            end,
        } = flow.shown;
        let outcome = Outcome {
            acts,
            output: Vec::new(alloc),
            raised,
            end,
        };
        (outcome, streams.into_input(), output)
    }
}

impl Runtime {
    /// Before the first call, with the signatures of an image's table, whose words are those of signatures, and with a
    /// whole input; without memory an `AllocError`.
    pub fn new(
        alloc: Global,
        layout: Layout,
        table: &[u32],
        input: &[u8],
    ) -> Result<Runtime, AllocError>
        ensures services { (gs : List TableSignature) → AreSignatures gs → table.now ≡ table_words gs →
            IfOk result (λ r. running r ≡ first_services gs input.now) }
        ensures layout { IfOk result (λ r. r.held.layout ≡ layout) }
        ensures standing { IfOk result (λ r. (k : Keeper) → (m : List ℕ) → IsLaid k layout m → CanServe k r m) }
    {
        let Ok(whole) = Input::new(alloc, input) else {
            return Err(AllocError);
        };
        match Runtime::over(alloc, layout, table, whole, Output::new(alloc)) {
            Ok(runtime) => Ok(runtime),
            Err(_) => Err(AllocError),
        }
    }

    /// The bytes written.
    pub fn output(&self) -> &[u8]
        ensures { result.now ≡ (running self.now).world.output }
    {
        self.flow.shown.output.bytes()
    }

    /// What the run has come to, its output copied; without memory an `AllocError`.
    pub fn into_outcome(self) -> Result<Outcome, AllocError>
        ensures { IfOk result (λ o. world_told o ≡ (running self).world) }
    {
        let output = Vec::from_slice(self.alloc, self.output())?;
        let Shown {
            acts,
            raised,
            end,
            ..
        } = self.flow.shown;
        Ok(Outcome {
            acts,
            output,
            raised,
            end,
        })
    }
}
