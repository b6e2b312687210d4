// The execution environment of an image: the services that its code calls.

ghost use Rattle.std.specs.Prelude.{◌≡◌, ℕ, List, [], IfErr, IfOk, slice_index};
ghost use Rattle.rv_meaning.specs.Machine.{written};
ghost use Rattle.rv_meaning.specs.Tables.{AreSignatures, TableSignature, table_words};
ghost use Rattle.pli_meaning.specs.InputLines.{first_input};
ghost use Rattle.pli_serving.specs.ServiceState.{first_services};
ghost use Rattle.pli_environment.specs.Places.{image_layout};
ghost use Rattle.pli_environment.specs.Replies.{Tells};
ghost use Rattle.pli_runtime.specs.Running.{running, world_told};
ghost use Rattle.pli_runtime.specs.Seen as seen;
ghost use Rattle.pli_runtime.specs.Seen.{fault_of, run_seen};

use granule_heap::granules::Granules;
use pli_activations::activations::Activations;
use pli_answering::reply::{Refusal, Reply};
use pli_edit::input::Input;
use pli_edit::input_stream::InputStream;
use pli_edit::output::Output;
use pli_edit::output_stream::OutputStream;
use pli_language::condition::Condition;
use pli_meaning::outcome::{End, Outcome};
use pli_runtime::runtime::Runtime;
use pli_values::layout::Layout;
use raw_storage::storage::Storage;
use rv_machine::services::{Served, Services};
use std::alloc::{AllocError, Global};
use std::marker::Model;

/// Where the heap begins in an image's memory, behind the static part and the stacks.
const HEAP_AT: u32 = 14 << 20;

/// What the heap holds as an area.
const HEAP_CAPACITY: u32 = 1 << 20;

/// The bytes of an image's memory.
const MEMORY_SIZE: u32 = 16 << 20;

/// All 41 services over one run's state, with the areas by granules, over any input and output. Contracts see that
/// state.
#[derive(Drop)]
pub struct Environment<I: InputStream = Input, O: OutputStream = Output> {
    runtime: Runtime<I, O>,
}

impl<I: InputStream, O: OutputStream> Model for Environment<I, O> {
    ghost use Rattle.pli_runtime.specs.declared.runtime.Runtime.{Runtime};
    ghost use Rattle.pli_environment.specs.Places.{IsReady};

    ghost Value = { Runtime I O };

    ghost view = { λ e. e.runtime };

    ghost invariant = { λ e. IsReady e.runtime };
}

/// Where the parts of an image's memory lie, by how many bytes of code it has.
fn layout_of_image(code_bytes: u32) -> Layout
    ensures { result ≡ image_layout code_bytes }
{
    Layout {
        code_bytes,
        heap_at: HEAP_AT,
        heap_capacity: HEAP_CAPACITY,
        end: MEMORY_SIZE,
    }
}

impl<I: InputStream, O: OutputStream> Environment<I, O> {
    /// Before the first call of an image with so many bytes of code, whose table's words are those of signatures, over
    /// an input and an output on which nothing is written. Without memory both come back.
    pub fn over(
        alloc: Global,
        code_bytes: u32,
        table: &[u32],
        input: I,
        output: O,
    ) -> Result<Environment<I, O>, (I, O)>
        requires { O.output output ≡ [] }
        ensures services { (gs : List TableSignature) → AreSignatures gs → table.now ≡ table_words gs →
            IfOk result (λ e. (bytes : List ℕ) → seen.running (run_seen O.output e (first_input bytes))
            ≡ first_services gs bytes) }
        ensures layout { IfOk result (λ e. e.held.layout ≡ image_layout code_bytes) }
        ensures streams { IfOk result (λ e. (e.streams.input ≡ input) × (e.flow.shown.output ≡ output)) }
        ensures back { IfErr result (λ b. (b.0 ≡ input) × (b.1 ≡ output)) }
    {
        let runtime = Runtime::over(alloc, layout_of_image(code_bytes), table, input, output)?;
        Ok(Environment { runtime })
    }

    /// How many acts were carried out.
    pub fn acts(&self) -> u64
        ensures { result ≡ self.now.flow.shown.acts }
    {
        self.runtime.acts()
    }

    /// The conditions raised with their codes, in order.
    pub fn raised(&self) -> &[(Condition, u16)]
        ensures { result.now ≡ self.now.flow.shown.raised.items }
    {
        self.runtime.raised()
    }

    /// How the run stands.
    pub fn end(&self) -> End
        ensures { result ≡ self.now.flow.shown.end }
    {
        self.runtime.end()
    }

    /// The number of the fault of a stream, if one failed: 5 where a write failed, else 4 where a read failed.
    pub fn stream_fault(&self) -> Option<u8>
        ensures { result ≡ fault_of (I.has_failed self.now.streams.input) (O.has_failed self.now.flow.shown.output) }
    {
        self.runtime.stream_fault()
    }

    /// What the run has come to, but for its output, which is empty; the blocks that are entered; and the input and the
    /// output.
    pub fn into_parts(self) -> (Outcome, Activations, I, O)
        ensures outcome { seen.world_told result.0 ≡ record {
          acts = self.flow.shown.acts;
          output = [];
          raised = self.flow.shown.raised.items;
          end = self.flow.shown.end;
        } }
        ensures entered { result.1 ≡ self.flow.activations }
        ensures streams { (result.2 ≡ self.streams.input) × (result.3 ≡ self.flow.shown.output) }
    {
        let mut runtime = self.runtime;
        let none = Activations::new(runtime.alloc);
        let entered = std::mem::replace(&mut runtime.flow.activations, none);
        let (outcome, input, output) = runtime.into_parts();
        (outcome, entered, input, output)
    }
}

impl Environment {
    /// Before the first call of an image with so many bytes of code, whose table's words are those of signatures, with
    /// a whole input; without memory an `AllocError`.
    pub fn new(
        alloc: Global,
        code_bytes: u32,
        table: &[u32],
        input: &[u8],
    ) -> Result<Environment, AllocError>
        ensures services { (gs : List TableSignature) → AreSignatures gs → table.now ≡ table_words gs →
            IfOk result (λ e. running e ≡ first_services gs input.now) }
        ensures layout { IfOk result (λ e. e.held.layout ≡ image_layout code_bytes) }
    {
        let runtime = Runtime::new(alloc, layout_of_image(code_bytes), table, input)?;
        Ok(Environment { runtime })
    }

    /// The bytes written.
    pub fn output(&self) -> &[u8]
        ensures { result.now ≡ (running self.now).world.output }
    {
        self.runtime.output()
    }

    /// What the run has come to, its output copied; without memory an `AllocError`.
    pub fn into_outcome(self) -> Result<Outcome, AllocError>
        ensures { IfOk result (λ o. world_told o ≡ (running self).world) }
    {
        self.runtime.into_outcome()
    }
}

impl<I: InputStream, O: OutputStream> Services for Environment<I, O> {
    ghost use Rattle.pli_environment.specs.Calling.{Serves};

    ghost serves = { Serves (record {
      agrees = I.agrees;
      input = I.input;
      follows = I.follows;
      read_failed = I.has_failed;
      output = O.output;
      taken = O.taken;
      grows = O.grows;
      write_failed = O.has_failed;
    }) };

    fn call(&mut self, registers: &mut [u32; 32], storage: &mut Storage) -> Served {
        let memory = storage.as_mut_slice();
        let reply = self.runtime.serve::<Granules>(memory, registers);
        if self.runtime.stream_fault().is_some() {
            return Served::Ended;
        }
        told(registers, reply)
    }
}

/// How the machine is told of a reply.
fn told(registers: &mut [u32; 32], reply: Result<Reply, Refusal>) -> Served
    ensures told { Tells reply registers.old result registers.new }
    ensures zero { slice_index registers.new 0 ≡ slice_index registers.old 0 }
{
    match reply {
        Ok(Reply::Done(first, second)) => {
            set_results(registers, first, second);
            Served::Done
        }
        Ok(Reply::Ended) => Served::Ended,
        Err(Refusal::Bad) => Served::Bad,
        Err(Refusal::Memory) => Served::Memory,
    }
}

/// The results of a service that did its work.
fn set_results(registers: &mut [u32; 32], first: u32, second: u32)
    ensures set { slice_index registers.new ≡ written (written (slice_index registers.old) 10 first) 11 second }
    ensures zero { slice_index registers.new 0 ≡ slice_index registers.old 0 }
{
    registers[10] = first;
    registers[11] = second;
}
