// Blocks that are entered, variables that are made, and names: services 4, 7 and 8.

ghost use Rattle.std.specs.Prelude.{◌≡◌, ℕ, List, slice_index};
ghost use Rattle.area_keeper.specs.Keeper.{Keeper};
ghost use Rattle.pli_serving.specs.Blocks as services;
ghost use Rattle.pli_serving.specs.ElementService.{of_two_words};
ghost use Rattle.pli_serving.specs.Making.{make_served};
ghost use Rattle.pli_serving.specs.Serving.{found_served};
ghost use Rattle.pli_meaning.specs.InputLines.{Input as LineInput};
ghost use Rattle.pli_runtime.specs.Seen.{run_seen, CanServe, IsCarriedOut};

use crate::runtime::Runtime;
use area_heap::keeper::AreaKeeper;
use pli_answering::reply::{Refusal, Reply};
use pli_edit::input_stream::InputStream;
use pli_edit::output_stream::OutputStream;
use pli_elements::element::element;
use pli_making::making::make;
use pli_making::wanted::Making;
use pli_services::blocks::Standing;

/// A number of two words.
fn of_two_words(low: u32, high: u32) -> u64
    ensures { result ≡ of_two_words low high }
{
    u64::from(low) + (1 << 32) * u64::from(high)
}

/// What is to be made, by the registers of the call.
fn making_of(registers: &[u32; 32]) -> Making
    ensures { result ≡ record { name = slice_index registers.now 10; signature = slice_index registers.now 11; initial = slice_index registers.now 12; place = slice_index registers.now 13; class = slice_index registers.now 14 } }
{
    Making {
        name: registers[10],
        signature: registers[11],
        initial: registers[12],
        place: registers[13],
        class: registers[14],
    }
}

impl<I: InputStream, O: OutputStream> Runtime<I, O> {
    /// 4: a block is entered.
    #[inline(never)]
    pub(crate) fn enter(
        &mut self,
        kind: u32,
        frame: u32,
        line: u32,
        texts: u32,
    ) -> Result<Reply, Refusal>
        ensures carried { (k : Keeper) → (m : List ℕ) → (input : LineInput) → CanServe k self.old m →
            IsCarriedOut k (λ c. services.enter_served c kind frame line texts) (run_seen O.output self.old input) m
            result (run_seen O.output self.new input) m }
        ensures unread { self.new.streams.input ≡ self.old.streams.input }
        ensures grows { O.grows self.old.flow.shown.output self.new.flow.shown.output }
    {
        let standing = Standing {
            are_texts: self.entries.are_texts(texts as usize),
            entries: self.entries.height(),
            edits: self.streams.height(),
        };
        self.flow.enter(kind, frame, line, texts, standing)
    }

    /// 8: with mode 0 where a leaf of what a name names begins, with 1 an element of an aggregate.
    #[inline(never)]
    pub(crate) fn find<K: AreaKeeper>(
        &mut self,
        memory: &mut [u8],
        registers: &[u32; 32],
    ) -> Result<Reply, Refusal>
        requires { CanServe K.keeper self.old memory.old }
        ensures carried { (input : LineInput) → IsCarriedOut K.keeper
            (λ c. found_served c (slice_index registers.now) (slice_index registers.now 14))
            (run_seen O.output self.old input) memory.old result (run_seen O.output self.new input) memory.new }
        ensures unread { self.new.streams.input ≡ self.old.streams.input }
        ensures grows { O.grows self.old.flow.shown.output self.new.flow.shown.output }
    {
        let (first, second) = (registers[10], registers[11]);
        let (third, fourth) = (registers[12], registers[13]);
        match registers[14] {
            0 => self
                .held
                .resolve::<K>(self.alloc, memory, first, second, third, fourth),
            1 => {
                let number = of_two_words(third, registers[15]);
                element::<K>(
                    self.alloc, &self.held, memory, first, second, number, fourth,
                )
            }
            _ => Err(Refusal::Bad),
        }
    }

    /// 7: a variable is made.
    #[inline(never)]
    pub(crate) fn make<K: AreaKeeper>(
        &mut self,
        memory: &mut [u8],
        registers: &[u32; 32],
    ) -> Result<Reply, Refusal>
        requires { CanServe K.keeper self.old memory.old }
        ensures carried { (input : LineInput) → IsCarriedOut K.keeper
            (λ c. make_served c (slice_index registers.now 10) (slice_index registers.now 11)
            (slice_index registers.now 12) (slice_index registers.now 13) (slice_index registers.now 14))
            (run_seen O.output self.old input) memory.old result (run_seen O.output self.new input) memory.new }
        ensures unread { self.new.streams.input ≡ self.old.streams.input }
        ensures grows { O.grows self.old.flow.shown.output self.new.flow.shown.output }
    {
        make::<K, O>(
            &mut self.flow,
            &mut self.held,
            &mut self.in_use,
            self.alloc,
            memory,
            making_of(registers),
        )
    }
}
