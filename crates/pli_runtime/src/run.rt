// A call of the services.

ghost use Rattle.std.specs.Prelude.{◌≡◌, ◌≢◌, ℕ, List, MatchResult, false, slice_index};
ghost use Rattle.pli_meaning.specs.InputLines.{Input as LineInput};
ghost use Rattle.pli_services.specs.Shown.{world_of};
ghost use Rattle.pli_serving.specs.Serving.{served, serves};
ghost use Rattle.pli_serving.specs.SignatureService.{signature_served};
ghost use Rattle.pli_transmission.specs.Transmitting.{places_of};
ghost use Rattle.pli_runtime.specs.Seen.{asks_input, run_seen, CanServe, IsCarriedOut, IsServed};

use crate::runtime::Runtime;
use area_heap::keeper::AreaKeeper;
use pli_allocation::popping::pop;
use pli_allocation::referring::refer;
use pli_answering::reply::{Refusal, Reply};
use pli_edit::input_stream::InputStream;
use pli_edit::output_stream::OutputStream;
use pli_making::laws::signatures_are_added;
use pli_pushing::pushing::push;

/// The service of acts.
const ACT: u32 = 1;

impl<I: InputStream, O: OutputStream> Runtime<I, O> {
    /// 3: a signature with an extent that the run tells.
    #[inline(never)]
    fn signature<K: AreaKeeper>(
        &mut self,
        memory: &[u8],
        number: u32,
        places: u32,
        lower: u32,
        upper: u32,
    ) -> Result<Reply, Refusal>
        requires { CanServe K.keeper self.old memory.now }
        ensures carried { (input : LineInput) → IsCarriedOut K.keeper
            (λ c. signature_served c number places lower upper) (run_seen O.output self.old input) memory.now
            result (run_seen O.output self.new input) memory.now }
        ensures unread { self.new.streams.input ≡ self.old.streams.input }
        ensures grows { O.grows self.old.flow.shown.output self.new.flow.shown.output }
    {
        signatures_are_added();
        self.held
            .signature::<K>(self.alloc, memory, number, places, lower, upper)
    }

    /// All services but acts and those of items, by their numbers. Each stands apart, so that a call costs one jump and
    /// has no frame but its service's.
    fn by_other<K: AreaKeeper>(
        &mut self,
        memory: &mut [u8],
        number: u32,
        registers: &[u32; 32],
    ) -> Result<Reply, Refusal>
        requires standing { CanServe K.keeper self.old memory.old }
        requires no_act { number ≢ 1 }
        requires no_item { (number ≢ 35) × (number ≢ 36) × (number ≢ 37) × (number ≢ 39) }
        ensures carried { (input : LineInput) → IsCarriedOut K.keeper (λ c. served number c (slice_index registers.now))
            (run_seen O.output self.old input) memory.old result (run_seen O.output self.new input) memory.new }
        ensures unread { self.new.streams.input ≡ self.old.streams.input }
        ensures grows { O.grows self.old.flow.shown.output self.new.flow.shown.output }
    {
        let (first, second) = (registers[10], registers[11]);
        let (third, fourth) = (registers[12], registers[13]);
        match number {
            2 => self.flow.end(first, second),
            3 => self.signature::<K>(memory, first, second, third, fourth),
            4 => self.enter(first, second, third, fourth),
            5 => self.leave(first, second),
            6 => self.unwind(first, second),
            7 => self.make::<K>(memory, registers),
            8 => self.find::<K>(memory, registers),
            9 => self.held.address::<K>(memory, first, second, third),
            10 => self.allocate::<K>(memory, registers),
            11 => self.held.free::<K>(memory, first, second, third),
            12 => self.held.assign::<K>(self.alloc, memory, first, second),
            13 => self.held.empty::<K>(memory, first, second),
            14 => self.held.locator::<K>(memory, first, second, third, fourth),
            15 => refer::<K>(&self.held, self.alloc, memory, first, second, third),
            16 => push::<K>(&mut self.held, self.alloc, memory, first, second, third),
            17 => pop::<K>(&mut self.held, memory, first, second),
            18 => self.held.newest::<K>(memory, first, second),
            19 => self.held.count(first, second),
            20 => self.push_text::<K>(memory, first, second, third),
            21 => self.push_number(first, second),
            22 => self.join_texts(first),
            23 => self.cut_text(first, second, third),
            24 => self.compare_texts(second),
            25 => self.find_text(first, second),
            26 => self.text_number(first),
            27 => self.store_text::<K>(memory, first, second, third),
            28 => self.flow.establish(first, second),
            29 => self.flow.revert(first, second),
            30 => self.flow.raise(first, second, third),
            31 => self.return_from(),
            32 => self.flow.retry(first, second),
            33 => Ok(self.flow.oncode(second)),
            34 => self.begin_edit::<K>(memory, first, second),
            38 => self.streams.end(first, second),
            40 => self.assign_part::<K>(memory, registers),
            41 => self.store_scalar::<K>(memory, first, second, third),
            _ => Err(Refusal::Bad),
        }
    }

    /// All services but acts by their numbers.
    #[inline(never)]
    fn by_number<K: AreaKeeper>(
        &mut self,
        memory: &mut [u8],
        number: u32,
        registers: &[u32; 32],
    ) -> Result<Reply, Refusal>
        requires standing { CanServe K.keeper self.old memory.old }
        requires no_act { number ≢ 1 }
        ensures carried { (all : List ℕ) → I.agrees self.new.streams.input all →
            I.has_failed self.new.streams.input ≡ false →
            IsCarriedOut K.keeper (λ c. served number c (slice_index registers.now))
            (run_seen O.output self.old (I.input self.old.streams.input all)) memory.old result
            (run_seen O.output self.new (I.input self.new.streams.input all)) memory.new }
        ensures standing { CanServe K.keeper self.new memory.new }
        ensures layout { self.new.held.layout ≡ self.old.held.layout }
        ensures follows { I.follows self.old.streams.input self.new.streams.input }
        ensures unread { asks_input (places_of self.old.streams.edits.items) number (slice_index registers.now 11) ≡
            false →
            self.new.streams.input ≡ self.old.streams.input }
        ensures kept { MatchResult result
            (λ _. I.has_failed self.old.streams.input ≡ false → I.has_failed self.new.streams.input ≡ false)
            (λ _. (world_of O.output self.new.flow.shown ≡ world_of O.output self.old.flow.shown)
            × (memory.new ≡ memory.old)) }
        ensures grows { O.grows self.old.flow.shown.output self.new.flow.shown.output }
    {
        let (first, second) = (registers[10], registers[11]);
        match number {
            35 => self.streams.control(&mut self.flow.shown, second),
            36 => self.streams.fixed(&mut self.flow.shown, first, second),
            37 => self
                .streams
                .text(&mut self.entries, &mut self.flow.shown, first, second),
            39 => self.streams.skip(&mut self.flow.shown, first, second),
            _ => self.by_other::<K>(memory, number, registers),
        }
    }

    /// Serves the call whose number is in register 17, with what stands in registers 10 to 14 and with the memory. The
    /// parts of memory stay where they are.
    ///
    /// Where a write failed, the output has all that is due. Where a read failed, nothing is shown and the reply is
    /// `Memory`. In both cases `stream_fault` tells so, and the run is to end.
    ///
    /// # Errors
    ///
    /// `Bad` where there is no such service or its arguments are wrong, and `Memory` without memory for its work: then
    /// nothing has changed. `Memory` where a read failed, too: then nothing is shown, and the bytes are as they were.
    pub fn serve<K: AreaKeeper>(
        &mut self,
        memory: &mut [u8],
        registers: &[u32; 32],
    ) -> Result<Reply, Refusal>
        requires { CanServe K.keeper self.old memory.old }
        ensures served { (all : List ℕ) → I.agrees self.new.streams.input all →
            I.has_failed self.new.streams.input ≡ false →
            IsServed K.keeper (λ c. serves c (slice_index registers.now))
            (run_seen O.output self.old (I.input self.old.streams.input all)) memory.old result
            (run_seen O.output self.new (I.input self.new.streams.input all)) memory.new }
        ensures standing { CanServe K.keeper self.new memory.new }
        ensures layout { self.new.held.layout ≡ self.old.held.layout }
        ensures follows { I.follows self.old.streams.input self.new.streams.input }
        ensures unread { asks_input (places_of self.old.streams.edits.items) (slice_index registers.now 17)
            (slice_index registers.now 11) ≡ false →
            self.new.streams.input ≡ self.old.streams.input }
        ensures kept { MatchResult result
            (λ _. I.has_failed self.old.streams.input ≡ false → I.has_failed self.new.streams.input ≡ false)
            (λ _. (world_of O.output self.new.flow.shown ≡ world_of O.output self.old.flow.shown)
            × (memory.new ≡ memory.old)) }
        ensures grows { O.grows self.old.flow.shown.output self.new.flow.shown.output }
    {
        self.act_or::<K>(memory, registers[17], registers)
    }

    /// Acts are the most calls by far, so that their service stands with what calls it.
    fn act_or<K: AreaKeeper>(
        &mut self,
        memory: &mut [u8],
        number: u32,
        registers: &[u32; 32],
    ) -> Result<Reply, Refusal>
        requires { CanServe K.keeper self.old memory.old }
        ensures carried { (all : List ℕ) → I.agrees self.new.streams.input all →
            I.has_failed self.new.streams.input ≡ false →
            IsCarriedOut K.keeper (λ c. served number c (slice_index registers.now))
            (run_seen O.output self.old (I.input self.old.streams.input all)) memory.old result
            (run_seen O.output self.new (I.input self.new.streams.input all)) memory.new }
        ensures standing { CanServe K.keeper self.new memory.new }
        ensures layout { self.new.held.layout ≡ self.old.held.layout }
        ensures follows { I.follows self.old.streams.input self.new.streams.input }
        ensures unread { asks_input (places_of self.old.streams.edits.items) number (slice_index registers.now 11) ≡
            false →
            self.new.streams.input ≡ self.old.streams.input }
        ensures kept { MatchResult result
            (λ _. I.has_failed self.old.streams.input ≡ false → I.has_failed self.new.streams.input ≡ false)
            (λ _. (world_of O.output self.new.flow.shown ≡ world_of O.output self.old.flow.shown)
            × (memory.new ≡ memory.old)) }
        ensures grows { O.grows self.old.flow.shown.output self.new.flow.shown.output }
    {
        if number == ACT {
            return self.flow.act(registers[10], registers[11]);
        }
        self.by_number::<K>(memory, number, registers)
    }
}
