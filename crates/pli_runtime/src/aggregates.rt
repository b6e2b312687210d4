// Aggregates: services 40 and 41.

ghost use Rattle.std.specs.Prelude.{◌≡◌, List, drop, if◌then◌else◌, slice_index};
ghost use Rattle.pli_parts.specs.Served.{entries_left};
ghost use Rattle.pli_serving.specs.ServiceState.{Entry};
ghost use Rattle.pli_serving.specs.AggregateServices as services;
ghost use Rattle.pli_meaning.specs.InputLines.{Input as LineInput};
ghost use Rattle.pli_runtime.specs.Seen.{run_seen, CanServe, IsCarriedOut};

use crate::runtime::Runtime;
use area_heap::keeper::AreaKeeper;
use pli_aggregates::scalar::scalar;
use pli_answering::reply::{Refusal, Reply};
use pli_edit::input_stream::InputStream;
use pli_edit::output_stream::OutputStream;
use pli_parts::part::PartAsked;
use pli_parts::putting::put_aggregate;
use pli_parts::taking::take_aggregate;

/// The part that is asked for, by the registers of the call.
fn part_of(registers: &[u32; 32]) -> PartAsked
    ensures { result ≡ record { at = slice_index registers.now 10; first = slice_index registers.now 11; leaves = slice_index registers.now 12; given = slice_index registers.now 13 } }
{
    PartAsked {
        at: registers[10],
        first: registers[11],
        leaves: registers[12],
        given: registers[13],
    }
}

/// Whether a reply says that what was asked for is done.
fn is_stored(reply: Result<Reply, Refusal>) -> bool
    ensures { (entries : List Entry) → entries_left reply entries ≡ (if result then drop 1 entries else entries) }
{
    match reply {
        Ok(Reply::Done(_, status)) => status == 0,
        _ => false,
    }
}

impl<I: InputStream, O: OutputStream> Runtime<I, O> {
    /// 40 with mode 1: the aggregate on top of the entries is stored in a part, and dropped.
    fn put_part<K: AreaKeeper>(
        &mut self,
        memory: &mut [u8],
        asked: PartAsked,
    ) -> Result<Reply, Refusal>
        requires { CanServe K.keeper self.old memory.old }
        ensures carried { (input : LineInput) → IsCarriedOut K.keeper
            (λ c. services.aggregate_served c asked.at asked.first asked.leaves asked.given 1)
            (run_seen O.output self.old input) memory.old result (run_seen O.output self.new input) memory.new }
        ensures unread { self.new.streams.input ≡ self.old.streams.input }
        ensures grows { O.grows self.old.flow.shown.output self.new.flow.shown.output }
    {
        let Some(leaves) = self.entries.newest_leaves() else {
            return Err(Refusal::Bad);
        };
        let reply = put_aggregate::<K>(self.alloc, &self.held, memory, leaves, asked);
        if is_stored(reply) {
            let below = self.entries.height() - 1;
            self.entries.truncate(below);
        }
        reply
    }

    /// 40: with mode 0 a part comes on top of the entries, with 1 the aggregate on top is stored in one.
    fn part_by_mode<K: AreaKeeper>(
        &mut self,
        memory: &mut [u8],
        asked: PartAsked,
        mode: u32,
    ) -> Result<Reply, Refusal>
        requires { CanServe K.keeper self.old memory.old }
        ensures carried { (input : LineInput) → IsCarriedOut K.keeper
            (λ c. services.aggregate_served c asked.at asked.first asked.leaves asked.given mode)
            (run_seen O.output self.old input) memory.old result (run_seen O.output self.new input) memory.new }
        ensures unread { self.new.streams.input ≡ self.old.streams.input }
        ensures grows { O.grows self.old.flow.shown.output self.new.flow.shown.output }
    {
        match mode {
            0 => take_aggregate::<K>(self.alloc, &self.held, &mut self.entries, memory, asked),
            1 => self.put_part::<K>(memory, asked),
            _ => Err(Refusal::Bad),
        }
    }

    /// 40, by the registers of the call.
    #[inline(never)]
    pub(crate) fn assign_part<K: AreaKeeper>(
        &mut self,
        memory: &mut [u8],
        registers: &[u32; 32],
    ) -> Result<Reply, Refusal>
        requires { CanServe K.keeper self.old memory.old }
        ensures carried { (input : LineInput) → IsCarriedOut K.keeper
            (λ c. services.aggregate_served c (slice_index registers.now 10) (slice_index registers.now 11)
            (slice_index registers.now 12) (slice_index registers.now 13) (slice_index registers.now 14))
            (run_seen O.output self.old input) memory.old result (run_seen O.output self.new input) memory.new }
        ensures unread { self.new.streams.input ≡ self.old.streams.input }
        ensures grows { O.grows self.old.flow.shown.output self.new.flow.shown.output }
    {
        self.part_by_mode::<K>(memory, part_of(registers), registers[14])
    }

    /// 41: a scalar is stored in each element of an array.
    #[inline(never)]
    pub(crate) fn store_scalar<K: AreaKeeper>(
        &mut self,
        memory: &mut [u8],
        at: u32,
        leaf: u32,
        value: u32,
    ) -> Result<Reply, Refusal>
        requires { CanServe K.keeper self.old memory.old }
        ensures carried { (input : LineInput) → IsCarriedOut K.keeper (λ c. services.scalar_served c at leaf value)
            (run_seen O.output self.old input) memory.old result (run_seen O.output self.new input) memory.new }
        ensures unread { self.new.streams.input ≡ self.old.streams.input }
        ensures grows { O.grows self.old.flow.shown.output self.new.flow.shown.output }
    {
        scalar::<K>(
            self.alloc,
            &self.held,
            &mut self.entries,
            memory,
            at,
            leaf,
            value,
        )
    }
}
