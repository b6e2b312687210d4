// Texts that wait in expressions: services 20 to 27.

ghost use Rattle.std.specs.Prelude.{◌≡◌, ℕ, List};
ghost use Rattle.area_keeper.specs.Keeper.{Keeper};
ghost use Rattle.rv_meaning.specs.Words.{word};
ghost use Rattle.pli_answering.specs.Answering.{Replies};
ghost use Rattle.pli_entries.specs.Served.{IsRefusal};
ghost use Rattle.pli_serving.specs.Answers.{Answer};
ghost use Rattle.pli_serving.specs.Finding.{Call};
ghost use Rattle.pli_serving.specs.TextServices as services;
ghost use Rattle.pli_meaning.specs.InputLines.{Input as LineInput};
ghost use Rattle.pli_runtime.specs.Seen.{run_seen, CanServe, IsCarriedOut};

use crate::runtime::Runtime;
use area_heap::keeper::AreaKeeper;
use pli_answering::reply::{Refusal, Reply};
use pli_edit::input_stream::InputStream;
use pli_edit::output_stream::OutputStream;
use pli_entries::fault::EntryFault;
use pli_values::source::Source;
use std::cmp::Ordering;

/// The code of an error: a text of more than 1,024 bytes.
const TOO_LONG: u32 = 108;

/// The code of an error: a part that doesn't lie in its text.
const SUBSTRING: u32 = 103;

/// The code of an error: a text that stands for no value.
const CONVERSION: u32 = 104;

/// The code of an error: aggregates of different bounds.
const SHAPE: u32 = 109;

/// The reply of a service that isn't done with the entries: a status beside what it was given, or a refusal.
fn refused(first: u32, fault: EntryFault) -> Result<Reply, Refusal>
    ensures { (c : Call) → (answer : Answer) → IsRefusal c first answer fault → Replies answer c.services c.memory result c.services c.memory }
{
    match fault {
        EntryFault::TooLong => Ok(Reply::Done(first, TOO_LONG)),
        EntryFault::BadRange => Ok(Reply::Done(first, SUBSTRING)),
        EntryFault::NotNumber => Ok(Reply::Done(first, CONVERSION)),
        EntryFault::OtherBounds => Ok(Reply::Done(first, SHAPE)),
        EntryFault::Bad => Err(Refusal::Bad),
        EntryFault::Memory => Err(Refusal::Memory),
    }
}

/// How two texts compare, as a word.
fn order_word(order: Ordering) -> u32
    ensures { result ≡ word (services.order_number order) }
{
    match order {
        Ordering::Less => u32::MAX,
        Ordering::Equal => 0,
        Ordering::Greater => 1,
    }
}

impl<I: InputStream, O: OutputStream> Runtime<I, O> {
    /// 20: the text or bit at an address comes on top.
    #[inline(never)]
    pub(crate) fn push_text<K: AreaKeeper>(
        &mut self,
        memory: &[u8],
        at: u32,
        most: u32,
        mode: u32,
    ) -> Result<Reply, Refusal>
        requires { CanServe K.keeper self.old memory.now }
        ensures carried { (input : LineInput) → IsCarriedOut K.keeper (λ c. services.push_served c at most mode)
            (run_seen O.output self.old input) memory.now result (run_seen O.output self.new input) memory.now }
        ensures unread { self.new.streams.input ≡ self.old.streams.input }
        ensures grows { O.grows self.old.flow.shown.output self.new.flow.shown.output }
    {
        let source = Source::new(self.held.layout, memory);
        match self.entries.push_from(&source, at as usize, most, mode) {
            Ok(()) => Ok(Reply::Done(at, most)),
            Err(fault) => refused(at, fault),
        }
    }

    /// 21: a number comes on top, as text; with precision 0 a bit.
    #[inline(never)]
    pub(crate) fn push_number(&mut self, number: u32, precision: u32) -> Result<Reply, Refusal>
        ensures carried { (k : Keeper) → (m : List ℕ) → (input : LineInput) → CanServe k self.old m →
            IsCarriedOut k (λ c. services.push_number_served c number precision) (run_seen O.output self.old input) m
            result (run_seen O.output self.new input) m }
        ensures unread { self.new.streams.input ≡ self.old.streams.input }
        ensures grows { O.grows self.old.flow.shown.output self.new.flow.shown.output }
    {
        match self.entries.push_number(number, precision) {
            Ok(()) => Ok(Reply::Done(number, precision)),
            Err(fault) => refused(number, fault),
        }
    }

    /// 22: the two newest texts become one.
    #[inline(never)]
    pub(crate) fn join_texts(&mut self, first: u32) -> Result<Reply, Refusal>
        ensures carried { (k : Keeper) → (m : List ℕ) → (input : LineInput) → CanServe k self.old m →
            IsCarriedOut k (λ c. services.join_served c first) (run_seen O.output self.old input) m
            result (run_seen O.output self.new input) m }
        ensures unread { self.new.streams.input ≡ self.old.streams.input }
        ensures grows { O.grows self.old.flow.shown.output self.new.flow.shown.output }
    {
        match self.entries.join() {
            Ok(()) => Ok(Reply::Done(first, 0)),
            Err(fault) => refused(first, fault),
        }
    }

    /// 23: the newest text becomes a part of it.
    #[inline(never)]
    pub(crate) fn cut_text(&mut self, start: u32, count: u32, mode: u32) -> Result<Reply, Refusal>
        ensures carried { (k : Keeper) → (m : List ℕ) → (input : LineInput) → CanServe k self.old m →
            IsCarriedOut k (λ c. services.cut_served c start count mode) (run_seen O.output self.old input) m
            result (run_seen O.output self.new input) m }
        ensures unread { self.new.streams.input ≡ self.old.streams.input }
        ensures grows { O.grows self.old.flow.shown.output self.new.flow.shown.output }
    {
        match self.entries.cut(start, count, mode) {
            Ok(()) => Ok(Reply::Done(start, 0)),
            Err(fault) => refused(start, fault),
        }
    }

    /// 24: how the two newest texts compare.
    #[inline(never)]
    pub(crate) fn compare_texts(&mut self, second: u32) -> Result<Reply, Refusal>
        ensures carried { (k : Keeper) → (m : List ℕ) → (input : LineInput) → CanServe k self.old m →
            IsCarriedOut k (λ c. services.compare_served c second) (run_seen O.output self.old input) m
            result (run_seen O.output self.new input) m }
        ensures unread { self.new.streams.input ≡ self.old.streams.input }
        ensures grows { O.grows self.old.flow.shown.output self.new.flow.shown.output }
    {
        match self.entries.compare() {
            Ok(order) => Ok(Reply::Done(order_word(order), second)),
            Err(fault) => refused(0, fault),
        }
    }

    /// 25: where one text stands in another, or what of one isn't in the other.
    #[inline(never)]
    pub(crate) fn find_text(&mut self, mode: u32, second: u32) -> Result<Reply, Refusal>
        ensures carried { (k : Keeper) → (m : List ℕ) → (input : LineInput) → CanServe k self.old m →
            IsCarriedOut k (λ c. services.find_served c mode second) (run_seen O.output self.old input) m
            result (run_seen O.output self.new input) m }
        ensures unread { self.new.streams.input ≡ self.old.streams.input }
        ensures grows { O.grows self.old.flow.shown.output self.new.flow.shown.output }
    {
        match self.entries.find(mode) {
            Ok(place) => Ok(Reply::Done(place, second)),
            Err(fault) => refused(0, fault),
        }
    }

    /// 26: the number or bit that the newest text stands for.
    #[inline(never)]
    pub(crate) fn text_number(&mut self, mode: u32) -> Result<Reply, Refusal>
        ensures carried { (k : Keeper) → (m : List ℕ) → (input : LineInput) → CanServe k self.old m →
            IsCarriedOut k (λ c. services.to_number_served c mode) (run_seen O.output self.old input) m
            result (run_seen O.output self.new input) m }
        ensures unread { self.new.streams.input ≡ self.old.streams.input }
        ensures grows { O.grows self.old.flow.shown.output self.new.flow.shown.output }
    {
        match self.entries.to_number(mode) {
            Ok(number) => Ok(Reply::Done(number, 0)),
            Err(fault) => refused(mode, fault),
        }
    }

    /// 27: the newest text is stored at an address.
    #[inline(never)]
    pub(crate) fn store_text<K: AreaKeeper>(
        &mut self,
        memory: &mut [u8],
        at: u32,
        most: u32,
        mode: u32,
    ) -> Result<Reply, Refusal>
        requires { CanServe K.keeper self.old memory.old }
        ensures carried { (input : LineInput) → IsCarriedOut K.keeper (λ c. services.store_served c at most mode)
            (run_seen O.output self.old input) memory.old result (run_seen O.output self.new input) memory.new }
        ensures unread { self.new.streams.input ≡ self.old.streams.input }
        ensures grows { O.grows self.old.flow.shown.output self.new.flow.shown.output }
    {
        let stored = self
            .entries
            .store(&self.held.layout, memory, at as usize, most, mode);
        match stored {
            Ok(length) => Ok(Reply::Done(length, most)),
            Err(fault) => refused(at, fault),
        }
    }
}
