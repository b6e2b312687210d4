// Blocks that end, with the entries and the places in format lists above them: services 5, 6 and 31.

ghost use Rattle.std.specs.Prelude.{◌≡◌, ◌≤◌, ℕ, List, [], unwrap_or};
ghost use Rattle.area_keeper.specs.Keeper.{Keeper};
ghost use Rattle.pli_leaving.specs.Leaving.{IsTop};
ghost use Rattle.pli_serving.specs.Blocks as services;
ghost use Rattle.pli_runtime.specs.Ending.{IsBack, IsKept};
ghost use Rattle.pli_meaning.specs.InputLines.{Input as LineInput};
ghost use Rattle.pli_runtime.specs.Seen.{run_seen, CanServe, IsCarriedOut};

use crate::runtime::Runtime;
use pli_answering::reply::{Refusal, Reply};
use pli_edit::input_stream::InputStream;
use pli_edit::output_stream::OutputStream;
use pli_leaving::leaving::{Left, Top, leave, return_from, unwind};
use pli_making::laws::blocks_are_left;

impl<I: InputStream, O: OutputStream> Runtime<I, O> {
    /// What is known of the entries.
    fn top(&self) -> Top
        ensures { IsTop result self.now.entries }
    {
        Top {
            entries: self.entries.height(),
            is_text: self.entries.are_texts(1),
        }
    }

    /// Entries go back to a height, with keep 1 below the newest text.
    fn end_entries(&mut self, texts: u32, keep: u32)
        requires few { keep ≤ 1 }
        requires kept { keep ≡ 1 → IsKept texts self.old.entries }
        ensures kept { self.new ≡ record self.old { entries = self.new.entries } }
        ensures entries { self.new.entries ≡ unwrap_or (services.entries_left texts keep self.old.entries) [] }
    {
        if keep == 1 {
            self.entries.sink_text(texts as usize);
        } else {
            let height = self.entries.height();
            self.entries.truncate((texts as usize).min(height));
        }
    }

    /// Entries and places in format lists go back to the heights that a block told that was left, with keep 1 below the newest text;
    /// and what ended with the block counts no more.
    fn end_block(&mut self, left: Left, keep: u32) -> Reply
        requires few { keep ≤ 1 }
        requires kept { keep ≡ 1 → IsKept left.texts self.old.entries }
        ensures back { (input : LineInput) →
            IsBack left keep (run_seen O.output self.old input) (run_seen O.output self.new input) }
        ensures unread { self.new.streams.input ≡ self.old.streams.input }
        ensures reply { result ≡ left.reply }
        ensures grows { O.grows self.old.flow.shown.output self.new.flow.shown.output }
    {
        self.end_entries(left.texts, keep);
        let height = self.streams.height();
        self.streams.truncate((left.edits as usize).min(height));
        self.in_use.leave_above(self.flow.activations.height());
        left.reply
    }

    /// 5: the newest block ends.
    #[inline(never)]
    pub(crate) fn leave(&mut self, keep: u32, second: u32) -> Result<Reply, Refusal>
        ensures carried { (k : Keeper) → (m : List ℕ) → (input : LineInput) → CanServe k self.old m →
            IsCarriedOut k (λ c. services.leave_served c keep second) (run_seen O.output self.old input) m
            result (run_seen O.output self.new input) m }
        ensures unread { self.new.streams.input ≡ self.old.streams.input }
        ensures grows { O.grows self.old.flow.shown.output self.new.flow.shown.output }
    {
        blocks_are_left();
        let top = self.top();
        match leave(&mut self.flow, &mut self.held, keep, second, top) {
            Ok(left) => Ok(self.end_block(left, keep)),
            Err(refusal) => Err(refusal),
        }
    }

    /// 6: the blocks above one end.
    #[inline(never)]
    pub(crate) fn unwind(&mut self, frame: u32, keep: u32) -> Result<Reply, Refusal>
        ensures carried { (k : Keeper) → (m : List ℕ) → (input : LineInput) → CanServe k self.old m →
            IsCarriedOut k (λ c. services.unwind_served c frame keep) (run_seen O.output self.old input) m
            result (run_seen O.output self.new input) m }
        ensures unread { self.new.streams.input ≡ self.old.streams.input }
        ensures grows { O.grows self.old.flow.shown.output self.new.flow.shown.output }
    {
        blocks_are_left();
        let top = self.top();
        let block = self.flow.activations.block_of(frame);
        match unwind(&mut self.flow, &mut self.held, frame, keep, block, top) {
            Ok(left) => Ok(self.end_block(left, keep)),
            Err(refusal) => Err(refusal),
        }
    }

    /// 31: an on-unit, the newest block, ends.
    #[inline(never)]
    pub(crate) fn return_from(&mut self) -> Result<Reply, Refusal>
        ensures carried { (k : Keeper) → (m : List ℕ) → (input : LineInput) → CanServe k self.old m →
            IsCarriedOut k services.return_served (run_seen O.output self.old input) m
            result (run_seen O.output self.new input) m }
        ensures unread { self.new.streams.input ≡ self.old.streams.input }
        ensures grows { O.grows self.old.flow.shown.output self.new.flow.shown.output }
    {
        blocks_are_left();
        match return_from(&mut self.flow, &mut self.held) {
            Ok(left) => Ok(self.end_block(left, 0)),
            Err(refusal) => Err(refusal),
        }
    }
}
