// The stack of entries.

ghost use Rattle.std.specs.Prelude.{◌≡◌, ◌<◌, ◌≤◌, ◌-◌, [], ◌∷◌, length, drop, map, option_map};
ghost use Rattle.std.specs.Prelude.{true, IsSome, MatchResult, Some};
ghost use Rattle.pli_meaning.specs.Stream.{blanks};
ghost use Rattle.pli_meaning.specs.Texts.{fitted};
ghost use Rattle.pli_serving.specs.Blocks.{are_texts, top_kept};
ghost use Rattle.pli_serving.specs.ServiceState.{AggregateEntry, TextEntry};
ghost use Rattle.pli_entries.specs.declared.fault.EntryFault.TheVariants as F;
ghost use Rattle.pli_entries.specs.Kept.{leaf_of, leaves_on_top, text_on_top};

use crate::fault::EntryFault;
use crate::kept::{Aggregate, keep_below};
use crate::taken::TakenLeaf;
use pli_text::stack::TextStack;
use std::alloc::Global;
use std::marker::Model;

/// Texts and aggregates. An empty text stands in the place of each aggregate, so that texts on top are the newest texts.
/// Contracts see the entries, newest first.
#[derive(Drop)]
pub struct Entries {
    pub(crate) texts: TextStack,
    pub(crate) aggregates: Vec<Aggregate>,
}

impl Model for Entries {
    ghost use Rattle.std.specs.Prelude.{List, length, reverse};
    ghost use Rattle.pli_serving.specs.ServiceState.{Entry};
    ghost use Rattle.pli_entries.specs.Kept.{entries_of, ArePlaced};

    ghost Value = { List Entry };

    ghost view = { λ e. entries_of e.texts (reverse e.aggregates.items) };

    ghost invariant = { λ e. ArePlaced (reverse e.aggregates.items) (length e.texts) };
}

impl Entries {
    /// There is no entry.
    pub fn new(alloc: Global) -> Entries
        ensures { result ≡ [] }
    {
        Entries {
            texts: TextStack::new(alloc),
            aggregates: Vec::new(alloc),
        }
    }

    /// How many entries there are.
    pub fn height(&self) -> usize
        ensures { result ≡ length self.now }
    {
        self.texts.height()
    }

    /// Whether so many entries on top are texts.
    pub fn are_texts(&self, count: usize) -> bool
        ensures { result ≡ are_texts count self.now }
    {
        let height = self.texts.height();
        match self.aggregates.last() {
            None => count <= height,
            Some(newest) => count < height - newest.place,
        }
    }

    /// The leaves of the newest entry, where that is an aggregate.
    pub fn newest_leaves(&self) -> Option<&[TakenLeaf]>
        ensures { option_map (λ leaves. map leaf_of leaves.now) result ≡ leaves_on_top self.now }
    {
        match self.aggregates.last() {
            None => None,
            Some(newest) => {
                if self.texts.height() - newest.place > 1 {
                    return None;
                }
                Some(newest.leaves.as_slice())
            }
        }
    }

    /// Only the oldest entries stay, as many as this.
    pub fn truncate(&mut self, height: usize)
        requires { height ≤ length self.old }
        ensures { self.new ≡ drop (length self.old - height) self.old }
    {
        self.texts.truncate(height);
        keep_below(&mut self.aggregates, height);
    }

    /// Only the oldest entries stay, as many as this, below the newest, which is a text.
    pub fn sink_text(&mut self, height: usize)
        requires text { are_texts 1 self.old ≡ true }
        requires inside { height < length self.old }
        ensures { top_kept height self.old ≡ Some self.new }
    {
        self.texts.sink(height);
        keep_below(&mut self.aggregates, height);
    }

    /// A text comes on top. `Memory` where there is none, and then nothing changed.
    pub fn push_text(&mut self, text: &[u8]) -> Result<(), EntryFault>
        ensures { MatchResult result (λ _. self.new ≡ TextEntry text.now ∷ self.old) (λ e. (e ≡ F.Memory) × (self.new ≡ self.old)) }
    {
        self.texts.push(text)?;
        Ok(())
    }

    /// A text of so many blanks comes on top. `Memory` where there is none, and then nothing changed.
    pub fn push_blanks(&mut self, count: u32) -> Result<(), EntryFault>
        ensures { MatchResult result (λ _. self.new ≡ TextEntry (blanks count) ∷ self.old)
            (λ e. (e ≡ F.Memory) × (self.new ≡ self.old)) }
    {
        self.texts.push_blanks(count)?;
        Ok(())
    }

    /// The newest entry, where that is a text.
    pub fn newest_text(&self) -> Option<&[u8]>
        ensures { option_map (λ text. text.now) result ≡ text_on_top self.now }
    {
        if !self.are_texts(1) {
            return None;
        }
        Some(self.texts.top())
    }

    /// The newest entry, a text, becomes another text, of the length that it has: padded with blanks, or cut on the
    /// right.
    pub fn overwrite_text(&mut self, text: &[u8])
        requires text { IsSome (text_on_top self.old) }
        ensures { option_map (λ t. TextEntry (fitted (length t) text.now) ∷ drop 1 self.old) (text_on_top self.old)
            ≡ Some self.new }
    {
        self.texts.overwrite(text);
    }

    /// The newest entry, a text, is dropped.
    pub fn drop_text(&mut self)
        requires text { IsSome (text_on_top self.old) }
        ensures { self.new ≡ drop 1 self.old }
    {
        self.texts.pop();
    }

    /// An aggregate comes on top. `Memory` where there is none, and then nothing changed.
    pub fn push_aggregate(&mut self, leaves: Vec<TakenLeaf>) -> Result<(), EntryFault>
        ensures { MatchResult result (λ _. self.new ≡ AggregateEntry (map leaf_of leaves.items) ∷ self.old) (λ e. (e ≡ F.Memory) × (self.new ≡ self.old)) }
    {
        let place = self.texts.height();
        self.aggregates.reserve(1)?;
        self.texts.push(b"")?;
        self.aggregates.push_reserved(Aggregate { place, leaves });
        Ok(())
    }
}
