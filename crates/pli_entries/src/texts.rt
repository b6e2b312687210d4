// The services of texts, each on the entries that it takes from the top.

ghost use Rattle.std.specs.Prelude.{◌≡◌, ◌≤◌, ℕ, length, OnErr};
ghost use Rattle.rv_meaning.specs.Words.{word};
ghost use Rattle.pli_serving.specs.Answers.{Done};
ghost use Rattle.pli_serving.specs.Finding.{Call};
ghost use Rattle.pli_serving.specs.Outcomes.{becoming, with_entries};
ghost use Rattle.pli_serving.specs.TextServices as S;
ghost use Rattle.pli_signatures.specs.View.{kind_of};
ghost use Rattle.pli_values.specs.View.{layout_of};
ghost use Rattle.pli_entries.specs.Served.{IsServed, word_told};

use crate::entries::Entries;
use crate::fault::EntryFault;
use crate::operations::{cut, find, keep, newest_length, push_number, text_at, text_kind, to_word};
use pli_signatures::element::ElementKind;
use pli_values::element::{Value, put_value};
use pli_values::layout::Layout;
use pli_values::source::Source;
use std::cmp::Ordering;

impl Entries {
    /// Service 20: a text where it stands comes on top.
    pub fn push_from(
        &mut self,
        source: &Source,
        at: usize,
        most: u32,
        mode: u32,
    ) -> Result<(), EntryFault>
        ensures { (c : Call) → c.layout ≡ layout_of source.now.layout → c.memory ≡ source.now.memory.now → c.services.entries ≡ self.old → IsServed c at (S.push_served c at most mode) (λ done. becoming c (with_entries self.new c.services) at most) self.old self.new result }
    {
        let Some(kind) = text_kind(mode, most) else {
            return Err(EntryFault::Bad);
        };
        let Some(text) = text_at(source, kind, at) else {
            return Err(EntryFault::Bad);
        };
        self.push_text(text)
    }

    /// Service 21: a number comes on top as text, with the places of its precision; with 0 in its place a bit, which is set where
    /// the number is 1.
    pub fn push_number(&mut self, number: u32, precision: u32) -> Result<(), EntryFault>
        ensures { (c : Call) → c.services.entries ≡ self.old → IsServed c number (S.push_number_served c number precision) (λ done. becoming c (with_entries self.new c.services) number precision) self.old self.new result }
    {
        push_number(&mut self.texts, number, precision)?;
        Ok(())
    }

    /// Service 22: the two newest texts become one.
    pub fn join(&mut self) -> Result<(), EntryFault>
        ensures { (c : Call) (x : ℕ) → c.services.entries ≡ self.old → IsServed c x (S.join_served c x) (λ done. becoming c (with_entries self.new c.services) x 0) self.old self.new result }
    {
        if !self.are_texts(2) {
            return Err(EntryFault::Bad);
        }
        self.texts.join()?;
        Ok(())
    }

    // The newest text becomes a part of it.
    fn cut_part(&mut self, start: u32, count: u32, mode: u32) -> Result<(), EntryFault>
        ensures { (c : Call) → c.services.entries ≡ self.old → IsServed c start (S.part_cut c start count mode) (λ done. becoming c (with_entries self.new c.services) start 0) self.old self.new result }
    {
        if !self.are_texts(1) {
            return Err(EntryFault::Bad);
        }
        cut(&mut self.texts, start, count, mode)?;
        Ok(())
    }

    // The newest text becomes what an element of a kind keeps of it.
    fn cut_kept(&mut self, kind: ElementKind) -> Result<(), EntryFault>
        ensures { (c : Call) (x : ℕ) → c.services.entries ≡ self.old → IsServed c x (S.kept_cut c x (kind_of kind)) (λ done. becoming c (with_entries self.new c.services) x 0) self.old self.new result }
    {
        if !self.are_texts(1) {
            return Err(EntryFault::Bad);
        }
        keep(&mut self.texts, kind)?;
        Ok(())
    }

    /// Service 23: the newest text becomes a part of it with modes 0 and 1, else what an element keeps of it.
    pub fn cut(&mut self, start: u32, count: u32, mode: u32) -> Result<(), EntryFault>
        ensures { (c : Call) → c.services.entries ≡ self.old → IsServed c start (S.cut_served c start count mode) (λ done. becoming c (with_entries self.new c.services) start 0) self.old self.new result }
    {
        if mode < 2 {
            return self.cut_part(start, count, mode);
        }
        let Some(kind) = text_kind(mode - 2, start) else {
            return Err(EntryFault::Bad);
        };
        self.cut_kept(kind)
    }

    /// Service 24: how the two newest texts compare.
    pub fn compare(&mut self) -> Result<Ordering, EntryFault>
        ensures { (c : Call) (x y : ℕ) → c.services.entries ≡ self.old → IsServed c x (S.compare_served c y) (λ order. becoming c (with_entries self.new c.services) (word (S.order_number order)) y) self.old self.new result }
    {
        if !self.are_texts(2) {
            return Err(EntryFault::Bad);
        }
        Ok(self.texts.compare())
    }

    /// Service 25: INDEX of the two newest texts with mode 0, VERIFY with 1.
    pub fn find(&mut self, mode: u32) -> Result<u32, EntryFault>
        ensures { (c : Call) (x y : ℕ) → c.services.entries ≡ self.old → IsServed c x (S.find_served c mode y) (λ place. becoming c (with_entries self.new c.services) place y) self.old self.new result }
    {
        if mode >= 2 || !self.are_texts(2) {
            return Err(EntryFault::Bad);
        }
        Ok(find(&mut self.texts, mode))
    }

    // The newest text as the word of a number with mode 0, else of a bit.
    fn tell_word(&mut self, mode: u32) -> Result<u32, EntryFault>
        ensures { (c : Call) → c.services.entries ≡ self.old → IsServed c mode (word_told c mode) (λ number. becoming c (with_entries self.new c.services) number 0) self.old self.new result }
    {
        if !self.are_texts(1) {
            return Err(EntryFault::Bad);
        }
        let number = to_word(&mut self.texts, mode)?;
        Ok(number)
    }

    /// Service 26: the newest text as the word of a number with mode 0, of a bit with 1.
    pub fn to_number(&mut self, mode: u32) -> Result<u32, EntryFault>
        ensures { (c : Call) → c.services.entries ≡ self.old → IsServed c mode (S.to_number_served c mode) (λ number. becoming c (with_entries self.new c.services) number 0) self.old self.new result }
    {
        if mode >= 2 {
            return Err(EntryFault::Bad);
        }
        self.tell_word(mode)
    }

    // The length of the newest text, which stays with mode 2, else is dropped.
    fn measure(&mut self, mode: u32) -> Result<u32, EntryFault>
        ensures { (c : Call) (x y : ℕ) → c.services.entries ≡ self.old → IsServed c x (S.text_measured c mode y) (λ length. becoming c (with_entries self.new c.services) length y) self.old self.new result }
    {
        if !self.are_texts(1) {
            return Err(EntryFault::Bad);
        }
        let length = newest_length(&self.texts)?;
        if mode != 2 {
            self.texts.pop();
        }
        Ok(length)
    }

    // The newest text is stored in an element of a kind, and dropped; its length is told.
    fn store_as(
        &mut self,
        layout: &Layout,
        memory: &mut [u8],
        at: usize,
        kind: ElementKind,
    ) -> Result<u32, EntryFault>
        requires { layout.now.end ≤ length memory.old }
        ensures served { (c : Call) (x y : ℕ) → c.layout ≡ layout_of layout.now → c.memory ≡ memory.old → c.services.entries ≡ self.old → IsServed c x (S.text_stored c at y (kind_of kind)) (λ length. Done (with_entries self.new c.services) memory.new length y) self.old self.new result }
        ensures kept { OnErr result (memory.new ≡ memory.old) }
    {
        if !self.are_texts(1) || !layout.is_data(at, kind.value_bytes() as usize) {
            return Err(EntryFault::Bad);
        }
        let length = newest_length(&self.texts)?;
        put_value(memory, at, kind, Value::Text(self.texts.top()));
        self.texts.pop();
        Ok(length)
    }

    /// Service 27: the newest text is stored in a CHARACTER or VARYING element of a length with modes 0 and 1, and dropped; it stays
    /// with 2, and is dropped with 3. Its length is told. Where the call isn't done, no byte changed.
    pub fn store(
        &mut self,
        layout: &Layout,
        memory: &mut [u8],
        at: usize,
        most: u32,
        mode: u32,
    ) -> Result<u32, EntryFault>
        requires { layout.now.end ≤ length memory.old }
        ensures served { (c : Call) → c.layout ≡ layout_of layout.now → c.memory ≡ memory.old → c.services.entries ≡ self.old → IsServed c at (S.store_served c at most mode) (λ length. Done (with_entries self.new c.services) memory.new length most) self.old self.new result }
        ensures kept { OnErr result (memory.new ≡ memory.old) }
    {
        if mode == 2 || mode == 3 {
            return self.measure(mode);
        }
        let Some(kind) = text_kind(mode, most) else {
            return Err(EntryFault::Bad);
        };
        self.store_as(layout, memory, at, kind)
    }
}
