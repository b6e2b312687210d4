// The places in format lists of all GETs and PUTs that are under way, and the input: services 34 to 39.

ghost use Rattle.std.specs.Prelude.{◌≡◌, ◌≢◌, ◌∷◌, ◌-◌, ◌≤◌, ◌<◌, ◌^◌, [], drop, length, option_map, IfOk, IfErr};
ghost use Rattle.std.specs.Prelude.{MatchOption, MatchResult, ⊤, ℕ, List, false};
ghost use Rattle.pli_answering.specs.Answering.{Answers};
ghost use Rattle.pli_edit.specs.FormatPlaces.{items_of};
ghost use Rattle.pli_meaning.specs.InputLines.{first_input, Input as LineInput};
ghost use Rattle.pli_meaning.specs.World.{World};
ghost use Rattle.pli_serving.specs.Edits as edits;
ghost use Rattle.pli_serving.specs.Finding.{Call};
ghost use Rattle.pli_serving.specs.FormatLists.{formats_at};
ghost use Rattle.pli_serving.specs.Outcomes.{or_bad};
ghost use Rattle.pli_services.specs.Shown.{world_of};
ghost use Rattle.pli_transmission.specs.Edits.{direction_shown};
ghost use Rattle.pli_transmission.specs.Transmitting.{is_getting, on_entries, places_of, with_streams};
ghost use Rattle.pli_values.specs.View.{layout_of};

use crate::control::{control, move_by};
use crate::edit::{Direction, Edit, direction_of};
use crate::fixed::fixed;
use crate::item::Control;
use crate::text::text;
use pli_answering::reply::{Refusal, Reply};
use pli_edit::fault::EditFault;
use pli_edit::format::Node;
use pli_edit::input::Input;
use pli_edit::input_stream::InputStream;
use pli_edit::output_stream::OutputStream;
use pli_entries::entries::Entries;
use pli_formats::laws::format_lists_of_memory;
use pli_formats::list::format_list;
use pli_services::shown::Shown;
use pli_values::source::Source;
use std::alloc::Global;

/// So many lines may be skipped.
const MOST_LINES: u32 = 1000;

/// The input, and the places in format lists that GETs and PUTs have reached, from the oldest on.
#[derive(Drop)]
pub struct Streams<I = Input> {
    alloc: Global,
    pub input: I,
    pub edits: Vec<Edit>,
}

impl Streams<Input> {
    /// A whole input at its start, and no place in a format list. `Memory` where there is none.
    pub fn new(alloc: Global, input: &[u8]) -> Result<Streams<Input>, EditFault>
        ensures input { IfOk result (λ s. s.input ≡ first_input input.now) }
        ensures edits { IfOk result (λ s. places_of s.edits.items ≡ []) }
        ensures refused { IfErr result (λ e. e ≡ EditFault.Memory) }
    {
        Ok(Streams::over(alloc, Input::new(alloc, input)?))
    }
}

impl<I: InputStream> Streams<I> {
    /// An input, and no place in a format list.
    pub fn over(alloc: Global, input: I) -> Streams<I>
        ensures input { result.input ≡ input }
        ensures edits { places_of result.edits.items ≡ [] }
    {
        Streams {
            alloc,
            input,
            edits: Vec::new(alloc),
        }
    }

    /// The input.
    pub fn into_input(self) -> I
        ensures { result ≡ self.input }
    {
        self.input
    }

    /// How many places there are.
    pub fn height(&self) -> usize
        ensures { result ≡ length (places_of self.now.edits.items) }
    {
        self.edits.len()
    }

    /// Only the oldest places stay, as many as this.
    pub fn truncate(&mut self, height: usize)
        requires { height ≤ length (places_of self.old.edits.items) }
        ensures edits { places_of self.new.edits.items ≡ drop (length (places_of self.old.edits.items) - height)
            (places_of self.old.edits.items) }
        ensures input { self.new.input ≡ self.old.input }
    {
        self.edits.truncate(height);
    }

    /// A place at the start of a list. `Memory` where there is none, and then nothing changed.
    fn push(&mut self, direction: Direction, nodes: Vec<Node>) -> Result<(), Refusal>
        requires { length nodes.items < 2 ^ 32 }
        ensures edits { MatchResult result
            (λ _. places_of self.new.edits.items ≡ record {
              direction = direction_shown direction;
              whole =
                  items_of nodes.items;
              rest = items_of nodes.items;
            } ∷ places_of self.old.edits.items)
            (λ e. (e ≡ Refusal.Memory) × (places_of self.new.edits.items ≡ places_of self.old.edits.items)) }
        ensures input { self.new.input ≡ self.old.input }
    {
        let Ok(edit) = Edit::new(self.alloc, direction, nodes) else {
            return Err(Refusal::Memory);
        };
        if self.edits.push(edit).is_err() {
            return Err(Refusal::Memory);
        }
        Ok(())
    }

    /// A place at the start of a list that was read, where one was.
    fn begin_in(
        &mut self,
        direction: Direction,
        read: Option<Vec<Node>>,
        at: u32,
        mode: u32,
    ) -> Result<Reply, Refusal>
        requires { MatchOption read ⊤ (λ nodes. length nodes.items < 2 ^ 32) }
        ensures answers { (c : Call) → (world : World) (input : LineInput) →
            option_map (λ nodes. items_of nodes.items) read ≡ formats_at
            (with_streams world input self.old.edits.items c) at →
            Answers (λ c. or_bad (formats_at c at) (edits.edit_begun c at mode (direction_shown direction)))
            (with_streams world input self.old.edits.items c) result
            (with_streams world input self.new.edits.items c) }
        ensures input { self.new.input ≡ self.old.input }
    {
        match read {
            Some(nodes) => {
                self.push(direction, nodes)?;
                Ok(Reply::Done(at, mode))
            }
            None => Err(Refusal::Bad),
        }
    }

    /// 34: a place at the start of a format list, 0 of GET, 1 of PUT.
    pub fn begin(&mut self, source: &Source, at: u32, mode: u32) -> Result<Reply, Refusal>
        ensures answers { (c : Call) → (world : World) (input : LineInput) → c.layout ≡ layout_of source.now.layout →
            c.memory ≡ source.now.memory.now →
            Answers (λ c. edits.edit_begin_served c at mode) (with_streams world input self.old.edits.items c) result
            (with_streams world input self.new.edits.items c) }
        ensures input { self.new.input ≡ self.old.input }
    {
        format_lists_of_memory();
        let Some(direction) = direction_of(mode) else {
            return Err(Refusal::Bad);
        };
        match format_list(self.alloc, source, at as usize) {
            Ok(read) => self.begin_in(direction, read, at, mode),
            Err(_) => Err(Refusal::Memory),
        }
    }

    /// 35: a control item that is next is carried out; then what is next is told: 0 a control item, 1 F, 2 A, 3 a data
    /// item of GET with no character left.
    #[inline(never)]
    pub fn control<O: OutputStream>(
        &mut self,
        shown: &mut Shown<O>,
        second: u32,
    ) -> Result<Reply, Refusal>
        ensures answers { (c : Call) → (all : List ℕ) → I.agrees self.new.input all →
            I.has_failed self.new.input ≡ false →
            Answers (λ c. edits.control_served c second)
            (with_streams (world_of O.output shown.old) (I.input self.old.input all) self.old.edits.items c) result
            (with_streams (world_of O.output shown.new) (I.input self.new.input all) self.new.edits.items c) }
        ensures follows { I.follows self.old.input self.new.input }
        ensures unread { is_getting (places_of self.old.edits.items) ≡ false → self.new.input ≡ self.old.input }
        ensures kept { MatchResult result
            (λ _. I.has_failed self.old.input ≡ false → I.has_failed self.new.input ≡ false)
            (λ _. world_of O.output shown.new ≡ world_of O.output shown.old) }
        ensures grows { O.grows shown.old.output shown.new.output }
    {
        let Some(newest) = self.edits.len().checked_sub(1) else {
            return Err(Refusal::Bad);
        };
        control(&mut self.edits[newest], &mut self.input, shown, second)
    }

    /// 36: F. PUT asks with mode 0 whether the field is wide enough, and writes the number with 1; GET takes the field
    /// and tells its number, or that it is none.
    #[inline(never)]
    pub fn fixed<O: OutputStream>(
        &mut self,
        shown: &mut Shown<O>,
        first: u32,
        second: u32,
    ) -> Result<Reply, Refusal>
        ensures answers { (c : Call) → (all : List ℕ) → I.agrees self.new.input all →
            I.has_failed self.new.input ≡ false →
            Answers (λ c. edits.fixed_served c first second)
            (with_streams (world_of O.output shown.old) (I.input self.old.input all) self.old.edits.items c) result
            (with_streams (world_of O.output shown.new) (I.input self.new.input all) self.new.edits.items c) }
        ensures follows { I.follows self.old.input self.new.input }
        ensures unread { is_getting (places_of self.old.edits.items) ≡ false → self.new.input ≡ self.old.input }
        ensures kept { MatchResult result
            (λ _. I.has_failed self.old.input ≡ false → I.has_failed self.new.input ≡ false)
            (λ _. world_of O.output shown.new ≡ world_of O.output shown.old) }
        ensures grows { O.grows shown.old.output shown.new.output }
    {
        let Some(newest) = self.edits.len().checked_sub(1) else {
            return Err(Refusal::Bad);
        };
        fixed(
            &mut self.edits[newest],
            &mut self.input,
            shown,
            first,
            second,
        )
    }

    /// 37: A. PUT drops and writes the newest text; GET takes the field, which becomes the newest text. Without memory
    /// nothing changed.
    #[inline(never)]
    pub fn text<O: OutputStream>(
        &mut self,
        entries: &mut Entries,
        shown: &mut Shown<O>,
        first: u32,
        second: u32,
    ) -> Result<Reply, Refusal>
        ensures answers { (c : Call) → (all : List ℕ) → I.agrees self.new.input all →
            I.has_failed self.new.input ≡ false →
            Answers (λ c. edits.text_served c first second)
            (on_entries entries.old (with_streams (world_of O.output shown.old) (I.input self.old.input all)
            self.old.edits.items c)) result
            (on_entries entries.new (with_streams (world_of O.output shown.new) (I.input self.new.input all)
            self.new.edits.items c)) }
        ensures follows { I.follows self.old.input self.new.input }
        ensures unread { is_getting (places_of self.old.edits.items) ≡ false → self.new.input ≡ self.old.input }
        ensures kept { MatchResult result
            (λ _. I.has_failed self.old.input ≡ false → I.has_failed self.new.input ≡ false)
            (λ _. world_of O.output shown.new ≡ world_of O.output shown.old) }
        ensures grows { O.grows shown.old.output shown.new.output }
    {
        let Some(newest) = self.edits.len().checked_sub(1) else {
            return Err(Refusal::Bad);
        };
        text(
            &mut self.edits[newest],
            entries,
            &mut self.input,
            shown,
            first,
            second,
        )
    }

    /// 38: the newest place is dropped.
    #[inline(never)]
    pub fn end(&mut self, first: u32, second: u32) -> Result<Reply, Refusal>
        ensures answers { (c : Call) → (world : World) (input : LineInput) →
            Answers (λ c. edits.edit_end_served c first second) (with_streams world input self.old.edits.items c)
            result (with_streams world input self.new.edits.items c) }
        ensures input { self.new.input ≡ self.old.input }
    {
        match self.edits.pop() {
            Some(_) => Ok(Reply::Done(first, second)),
            None => Err(Refusal::Bad),
        }
    }

    /// 39: the SKIP option of GET or PUT: 1 to 1,000 line ends.
    #[inline(never)]
    pub fn skip<O: OutputStream>(
        &mut self,
        shown: &mut Shown<O>,
        lines: u32,
        mode: u32,
    ) -> Result<Reply, Refusal>
        ensures answers { (c : Call) → (all : List ℕ) → I.agrees self.new.input all →
            I.has_failed self.new.input ≡ false →
            Answers (λ c. edits.skip_served c lines mode)
            (with_streams (world_of O.output shown.old) (I.input self.old.input all) self.old.edits.items c) result
            (with_streams (world_of O.output shown.new) (I.input self.new.input all) self.new.edits.items c) }
        ensures follows { I.follows self.old.input self.new.input }
        ensures unread { mode ≢ 0 → self.new.input ≡ self.old.input }
        ensures kept { MatchResult result
            (λ _. I.has_failed self.old.input ≡ false → I.has_failed self.new.input ≡ false)
            (λ _. world_of O.output shown.new ≡ world_of O.output shown.old) }
        ensures grows { O.grows shown.old.output shown.new.output }
    {
        let Some(direction) = direction_of(mode) else {
            return Err(Refusal::Bad);
        };
        if lines == 0 || lines > MOST_LINES {
            return Err(Refusal::Bad);
        }
        move_by(direction, Control::Skip(lines), &mut self.input, shown)?;
        Ok(Reply::Done(lines, mode))
    }
}
