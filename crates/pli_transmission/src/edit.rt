// A place in a format list that GET or PUT has reached.

ghost use Rattle.std.specs.Prelude.{◌≡◌, ◌<◌, ◌^◌, Some, length, MatchResult};
ghost use Rattle.pli_edit.specs.FormatPlaces.{items_of};
ghost use Rattle.pli_serving.specs.Edits.{NextItem, direction_of};
ghost use Rattle.pli_language.specs.View.{option_of};
ghost use Rattle.pli_transmission.specs.Edits.{direction_shown, IsReached, IsItemOf};

use pli_edit::fault::EditFault;
use pli_edit::format::{Format, Node, Passed};
use pli_edit::place::FormatPlace;
use std::alloc::Global;
use std::marker::Model;

/// Which way items go.
#[derive(Clone, Copy, PartialEq, Eq, Debug)]
pub enum Direction {
    Getting,
    Putting,
}

/// The direction of a mode: 0 GET, 1 PUT.
pub fn direction_of(mode: u32) -> Option<Direction>
    ensures { option_of direction_shown result ≡ direction_of mode }
{
    match mode {
        0 => Some(Direction::Getting),
        1 => Some(Direction::Putting),
        _ => None,
    }
}

/// A place in a format list. The list is held behind the next item once that is known, so what comes behind it is seen
/// without a second list. Contracts see the place before it.
#[derive(Drop)]
pub struct Edit {
    direction: Direction,
    list: FormatPlace,
    next: Option<Passed>,
}

impl Model for Edit {
    ghost use Rattle.pli_transmission.specs.Edits.{before_next, next_of, place_of, EditKept, IsBehindNext};

    ghost Value = { EditKept };

    ghost view = { λ e. record {
      place = place_of e.direction (before_next e.next e.list);
      next = next_of e.direction e.next e.list;
    } };

    ghost invariant = { λ e. IsBehindNext e.next e.list };
}

impl Edit {
    /// The start of a list. `Memory` where there is none.
    pub fn new(alloc: Global, direction: Direction, nodes: Vec<Node>) -> Result<Edit, EditFault>
        requires { length nodes.items < 2 ^ 32 }
        ensures { MatchResult result
            (λ e. e.place ≡ record { direction = direction_shown direction; whole = items_of nodes.items; rest = items_of nodes.items })
            (λ e. e ≡ EditFault.Memory) }
    {
        Ok(Edit {
            direction,
            list: FormatPlace::new(alloc, nodes)?,
            next: None,
        })
    }

    /// Which way items go.
    pub fn direction(&self) -> Direction
        ensures { direction_shown result ≡ self.now.place.direction }
    {
        self.direction
    }

    /// The next item, which is known from now on; the place stays. `Memory` where there is none.
    pub fn reach(&mut self) -> Result<Option<Format>, EditFault>
        ensures item { MatchResult result (λ found. IsReached found self.old.place self.new.next) (λ e. e ≡ EditFault.Memory) }
        ensures same { self.new.place ≡ self.old.place }
    {
        if let Some(passed) = self.next {
            return Ok(Some(passed.format));
        }
        let Some(passed) = self.list.pass()? else {
            return Ok(None);
        };
        self.next = Some(passed);
        Ok(Some(passed.format))
    }

    /// The item behind the next one, where that is known. Nothing changes. `Memory` where there is none.
    pub fn beyond(&mut self) -> Result<Option<Format>, EditFault>
        ensures item { (n : NextItem) → self.old.next ≡ Some n → MatchResult result (λ found. IsItemOf found n.behind) (λ e. e ≡ EditFault.Memory) }
        ensures same { self.new ≡ self.old }
    {
        self.list.coming()
    }

    /// Behind the next item, where that is known.
    pub fn advance(&mut self)
        ensures { (n : NextItem) → self.old.next ≡ Some n → self.new.place ≡ n.behind }
    {
        self.next = None;
    }
}
