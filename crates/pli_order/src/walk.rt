// The walk from part to part, to the element of a number.

ghost use Rattle.std.specs.Prelude.{◌≡◌, ◌+◌, ◌-◌, ◌≤◌, ◌<◌, IfOk, length, map};
ghost use Rattle.pli_signatures.specs.View.{leaf_in_force};
ghost use Rattle.pli_order.specs.Counted.{counted};
ghost use Rattle.pli_order.specs.Walks.{IsEntered, IsStep};

use crate::counts::{each, rows};
use crate::note::Note;
use crate::rows::{bounds_of, row_at};
use crate::turn::{Turn, turn_in};
use pli_signatures::element::LeafInForce;
use smallvec::SmallVec;
use std::alloc::{AllocError, Global};

/// An element: the number of its leaf among those of the shape, and its subscripts.
#[derive(Drop)]
pub struct Element {
    pub leaf: usize,
    pub subscripts: SmallVec<i32, 8>,
}

/// Where a walk is: before so many parts from a place on, with the number that the element has among theirs, behind these subscripts.
#[derive(Drop)]
pub struct Walk {
    pub place: usize,
    pub left: usize,
    pub number: u64,
    pub subscripts: SmallVec<i32, 8>,
}

/// A step of a walk: to other parts, to the element, or to no element.
#[derive(Drop)]
pub enum Step {
    On,
    Found(Element),
    Nothing,
}

impl Walk {
    /// Past a part with so many inside.
    fn pass(&mut self, inside: usize, rest: u64) -> Step
        requires low { inside < self.old.left }
        requires within { self.old.place + self.old.left ≤ 18446744073709551615 }
        ensures step { result ≡ Step.On }
        ensures place { self.new.place ≡ self.old.place + (1 + inside) }
        ensures left { self.new.left ≡ self.old.left - (1 + inside) }
        ensures number { self.new.number ≡ rest }
        ensures subscripts { self.new.subscripts ≡ self.old.subscripts }
    {
        self.place += 1 + inside;
        self.left -= 1 + inside;
        self.number = rest;
        Step::On
    }

    /// Into a row of a part.
    fn enter(
        &mut self,
        alloc: Global,
        leaves: &[LeafInForce],
        note: Note,
        row: u64,
        rest: u64,
    ) -> Result<Step, AllocError>
        requires { self.old.place < 18446744073709551615 }
        ensures { IfOk result (λ step. IsEntered (map leaf_in_force leaves.now) note row rest self.old self.new step) }
    {
        let bounds = bounds_of(leaves, note.leaf);
        let given = self.subscripts.as_slice();
        let Some(subscripts) = row_at(alloc, bounds, given, note.part.dimensions, row)? else {
            return Ok(Step::Nothing);
        };
        if note.part.inside == 0 {
            return Ok(Step::Found(Element {
                leaf: note.leaf,
                subscripts,
            }));
        }
        self.subscripts = subscripts;
        self.place += 1;
        self.left = note.part.inside as usize;
        self.number = rest;
        Ok(Step::On)
    }

    /// One step, by the counts of all parts.
    pub fn step(
        &mut self,
        alloc: Global,
        notes: &[Note],
        counts: &[u64],
        leaves: &[LeafInForce],
    ) -> Result<Step, AllocError>
        requires counts { counts.now ≡ counted notes.now (map leaf_in_force leaves.now) }
        requires even { length counts.now ≡ length notes.now }
        requires within { self.old.place + self.old.left ≤ length notes.now }
        ensures { IfOk result (λ step. IsStep notes.now (map leaf_in_force leaves.now) self.old self.new step) }
    {
        if self.place >= notes.len() {
            return Ok(Step::Nothing);
        }
        let note = notes[self.place];
        let inside = note.part.inside as usize;
        if self.left <= inside {
            return Ok(Step::Nothing);
        }
        let each = each(&counts[self.place + 1..], note.part);
        match turn_in(rows(leaves, note), each, self.number) {
            Turn::Past(rest) => Ok(self.pass(inside, rest)),
            Turn::Into { row, rest } => self.enter(alloc, leaves, note, row, rest),
        }
    }
}
