// What AUTOMATIC variables count for.

ghost use Rattle.std.specs.Prelude.{◌≡◌, ◌≢◌, ◌+◌, ◌<◌, ◌^◌, [], ◌∷◌, List, ℕ, filter, length, max, nat_le, take, OnErr, OnOk};
ghost use Rattle.pli_types.specs.Templates.{Template};
ghost use Rattle.pli_serving.specs.Making.{automatic_in_use, footprint_of_shape};
ghost use Rattle.pli_serving.specs.ServiceState.{Living};
ghost use Rattle.pli_serving.specs.Templates.{shape_at};
ghost use Rattle.pli_making.specs.InUse.{newest_total, IsCounted};

use std::alloc::{AllocError, Global};
use std::marker::Model;

/// What AUTOMATIC variables count for, in bytes: a total for each height of an activation, from 1 on, of those that end with an
/// activation up to it. Heights above the last total have that one.
#[derive(Drop)]
pub struct InUse {
    totals: Vec<u64>,
}

impl Model for InUse {
    ghost Value = { List ℕ };

    ghost view = { λ u. u.totals.items };
}

impl InUse {
    /// Nothing lives.
    pub fn new(alloc: Global) -> InUse
        ensures none { result ≡ [] }
        ensures counted { (templates : List Template) → IsCounted templates [] result }
    {
        InUse {
            totals: Vec::new(alloc),
        }
    }

    /// What all of them count for.
    pub fn all(&self) -> u64
        ensures newest { result ≡ newest_total self.now }
        ensures counted { (templates : List Template) → (ls : List Living) → IsCounted templates ls self.now → result ≡ automatic_in_use templates ls }
    {
        match self.totals.last() {
            Some(total) => *total,
            None => 0,
        }
    }

    /// Totals for all heights up to one, which stay what they are. Where there is no memory nothing changes.
    pub fn reach(&mut self, height: u32) -> Result<(), AllocError>
        ensures long { OnOk result (length self.new ≡ max height (length self.old)) }
        ensures newest { newest_total self.new ≡ newest_total self.old }
        ensures counted { (templates : List Template) → (ls : List Living) → IsCounted templates ls self.old → IsCounted templates ls self.new }
        ensures refused { OnErr result (self.new ≡ self.old) }
    {
        let all = self.all();
        let count = self.totals.len();
        if height as usize <= count {
            return Ok(());
        }
        self.totals.resize(height as usize, all)?;
        Ok(())
    }

    /// Counts the bytes of a new variable by its owner: the last height that has a total, or with 0 none.
    pub fn add(&mut self, owner: u32, bytes: u64)
        requires last { owner ≢ 0 → owner ≡ length self.old }
        requires fits { owner ≢ 0 → newest_total self.old + bytes < 2 ^ 64 }
        ensures as_many { length self.new ≡ length self.old }
        ensures counted { (templates : List Template) → (ls : List Living) → (l : Living) → IsCounted templates ls self.old → l.owner ≡ owner → l.signature < length templates →
            (owner ≢ 0 → footprint_of_shape (shape_at templates l.signature) ≡ bytes) → IsCounted templates (l ∷ ls) self.new }
    {
        if owner == 0 {
            return;
        }
        let last = self.totals.len() - 1;
        self.totals[last] += bytes;
    }

    /// All blocks above a height end, with their variables.
    pub fn leave_above(&mut self, height: u32)
        ensures left { self.new ≡ take height self.old }
        ensures counted { (templates : List Template) → (ls : List Living) → IsCounted templates ls self.old → IsCounted templates (filter (λ l. nat_le l.owner height) ls) self.new }
    {
        self.totals.truncate(height as usize);
    }
}
