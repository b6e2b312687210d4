// Elements that stand one behind the other.

ghost use Rattle.std.specs.Prelude.{◌≡◌, ◌+◌, ◌-◌, ◌*◌, ◌<◌, ℕ, map, true, MatchOption, ⊤};
ghost use Rattle.pli_typing.specs.Signatures.{capped, element_count};
ghost use Rattle.pli_types.specs.View.{pair_of};
ghost use Rattle.pli_aggregates.specs.Standing.{AreElements, HasElements, IsInside, IsRunFrom};

use crate::bounds::{Lying, compare_bounds};
use crate::elements::LeafPlace;
use crate::part::{PlacedLeaf, behind, kind_holds};
use pli_answering::reply::Refusal;
use pli_signatures::element::{element_count, element_place};
use pli_types::signature::Bounds;

/// Elements row by row: where the first one stands, how far each stands behind the one before, and how many there are. Of those without
/// bytes there may be more, where the number is `u64::MAX`.
#[derive(Clone, Copy, PartialEq, Eq, Debug)]
pub struct Run {
    pub at: usize,
    pub step: usize,
    pub count: u64,
}

/// Where no elements stand.
const NO_RUN: Run = Run {
    at: 0,
    step: 0,
    count: 0,
};

/// Where the last of so many elements ends, a step apart, the first one at an address; none where that is past all numbers.
fn end_of(at: u64, step: u64, count: u64, bytes: u64) -> Option<u64>
    requires { 0 < count }
    ensures { MatchOption result ⊤ (λ last. last ≡ at + step * (count - 1) + bytes) }
{
    let behind = step.checked_mul(count - 1)?;
    let last = behind.checked_add(at)?;
    last.checked_add(bytes)
}

impl LeafPlace {
    /// Whether so many elements, a step apart, end in memory, the first one at an address.
    fn ends(&self, at: usize, step: u64, count: u64) -> bool
        requires { 0 < count }
        ensures { (n : ℕ) → count ≡ capped n → result ≡ true → IsInside self.now at step count n }
    {
        if self.bytes > step {
            return false;
        }
        match end_of(at as u64, step, count, self.bytes) {
            Some(last) => last <= u64::from(self.end),
            None => false,
        }
    }

    /// So many elements from the one of a place on, if all are in memory.
    fn run_from(&self, place: u64, count: u64) -> Option<Run>
        requires { 0 < count }
        ensures { (p n : ℕ) → place ≡ capped p → count ≡ capped n → MatchOption result ⊤ (λ run. IsRunFrom self.now p n run) }
    {
        let Some(at) = self.address(place) else {
            return None;
        };
        let step = self.allocated.kind.size();
        if !self.ends(at, step, count) {
            return None;
        }
        Some(Run {
            at,
            step: step as usize,
            count,
        })
    }

    /// The elements that have these subscripts given, by the bounds that are left of the leaf in force. None where not all are within
    /// the bounds. `Memory` where they aren't in memory, and where the bounds are no leaf's.
    fn run(&self, given: &[i32], left: &[Bounds], count: u64) -> Result<Option<Run>, Refusal>
        requires some { 0 < count }
        requires count { count ≡ capped (element_count (map pair_of left.now)) }
        ensures { AreElements self.now given.now (map pair_of left.now) result }
    {
        let bounds = self.allocated.bounds.as_slice();
        if given.len() > bounds.len() {
            return Err(Refusal::Memory);
        }
        let (before, own) = bounds.split_at(given.len());
        let Some(place) = element_place(before, given) else {
            return Ok(None);
        };
        let rows = place.saturating_mul(element_count(own));
        match compare_bounds(own, left) {
            Lying::Within => match self.run_from(rows, count) {
                Some(run) => Ok(Some(run)),
                None => Err(Refusal::Memory),
            },
            Lying::Past => Ok(None),
            Lying::Unlike => Err(Refusal::Memory),
        }
    }
}

impl PlacedLeaf {
    /// The elements that have these subscripts given, none where the leaf doesn't have all of them in full. However many they are, none is
    /// looked at.
    pub fn run(&self, given: &[i32]) -> Result<Option<Run>, Refusal>
        ensures { HasElements self.now given.now result }
    {
        let left = behind(self.in_force.bounds.as_slice(), given.len());
        let count = element_count(left);
        if count == 0 {
            return Ok(Some(NO_RUN));
        }
        if !kind_holds(self.place.allocated.kind, self.in_force.kind) {
            return Ok(None);
        }
        self.place.run(given, left, count)
    }
}
