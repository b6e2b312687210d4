// The elements of a leaf, and where they stand.

ghost use Rattle.std.specs.Prelude.{◌≡◌, ◌+◌, ◌*◌, ◌≤◌, ℕ, MatchOption, ⊤};
ghost use Rattle.pli_typing.specs.Signatures.{capped};
ghost use Rattle.pli_serving.specs.Values.{element_size};
ghost use Rattle.pli_signatures.specs.View.{kind_of};

use pli_signatures::element::LeafInForce;

/// A leaf of a generation as it was allocated: where its data begin, how many bytes a value takes in force, and where memory ends.
#[derive(Drop)]
pub struct LeafPlace {
    pub base: usize,
    pub allocated: LeafInForce,
    pub bytes: u64,
    pub end: u32,
}

impl LeafPlace {
    /// Where the element of a place stands, if that is in memory.
    pub fn address(&self, place: u64) -> Option<usize>
        ensures { (p : ℕ) → place ≡ capped p → MatchOption result ⊤ (λ a. (a ≡ self.now.base + element_size (kind_of self.now.allocated.kind) * p) × (a + self.now.bytes ≤ self.now.end)) }
    {
        let behind = self.allocated.kind.size().checked_mul(place)?;
        let address = (self.base as u64).checked_add(behind)?;
        if address.checked_add(self.bytes)? > u64::from(self.end) {
            return None;
        }
        Some(address as usize)
    }
}
