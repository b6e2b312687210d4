// What the variables of a run hold.

ghost use Rattle.std.specs.Prelude.{◌≡◌, option_map, is_some, List, ℕ};
ghost use Rattle.area_keeper.specs.Keeper.{Keeper};
ghost use Rattle.controlled_gens.specs.Rooted.{livings};
ghost use Rattle.pli_serving.specs.Finding.{Call, area_bytes, area_living};
ghost use Rattle.pli_serving.specs.ServiceState.{living_of};
ghost use Rattle.pli_storage.specs.Held.{with_held};

use crate::variables::Variables;
use area_heap::keeper::AreaKeeper;
use controlled_gens::controlled::Controlled;
use pli_signatures::signatures::Signatures;
use pli_values::layout::Layout;

/// Where the parts of memory lie, the signatures by their numbers, the variables that live, whether the heap's bytes are an area's
/// already, and the generations of CONTROLLED variables.
#[derive(Drop)]
pub struct Held {
    pub layout: Layout,
    pub signatures: Signatures,
    pub variables: Variables,
    pub heap_made: bool,
    pub controlled: Controlled,
}

/// Where an area's bytes begin, and its capacity.
#[derive(Clone, Copy, PartialEq, Eq, Debug)]
pub struct AreaPlace {
    pub at: u32,
    pub capacity: u32,
}

/// Whether the bytes are those of an area.
pub fn is_area<K: AreaKeeper>(bytes: &[u8]) -> bool
    ensures { result ≡ is_some (K.keeper.area_of bytes.now) }
{
    K::open(bytes).is_ok()
}

impl Held {
    /// The area that lives by a serial, other than the heap.
    #[tactic(auto, using(crate::proofs::Areas::area_of_capacity))]
    pub fn area_living(&self, serial: u64) -> Option<AreaPlace>
        ensures { (k : Keeper) → (m : List ℕ) → (c : Call) → area_living (with_held k self.now m c) (living_of (livings self.now.variables.roots) serial) ≡ option_map (λ a. area_bytes (with_held k self.now m c) a.capacity a.at) result }
    {
        let root = self.variables.root(serial)?;
        let capacity = self.signatures.capacity(root.signature)?;
        Some(AreaPlace {
            at: root.place.at,
            capacity,
        })
    }
}
