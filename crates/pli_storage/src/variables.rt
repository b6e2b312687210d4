// The variables that live.

ghost use Rattle.std.specs.Prelude.{◌≡◌, ◌+◌, ◌<◌, ◌++◌, [], ◌∷◌, option_map, MatchResult};
ghost use Rattle.controlled_gens.specs.Rooted.{none_rooted, root_with, IsEntered, living, livings, up_to_owner};
ghost use Rattle.pli_serving.specs.ServiceState.{living_of};
ghost use Rattle.pli_storage.specs.Variables.{living_root};

use controlled_gens::fault::GenFault;
use controlled_gens::roots::{Place, Root, Roots};
use std::alloc::Global;
use std::marker::Model;

/// The variables that live, by their serials, which rise.
#[derive(Drop)]
pub struct Variables {
    roots: Roots,
}

impl Model for Variables {
    ghost use Rattle.controlled_gens.specs.Rooted.{Rooted, Rise};

    ghost Value = { Rooted };

    ghost view = { λ v. v.roots };

    ghost invariant = { λ v. Rise 0 v.roots.roots v.roots.serials };
}

impl Variables {
    /// Nothing lives.
    pub fn new(alloc: Global) -> Variables
        ensures { result ≡ none_rooted }
    {
        Variables {
            roots: Roots::new(alloc),
        }
    }

    /// Gives the next serial to a variable that ends with its owner, the height of an activation, or with 0 never.
    ///
    /// # Errors
    ///
    /// `NoSerial` where the greatest was given, else `Memory` where memory ran out. Nothing changes then.
    pub fn enter(&mut self, place: Place, signature: u32, owner: u32) -> Result<u64, GenFault>
        ensures { IsEntered self.old self.new (root_with place signature owner) result }
    {
        self.roots.enter_owned(place, signature, owner)
    }

    /// All end that have a greater owner.
    pub fn leave_above(&mut self, owner: u32)
        ensures { self.new ≡ up_to_owner owner self.old }
    {
        self.roots.leave_above(owner);
    }

    /// What lives by a serial.
    #[tactic(auto, using(crate::proofs::Serials::found_by_serial))]
    pub fn root(&self, serial: u64) -> Option<Root>
        ensures { option_map (living_root serial) result ≡ living_of (livings self.now.roots) serial }
    {
        self.roots.root(serial)
    }
}
