// Variables by their serials.

ghost use Rattle.std.specs.Prelude.{◌≡◌, ℕ, Some, slice_get, filter, not, nat_le};
ghost use Rattle.controlled_gens.specs.declared.roots.Root.{Root};
ghost use Rattle.controlled_gens.specs.Rooted.{none_rooted, root_with, root_of, IsEntered, without_serial, up_to_owner, place_of_signature};

use crate::fault::GenFault;
use indexmap::IndexMap;
use std::alloc::Global;
use std::marker::Model;

/// Where a variable's data begin, and how many bytes they are.
#[derive(Clone, Copy, Debug, PartialEq, Eq)]
pub struct Place {
    pub at: u32,
    pub len: u32,
}

/// What lives by a serial: the height of the activation with which it ends (0 where it doesn't), its signature's number, and its place.
#[derive(Clone, Copy, Debug, PartialEq, Eq)]
pub struct Root {
    pub owner: u32,
    pub signature: u32,
    pub place: Place,
}

/// The variables that live, by their serials. Serials begin at 1, each is one more than the last, and none is given twice.
///
/// Looking a serial up costs the same however many live.
#[derive(Drop)]
pub struct Roots {
    given: u64,
    roots: IndexMap<u64, Root>,
}

impl Model for Roots {
    ghost use Rattle.controlled_gens.specs.Rooted.{Rooted, Rise};

    ghost Value = { Rooted };

    ghost view = { λ r. record { serials = r.given; roots = r.roots.entries } };

    ghost invariant = { λ r. Rise 0 r.roots.entries r.given };
}

impl Roots {
    /// Nothing lives, and no serial was given.
    pub fn new(alloc: Global) -> Roots
        ensures { result ≡ none_rooted }
    {
        Roots {
            given: 0,
            roots: IndexMap::new(alloc),
        }
    }

    /// Gives the next serial to a variable that ends with no activation.
    ///
    /// # Errors
    ///
    /// `NoSerial` where the greatest was given, else `Memory` where memory ran out.
    pub fn enter(&mut self, place: Place, signature: u32) -> Result<u64, GenFault>
        ensures { IsEntered self.old self.new (root_with place signature 0) result }
    {
        self.enter_owned(place, signature, 0)
    }

    /// Gives the next serial to a variable that ends with its owner, the height of an activation.
    ///
    /// # Errors
    ///
    /// As `enter`.
    pub fn enter_owned(&mut self, place: Place, signature: u32, owner: u32) -> Result<u64, GenFault>
        ensures { IsEntered self.old self.new (root_with place signature owner) result }
    {
        let root = Root {
            owner,
            signature,
            place,
        };
        let Some(serial) = self.given.checked_add(1) else {
            return Err(GenFault::NoSerial);
        };
        match self.roots.insert(serial, root) {
            Ok(_) => {
                self.given = serial;
                Ok(serial)
            }
            Err(_) => Err(GenFault::Memory),
        }
    }

    /// What lives by a serial ends. Nothing changes where nothing does.
    pub fn leave(&mut self, serial: u64)
        ensures { self.new ≡ without_serial serial self.old }
    {
        self.roots.shift_remove(&serial);
    }

    /// All ends that has a greater owner.
    pub fn leave_above(&mut self, owner: u32)
        ensures { self.new ≡ up_to_owner owner self.old }
    {
        end_above(&mut self.roots, owner);
    }

    /// The place of what lives by a serial with a signature.
    ///
    /// # Errors
    ///
    /// `Dead` where nothing lives by it, or with another signature.
    pub fn resolve(&self, serial: u64, signature: u32) -> Result<Place, GenFault>
        ensures { result ≡ place_of_signature signature (root_of self.now.roots serial) }
    {
        match self.root(serial) {
            Some(root) if root.signature == signature => Ok(root.place),
            _ => Err(GenFault::Dead),
        }
    }

    /// What lives by a serial, whatever its signature.
    pub fn root(&self, serial: u64) -> Option<Root>
        ensures { result ≡ root_of self.now.roots serial }
    {
        self.roots.get(&serial).copied()
    }
}

/// The newest are looked at first, so that each that ends is taken from the end but for those of no owner behind it.
fn end_above(roots: &mut IndexMap<u64, Root>, owner: u32)
    ensures { roots.new.entries ≡ filter (λ e. nat_le e.1.owner owner) roots.old.entries }
{
    let mut index = roots.len();
    while index > 0 {
        index -= 1;
        let ends = is_above(roots, index, owner);
        if ends {
            roots.shift_remove_index(index);
        }
    }
}

/// Whether the owner of the root at an index is greater.
fn is_above(roots: &IndexMap<u64, Root>, index: usize, owner: u32) -> bool
    ensures { (e : ℕ × Root) → slice_get roots.now.entries index ≡ Some e → result ≡ not (nat_le e.1.owner owner) }
{
    match roots.get_index(index) {
        Some((_, root)) => root.owner > owner,
        None => false,
    }
}
