// What names name.

ghost use Rattle.std.specs.Prelude.{◌≡◌, Some, option_map, IsSome};
ghost use Rattle.controlled_gens.specs.Rooted.{livings};
ghost use Rattle.pli_meaning.specs.BasicValues as B;
ghost use Rattle.pli_serving.specs.Finding.{Call, area_living, found, found_based, found_in_area, found_living, heap_bytes, if_of_signature, named};
ghost use Rattle.pli_serving.specs.ServiceState.{living_of};
ghost use Rattle.pli_serving.specs.Arguments.{asked, asked_at, name_in};
ghost use Rattle.pli_language.specs.View.{option_of};
ghost use Rattle.pli_values.specs.View.{name_of};
ghost use Rattle.pli_storage.specs.Findings.{area_with, finding_of};
ghost use Rattle.pli_storage.specs.Held.{with_held, IsLaid};

use crate::bytes::bytes_at;
use crate::held::{Held, is_area};
use area_heap::keeper::AreaKeeper;
use pli_values::name::{Name, name_in};
use pli_values::source::Source;

/// The serial of the heap, which no name in memory has as a variable.
pub const HEAP_SERIAL: u64 = 0;

/// The number that means the signature that a variable's generation has.
const OWN_SIGNATURE: u32 = u32::MAX;

/// A generation that lives: where its data begin, its signature's number, and the REFER extent with which it was allocated.
#[derive(Clone, Copy, PartialEq, Eq, Debug)]
pub struct Found {
    pub at: usize,
    pub signature: u32,
    pub extent: i32,
}

/// A generation; none that lives; or bytes that should be an area's and are not.
#[derive(Clone, Copy, PartialEq, Eq, Debug)]
pub enum Finding {
    At(Found),
    NotLiving,
    NoArea,
}

/// The generation of a signature at an offset in an area's bytes, which begin at an address.
#[tactic(auto, using(crate::proofs::Lookups::found_at, crate::proofs::Lookups::not_found, crate::proofs::Lookups::no_extent))]
fn find_open<K: AreaKeeper>(bytes: &[u8], at: u32, offset: u32, signature: u32) -> Finding
    requires { IsSome (K.keeper.area_of bytes.now) }
    ensures { (c : Call) → c.keeper ≡ K.keeper → if_of_signature signature (found_in_area c (area_with at bytes.now) offset (K.keeper.area_of bytes.now)) ≡ finding_of result }
{
    match K::find(bytes, offset, signature) {
        Ok(start) => match K::extent(bytes, offset, signature) {
            Ok(extent) => Finding::At(Found {
                at: at as usize + start as usize,
                signature,
                extent,
            }),
            Err(_) => Finding::NotLiving,
        },
        Err(_) => Finding::NotLiving,
    }
}

/// The same where the bytes may be no area's.
#[tactic(auto, using(crate::proofs::Lookups::no_area))]
fn find_in<K: AreaKeeper>(bytes: &[u8], at: u32, offset: u32, signature: u32) -> Finding
    ensures { (c : Call) → c.keeper ≡ K.keeper → if_of_signature signature (found_in_area c (area_with at bytes.now) offset (K.keeper.area_of bytes.now)) ≡ finding_of result }
{
    if is_area::<K>(bytes) {
        find_open::<K>(bytes, at, offset, signature)
    } else {
        Finding::NoArea
    }
}

impl Held {
    /// The generation of the variable that lives by a serial.
    fn find_variable(&self, serial: u64) -> Finding
        ensures { found_living (living_of (livings self.now.variables.roots) serial) ≡ finding_of result }
    {
        match self.variables.root(serial) {
            Some(root) => Finding::At(Found {
                at: root.place.at as usize,
                signature: root.signature,
                extent: 0,
            }),
            None => Finding::NotLiving,
        }
    }

    /// The same, where it has the signature.
    fn find_variable_of(&self, serial: u64, signature: u32) -> Finding
        ensures { if_of_signature signature (found_living (living_of (livings self.now.variables.roots) serial)) ≡ finding_of result }
    {
        match self.find_variable(serial) {
            Finding::At(found) => {
                if found.signature == signature {
                    Finding::At(found)
                } else {
                    Finding::NotLiving
                }
            }
            Finding::NotLiving => Finding::NotLiving,
            Finding::NoArea => Finding::NoArea,
        }
    }

    /// The generation at an offset in the area variable of a serial.
    fn find_in_variable<K: AreaKeeper>(
        &self,
        memory: &[u8],
        serial: u64,
        offset: u32,
        signature: u32,
    ) -> Finding
        ensures { (c : Call) → if_of_signature signature (found_based (with_held K.keeper self.now memory.now c) offset (area_living (with_held K.keeper self.now memory.now c) (living_of (livings self.now.variables.roots) serial))) ≡ finding_of result }
    {
        match self.area_living(serial) {
            Some(place) => {
                let bytes = bytes_at(memory, place.at as usize, K::bytes_for(place.capacity));
                find_in::<K>(bytes, place.at, offset, signature)
            }
            None => Finding::NotLiving,
        }
    }

    /// The generation at an offset in the heap.
    #[tactic(auto, using(crate::proofs::Lookups::based_unmade, crate::proofs::Lookups::heap_is))]
    fn find_in_heap<K: AreaKeeper>(&self, memory: &[u8], offset: u32, signature: u32) -> Finding
        requires { IsLaid K.keeper self.now.layout memory.now }
        ensures { (c : Call) → if_of_signature signature (found_based (with_held K.keeper self.now memory.now c) offset (Some (heap_bytes (with_held K.keeper self.now memory.now c)))) ≡ finding_of result }
    {
        if !self.heap_made {
            K::keeps();
            return Finding::NotLiving;
        }
        let at = self.layout.heap_at;
        let bytes = bytes_at(memory, at as usize, K::bytes_for(self.layout.heap_capacity));
        find_in::<K>(bytes, at, offset, signature)
    }

    /// The generation at an offset in the area of a serial.
    fn find_based<K: AreaKeeper>(
        &self,
        memory: &[u8],
        area: u64,
        offset: u32,
        signature: u32,
    ) -> Finding
        requires { IsLaid K.keeper self.now.layout memory.now }
        ensures { (c : Call) → if_of_signature signature (found (with_held K.keeper self.now memory.now c) (B.BasedName area offset)) ≡ finding_of result }
    {
        if area == HEAP_SERIAL {
            self.find_in_heap::<K>(memory, offset, signature)
        } else {
            self.find_in_variable::<K>(memory, area, offset, signature)
        }
    }

    /// What a name names, where that has the signature of the number.
    fn named<K: AreaKeeper>(&self, memory: &[u8], name: Name, signature: u32) -> Finding
        requires { IsLaid K.keeper self.now.layout memory.now }
        ensures { (c : Call) → named (with_held K.keeper self.now memory.now c) (name_of name) signature ≡ finding_of result }
    {
        match name {
            Name::Null => Finding::NotLiving,
            Name::Variable { serial } => self.find_variable_of(serial, signature),
            Name::Based { area, offset } => self.find_based::<K>(memory, area, offset, signature),
        }
    }

    /// The same; all ones ask for a variable's generation whatever its signature. None where no signature has the number.
    pub fn asked<K: AreaKeeper>(&self, memory: &[u8], name: Name, signature: u32) -> Option<Finding>
        requires { IsLaid K.keeper self.now.layout memory.now }
        ensures { (c : Call) → asked (with_held K.keeper self.now memory.now c) (name_of name) signature ≡ option_map finding_of result }
    {
        if signature == OWN_SIGNATURE {
            return match name {
                Name::Variable { serial } => Some(self.find_variable(serial)),
                _ => None,
            };
        }
        match self.signatures.get(signature) {
            Some(_) => Some(self.named::<K>(memory, name, signature)),
            None => None,
        }
    }

    /// The name at an address, none where none stands there.
    pub fn name_at<K: AreaKeeper>(&self, memory: &[u8], at: u32) -> Option<Name>
        requires { IsLaid K.keeper self.now.layout memory.now }
        ensures { (c : Call) → name_in (with_held K.keeper self.now memory.now c) at ≡ option_of name_of result }
    {
        name_in(&Source::new(self.layout, memory), at as usize)
    }

    /// The generation of a signature that the name at an address names.
    pub fn asked_at<K: AreaKeeper>(&self, memory: &[u8], at: u32, signature: u32) -> Option<Finding>
        requires { IsLaid K.keeper self.now.layout memory.now }
        ensures { (c : Call) → asked_at (with_held K.keeper self.now memory.now c) at signature ≡ option_map finding_of result }
    {
        match self.name_at::<K>(memory, at) {
            Some(name) => self.asked::<K>(memory, name, signature),
            None => None,
        }
    }
}
