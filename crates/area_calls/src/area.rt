// Calls on an area that is one: as runs make them, which open the bytes before each, or alone.

ghost use Rattle.std.specs.Prelude.{◌≡◌, ◌≤◌, ◌%◌, IsSome, IfOk, is_some, negsuc, option_map, replicate, true};
ghost use Rattle.area_keeper.specs.KeeperLaws.{greatest_capacity};
ghost use Rattle.area_heap.specs.Answers.{bytes_or, kept_of, placed_or};

use area_heap::keeper::AreaKeeper;
use area_keeper::laws::keeps_alike;
use std::alloc::{AllocError, Global};

const SIGNATURE: u32 = 5;

const EXTENT: i32 = -3;

/// An empty area.
pub fn empty_area<K: AreaKeeper>(alloc: Global, capacity: u32) -> Result<Vec<u8>, AllocError>
    requires rounded { capacity % 16 ≡ 0 }
    requires bounded { capacity ≤ greatest_capacity }
    ensures made { IfOk result (λ area. area.items
        ≡ K.keeper.made capacity (replicate (K.keeper.bytes_for capacity) 0)) }
    ensures area { IfOk result (λ area. IsSome (K.keeper.area_of area.items)) }
{
    let mut area = vec![in alloc; 0; K::bytes_for(capacity)]?;
    K::make(area.as_mut_slice(), capacity);
    K::keeps();
    Ok(area)
}

/// Whether a call may be made, as it may on an area.
fn may_call<K: AreaKeeper>(bytes: &[u8], opened: bool) -> bool
    requires { IsSome (K.keeper.area_of bytes.now) }
    ensures { result ≡ true }
{
    !opened || K::open(bytes).is_ok()
}

/// Places so many bytes, and gives their offset where there is a gap.
#[tactic(auto, using(crate::proofs::StillAreas::still_placed))]
pub fn place<K: AreaKeeper>(bytes: &mut [u8], size: u32, opened: bool) -> Option<u32>
    requires { IsSome (K.keeper.area_of bytes.old) }
    ensures offset { result ≡ option_map (λ p. p.0) (K.keeper.allocated size 5 (negsuc 2) bytes.old) }
    ensures bytes { bytes.new ≡ placed_or bytes.old (K.keeper.allocated size 5 (negsuc 2) bytes.old) }
    ensures area { IsSome (K.keeper.area_of bytes.new) }
{
    K::keeps();
    keeps_alike();
    if !may_call::<K>(bytes, opened) {
        return None;
    }
    K::allocate(bytes, u64::from(size), SIGNATURE, EXTENT).ok()
}

/// Frees the generation at an offset, where one is there.
#[tactic(auto, using(crate::proofs::StillAreas::still_freed))]
pub fn free<K: AreaKeeper>(bytes: &mut [u8], offset: u32, opened: bool) -> bool
    requires { IsSome (K.keeper.area_of bytes.old) }
    ensures answer { result ≡ is_some (K.keeper.freed offset 5 bytes.old) }
    ensures bytes { bytes.new ≡ bytes_or bytes.old (K.keeper.freed offset 5 bytes.old) }
    ensures area { IsSome (K.keeper.area_of bytes.new) }
{
    K::keeps();
    may_call::<K>(bytes, opened) && K::free(bytes, offset, SIGNATURE).is_ok()
}

/// Whether a generation is at an offset.
pub fn is_found<K: AreaKeeper>(bytes: &[u8], offset: u32, opened: bool) -> bool
    requires { IsSome (K.keeper.area_of bytes.now) }
    ensures { result ≡ is_some (kept_of offset 5 (K.keeper.area_of bytes.now)) }
{
    may_call::<K>(bytes, opened) && K::find(bytes, offset, SIGNATURE).is_ok()
}

/// Takes over what another area holds, where it fits.
#[tactic(auto, using(crate::proofs::StillAreas::still_copied))]
pub fn copy<K: AreaKeeper>(bytes: &mut [u8], from: &[u8], opened: bool) -> bool
    requires to { IsSome (K.keeper.area_of bytes.old) }
    requires from { IsSome (K.keeper.area_of from.now) }
    ensures answer { result ≡ is_some (K.keeper.copied from.now bytes.old) }
    ensures bytes { bytes.new ≡ bytes_or bytes.old (K.keeper.copied from.now bytes.old) }
    ensures area { IsSome (K.keeper.area_of bytes.new) }
{
    K::keeps();
    keeps_alike();
    let is_open = may_call::<K>(bytes, opened) && may_call::<K>(from, opened);
    is_open && K::copy_from(bytes, from).is_ok()
}

/// Removes all generations.
pub fn empty<K: AreaKeeper>(bytes: &mut [u8], opened: bool)
    requires { IsSome (K.keeper.area_of bytes.old) }
    ensures bytes { bytes.new ≡ K.keeper.emptied bytes.old }
    ensures area { IsSome (K.keeper.area_of bytes.new) }
{
    K::keeps();
    if may_call::<K>(bytes, opened) {
        K::empty(bytes);
    }
}
