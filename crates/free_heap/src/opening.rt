// Whether bytes are an area: generations in order, by the map, and a list of just what they leave.

ghost use Rattle.std.specs.Prelude.{◌≡◌, ◌⊎◌, ◌+◌, ◌-◌, ◌*◌, ◌≤◌, ◌<◌, ◌^◌, ◌%◌, length, List, true, if◌then◌else◌, Some, None};
ghost use Rattle.area_keeper.specs.KeptAreas.{kept_end};
ghost use Rattle.area_keeper.specs.Chain.{capacity_in, follows};
ghost use Rattle.free_keeper.specs.FreeList.{Free, front_for, has_front, gap_before, is_listed, is_whole, kept_in, placed_in};
ghost use Rattle.free_heap.specs.Places.{is_listed_from};

use crate::front::{CAPACITY, FIRST_LINK, GRANULE, footprint, front_for, map_for};
use crate::map::begins;
use area_heap::words::word_at;

/// Whether generations lie in order, and the list of free blocks is what they leave. Each header and each free block is read where
/// it is known to lie inside.
pub fn is_whole(bytes: &[u8]) -> bool
    requires { has_front bytes.now ≡ true }
    ensures { result ≡ is_whole (front_for (capacity_in bytes.now)) (capacity_in bytes.now) bytes.now (placed_in bytes.now) }
{
    let capacity = word_at(bytes, CAPACITY) as usize;
    let front = bytes.len() - capacity;
    let mut end = 0;
    let mut link = word_at(bytes, FIRST_LINK);
    'places: for place in 0..8 * map_for(capacity as u32) {
        if begins(bytes, place) {
            let offset = GRANULE * place;
            let Some(behind) = end_of(bytes, front, capacity, end, offset) else {
                return false;
            };
            let Some(further) = link_past(bytes, front, end, offset, link) else {
                return false;
            };
            end = behind;
            link = further;
        }
    }
    match link_past(bytes, front, end, capacity, link) {
        Some(further) => further == 0,
        None => false,
    }
}

/// Where the generation at an offset ends, none where it doesn't follow what ends at a place.
fn end_of(bytes: &[u8], front: usize, capacity: usize, end: usize, offset: usize) -> Option<usize>
    requires as_many { length bytes.now ≡ front + capacity }
    requires small { length bytes.now < 2 ^ 31 }
    requires offset { offset < 2 ^ 31 }
    requires aligned { offset % 16 ≡ 0 }
    ensures { result ≡ (if follows end capacity (kept_in (front + offset) offset bytes.now)
        then Some (kept_end (kept_in (front + offset) offset bytes.now)) else None) }
{
    if offset < end || capacity < offset + GRANULE {
        return None;
    }
    let behind = offset + footprint(word_at(bytes, front + offset));
    (behind <= capacity).then_some(behind)
}

/// The link behind the free block between two places, where there is one; none where the link leads elsewhere.
fn link_past(bytes: &[u8], front: usize, start: usize, end: usize, link: u32) -> Option<u32>
    requires ordered { start ≤ end }
    requires rounded { start ≡ end ⊎ start + 16 ≤ end }
    requires inside { front + end ≤ length bytes.now }
    requires small { length bytes.now < 2 ^ 31 }
    ensures { (fs : List Free) → is_listed front link bytes.now (gap_before start end fs) ≡ is_listed_from front bytes.now fs result }
{
    if start == end {
        return Some(link);
    }
    let at = front + start;
    let is_whole = link as usize == start + 1 && word_at(bytes, at) as usize == end - start;
    if is_whole {
        Some(word_at(bytes, at + 4))
    } else {
        None
    }
}
