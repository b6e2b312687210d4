// What stands in front of an area's capacity: its mark word, its capacity, the link to the first free block, and the map.

ghost use Rattle.std.specs.Prelude.{◌≡◌, ◌+◌, ◌/◌, ◌≤◌, ◌<◌, ◌%◌, ◌^◌, length, Some, None, if◌then◌else◌};
ghost use Rattle.pli_typing.specs.Signatures.{footprint};
ghost use Rattle.area_keeper.specs.Chain.{capacity_in};
ghost use Rattle.free_keeper.specs.FreeList.{map_for, front_for, has_front};

use area_heap::words::word_at;

/// What tells such an area from other bytes: the letters FREE.
pub const MARK: u32 = 0x4545_5246;

/// Where the capacity stands.
pub const CAPACITY: usize = 4;

/// Where the link to the first free block stands.
pub const FIRST_LINK: usize = 8;

/// Where the map stands.
pub const MAP: usize = 12;

/// Offsets and footprints are multiples of so many bytes.
pub const GRANULE: usize = 16;

const MOST_CAPACITY: u32 = 1 << 22;

/// How many bytes the map has: a bit for each 16 bytes of the capacity.
pub fn map_for(capacity: u32) -> usize
    ensures { result ≡ map_for capacity }
{
    (capacity as usize).div_ceil(8 * GRANULE)
}

/// How many bytes stand in front of the capacity's.
pub fn front_for(capacity: u32) -> usize
    ensures { result ≡ front_for capacity }
{
    (MAP + map_for(capacity)).next_multiple_of(GRANULE)
}

/// The bytes that a generation takes, by its data size.
pub fn footprint(size: u32) -> usize
    ensures { result ≡ footprint size }
{
    GRANULE + (size as usize).next_multiple_of(GRANULE)
}

/// Whether bytes begin with an area's own words, and are as many as its capacity takes.
pub fn has_front(bytes: &[u8]) -> bool
    ensures { result ≡ has_front bytes.now }
{
    if bytes.len() < FIRST_LINK || word_at(bytes, 0) != MARK {
        return false;
    }
    let capacity = word_at(bytes, CAPACITY);
    let rounded = capacity % 16 == 0 && capacity <= MOST_CAPACITY;
    rounded && bytes.len() == front_for(capacity) + capacity as usize
}
