// What stands in front of an area's granules: its mark word, its capacity and the marks.

ghost use Rattle.std.specs.Prelude.{◌≡◌, ◌+◌, ◌/◌, ◌≤◌, ◌<◌, ◌%◌, ◌^◌, length, Some, None, if◌then◌else◌};
ghost use Rattle.area_keeper.specs.KeptAreas.{with_part};
ghost use Rattle.area_keeper.specs.Chain.{capacity_in};
ghost use Rattle.granule_keeper.specs.Granules.{front_for, has_front, freed_all, granules_of};

use area_heap::words::word_at;

/// What tells such an area from other bytes: the letters GRAN.
pub const MARK: u32 = 0x4e41_5247;

/// Where the capacity stands.
pub const CAPACITY: usize = 4;

/// Where the marks stand.
pub const MARKS: usize = 8;

/// How many bytes a granule has.
pub const GRANULE: usize = 16;

const MOST_CAPACITY: u32 = 1 << 22;

/// How many bytes stand in front of the granules.
pub fn front_for(capacity: u32) -> usize
    ensures { result ≡ front_for capacity }
{
    (MARKS + granules_in(capacity)).next_multiple_of(GRANULE)
}

/// How many granules a capacity has.
pub fn granules_in(capacity: u32) -> usize
    ensures { result ≡ capacity / 16 }
{
    capacity as usize / GRANULE
}

/// How many granules a generation takes, by its data size.
pub fn granules_of(size: u32) -> usize
    ensures { result ≡ granules_of size }
{
    1 + (size as usize).div_ceil(GRANULE)
}

/// Whether bytes begin with an area's own words, and are as many as its capacity takes.
pub fn has_front(bytes: &[u8]) -> bool
    ensures { result ≡ has_front bytes.now }
{
    if bytes.len() < MARKS || word_at(bytes, 0) != MARK {
        return false;
    }
    let capacity = word_at(bytes, CAPACITY);
    let rounded = capacity % 16 == 0 && capacity <= MOST_CAPACITY;
    rounded && bytes.len() == front_for(capacity) + capacity as usize
}

/// Makes all granules of a capacity free.
pub fn free_all(bytes: &mut [u8], capacity: u32)
    requires { 8 + capacity / 16 ≤ length bytes.old }
    ensures { bytes.new ≡ freed_all capacity bytes.old }
{
    bytes[MARKS..MARKS + granules_in(capacity)].fill(0);
}
