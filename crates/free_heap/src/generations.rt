// Generations' headers, and what of an area is copied into another.

ghost use Rattle.std.specs.Prelude.{◌≡◌, ◌+◌, ◌-◌, ◌*◌, ◌≤◌, ◌++◌, length, take, replicate, IsSome, MatchResult};
ghost use Rattle.area_keeper.specs.KeptAreas.{with_part, part};
ghost use Rattle.area_keeper.specs.Chain.{with_word};
ghost use Rattle.area_heap.specs.Answers.{kept_of};
ghost use Rattle.free_keeper.specs.FreeList.{free_list_area};
ghost use Rattle.free_heap.specs.Places.{IsFound};

use crate::front::{CAPACITY, GRANULE, MAP, front_for};
use crate::map::begins;
use area_heap::fault::AreaFault;
use area_heap::words::{set_word, word_at};

/// A generation's header: its data size in bytes, its signature, and its extent as a word.
#[derive(Clone, Copy)]
pub struct Header {
    pub size: u32,
    pub signature: u32,
    pub extent: u32,
}

impl Header {
    /// Writes the three words, one behind the other.
    pub fn write(self, bytes: &mut [u8], at: usize)
        requires { at + 12 ≤ length bytes.old }
        ensures { bytes.new ≡ with_word (8 + at) self.extent (with_word (4 + at) self.signature (with_word at self.size bytes.old)) }
    {
        set_word(bytes, at, self.size);
        set_word(bytes, at + 4, self.signature);
        set_word(bytes, at + 8, self.extent);
    }
}

/// Where the header of the generation at an offset stands, which has the signature.
pub fn header_of(bytes: &[u8], offset: u32, signature: u32) -> Result<usize, AreaFault>
    requires { IsSome (free_list_area bytes.now) }
    ensures { MatchResult result
        (λ header. IsFound bytes.now offset signature header)
        (λ fault. fault ≡ AreaFault.NoGeneration × kept_of offset signature (free_list_area bytes.now) ≡ None) }
{
    let capacity = word_at(bytes, CAPACITY);
    if offset % 16 != 0 || offset >= capacity {
        return Err(AreaFault::NoGeneration);
    }
    let header = front_for(capacity) + offset as usize;
    if begins(bytes, offset as usize / GRANULE) && word_at(bytes, header + 4) == signature {
        Ok(header)
    } else {
        Err(AreaFault::NoGeneration)
    }
}

/// Takes over the map of another area, as far as both go; behind that nothing begins.
pub fn copy_map(bytes: &mut [u8], from: &[u8], count: usize, from_count: usize)
    requires to_inside { 12 + count ≤ length bytes.old }
    requires from_inside { 12 + from_count ≤ length from.now }
    ensures { bytes.new ≡ with_part (take count (part 12 from_count from.now ++ replicate count 0)) 12 bytes.old }
{
    let shared = count.min(from_count);
    copy_bits(
        &mut bytes[MAP..MAP + count],
        &from[MAP..MAP + from_count],
        shared,
    );
}

/// Takes over so many bytes of a map; those behind them are zeros.
fn copy_bits(map: &mut [u8], from: &[u8], shared: usize)
    requires from_inside { shared ≤ length from.now }
    requires to_inside { shared ≤ length map.old }
    ensures { map.new ≡ take shared from.now ++ replicate (length map.old - shared) 0 }
{
    map[..shared].copy_from_slice(&from[..shared]);
    map[shared..].fill(0);
}

/// Copies so many bytes from where they stand in others.
pub fn copy_part(bytes: &mut [u8], at: usize, from: &[u8], from_at: usize, count: usize)
    requires to_inside { at + count ≤ length bytes.old }
    requires from_inside { from_at + count ≤ length from.now }
    ensures { bytes.new ≡ with_part (part from_at count from.now) at bytes.old }
{
    bytes[at..at + count].copy_from_slice(&from[from_at..from_at + count]);
}
