// Free blocks as they are written: a size, the link to the next one, and the link that leads here.

ghost use Rattle.std.specs.Prelude.{◌≡◌, ◌+◌, ◌-◌, ◌≤◌, ◌<◌, ◌^◌, ◌%◌, ◌⊎◌, length, replicate};
ghost use Rattle.area_keeper.specs.KeptAreas.{with_part};
ghost use Rattle.free_keeper.specs.FreeList.{free, front_for, link_place, with_free, with_end, freed_all};

use crate::front::{FIRST_LINK, MAP, front_for, map_for};
use area_heap::words::set_word;

/// A free block as it is to be written: its offset and size, its link, and what leads to it.
#[derive(Clone, Copy)]
pub struct Block {
    pub before: u32,
    pub offset: u32,
    pub size: u32,
    pub link: u32,
}

/// Where the link stands that leads to a free block.
pub fn link_place(front: usize, before: u32) -> usize
    requires { front < 2 ^ 32 }
    ensures { result ≡ link_place front before }
{
    if before == 0 {
        FIRST_LINK
    } else {
        front + before as usize + 3
    }
}

impl Block {
    /// Writes the block, and the link to it.
    pub fn write(self, bytes: &mut [u8], front: usize)
        requires front { front < 2 ^ 32 }
        requires inside { front + self.offset + 8 ≤ length bytes.old }
        requires place { link_place front self.before + 4 ≤ length bytes.old }
        requires small { self.offset + 1 < 2 ^ 32 }
        ensures { bytes.new ≡ with_free front self.before (free self.offset self.size) self.link bytes.old }
    {
        let at = front + self.offset as usize;
        set_word(bytes, at, self.size);
        set_word(bytes, at + 4, self.link);
        set_word(bytes, link_place(front, self.before), self.offset + 1);
    }
}

/// Makes all free from a place on, behind the last free block in front of it.
pub fn write_end(bytes: &mut [u8], front: usize, before: u32, from: u32, capacity: u32)
    requires front { front < 2 ^ 32 }
    requires within { from ≤ capacity }
    requires inside { front + capacity ≤ length bytes.old }
    requires rounded { from ≡ capacity ⊎ from + 8 ≤ capacity }
    requires place { link_place front before + 4 ≤ length bytes.old }
    ensures { bytes.new ≡ with_end front before from capacity bytes.old }
{
    if from == capacity {
        let at = link_place(front, before);
        set_word(bytes, at, 0);
    } else {
        let block = Block {
            before,
            offset: from,
            size: capacity - from,
            link: 0,
        };
        block.write(bytes, front);
    }
}

/// Makes all of a capacity free.
pub fn free_all(bytes: &mut [u8], capacity: u32)
    requires inside { front_for capacity + capacity ≤ length bytes.old }
    requires rounded { capacity % 16 ≡ 0 }
    ensures { bytes.new ≡ freed_all capacity bytes.old }
{
    clear(bytes, MAP, map_for(capacity));
    write_end(bytes, front_for(capacity), 0, 0, capacity);
}

/// Writes so many zeros from a place on.
fn clear(bytes: &mut [u8], at: usize, count: usize)
    requires { at + count ≤ length bytes.old }
    ensures { bytes.new ≡ with_part (replicate count 0) at bytes.old }
{
    bytes[at..at + count].fill(0);
}
