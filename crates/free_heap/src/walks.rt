// Walks along the free blocks, which count their steps.

ghost use Rattle.std.specs.Prelude.{◌≡◌, ◌+◌, ◌-◌, ◌≤◌, ◌<◌, ◌^◌, ◌⊎◌, ◌%◌, suc, length, IsSome, IfSome};
ghost use Rattle.area_keeper.specs.KeeperLaws.{greatest_capacity};
ghost use Rattle.area_keeper.specs.Chain.{capacity_in};
ghost use Rattle.free_keeper.specs.FreeList.{front_for, link_place, link_behind, size_of, without_room, room_behind, steps_for, joined_behind, joined_from, end_in, free_list_area};
ghost use Rattle.free_heap.specs.Places.{as_joined, IsRoom};

use crate::front::{CAPACITY, FIRST_LINK, front_for};
use crate::links::{Block, link_place};
use area_heap::words::{set_word, word_at};

/// What leads to the first free block of so many bytes or more.
pub fn room(bytes: &[u8], needed: usize) -> Option<u32>
    requires area { IsSome (free_list_area bytes.now) }
    requires wide { 16 ≤ needed }
    requires rounded { needed % 16 ≡ 0 }
    ensures walk { result ≡ room_behind (steps_for (capacity_in bytes.now)) needed (front_for (capacity_in bytes.now)) 0
        (link_behind (front_for (capacity_in bytes.now)) 0 bytes.now) bytes.now }
    ensures found { IfSome result (λ before. IsRoom bytes.now (front_for (capacity_in bytes.now)) needed before) }
{
    let capacity = word_at(bytes, CAPACITY);
    let front = front_for(capacity);
    let mut before = 0;
    let mut link = word_at(bytes, FIRST_LINK);
    'walk: for step in 0..capacity / 16 + 1 {
        if link == 0 {
            return None;
        }
        let at = front + link as usize - 1;
        if word_at(bytes, at) as usize >= needed {
            return Some(before);
        }
        before = link;
        link = word_at(bytes, at + 4);
    }
    None
}

/// Takes so many bytes from the front of a free block, and gives its offset; what is left of it is free.
pub fn take_room(bytes: &mut [u8], front: usize, before: u32, needed: usize) -> usize
    requires front { front < 2 ^ 31 }
    requires room { IsRoom bytes.old front needed before }
    ensures offset { result ≡ link_behind front before bytes.old - 1 }
    ensures bytes { bytes.new ≡ without_room front before needed result (size_of front result bytes.old) (link_behind front (suc result) bytes.old) bytes.old }
{
    let place = link_place(front, before);
    let offset = word_at(bytes, place) as usize - 1;
    let size = word_at(bytes, front + offset) as usize;
    let link = word_at(bytes, front + offset + 4);
    if size == needed {
        set_word(bytes, place, link);
    } else {
        let block = Block {
            before,
            offset: (offset + needed) as u32,
            size: (size - needed) as u32,
            link,
        };
        block.write(bytes, front);
    }
    offset
}

/// What is freed at an offset, joined with the free blocks that it touches.
pub fn joined(bytes: &[u8], offset: u32, size: u32) -> Block
    requires area { IsSome (free_list_area bytes.now) }
    requires within { offset + size ≤ capacity_in bytes.now }
    ensures { as_joined result.before result.offset result.size result.link ≡ joined_from (steps_for (capacity_in bytes.now))
        (front_for (capacity_in bytes.now)) offset size 0 (link_behind (front_for (capacity_in bytes.now)) 0 bytes.now) bytes.now }
{
    let capacity = word_at(bytes, CAPACITY);
    let front = front_for(capacity);
    let mut before = 0;
    let mut link = word_at(bytes, FIRST_LINK);
    'steps: for step in 0..capacity / 16 + 1 {
        let mut block = Block {
            before,
            offset,
            size,
            link,
        };
        if link == 0 || offset < link - 1 {
            return joined_behind(bytes, front, block);
        }
        let at = front + link as usize - 1;
        block.link = word_at(bytes, at + 4);
        if link - 1 + word_at(bytes, at) == offset {
            block.offset = link - 1;
            block.size = word_at(bytes, at) + size;
            return joined_behind(bytes, front, block);
        }
        before = link;
        link = block.link;
    }
    let block = Block {
        before,
        offset,
        size,
        link,
    };
    joined_behind(bytes, front, block)
}

/// A block joined with the free block behind it where they touch.
fn joined_behind(bytes: &[u8], front: usize, block: Block) -> Block
    requires front { front < 2 ^ 31 }
    requires small { block.offset + block.size < 2 ^ 31 }
    requires inside { block.link ≡ suc (block.offset + block.size) → front + block.link + 7 ≤ length bytes.now }
    requires further { block.link ≡ suc (block.offset + block.size) → size_of front (block.offset + block.size) bytes.now < 2 ^ 31 }
    ensures { as_joined result.before result.offset result.size result.link
        ≡ joined_behind front block.before block.offset block.size block.link bytes.now }
{
    let end = block.offset + block.size;
    if block.link != end + 1 {
        return block;
    }
    let at = front + end as usize;
    Block {
        size: block.size + word_at(bytes, at),
        link: word_at(bytes, at + 4),
        ..block
    }
}

/// Where what is free behind the last generation begins, the capacity where nothing is, and what leads there.
pub fn end_in(bytes: &[u8]) -> (u32, u32)
    requires { IsSome (free_list_area bytes.now) }
    ensures { result.0 ≡ (end_in bytes.now).from × result.1 ≡ (end_in bytes.now).before }
{
    let capacity = word_at(bytes, CAPACITY);
    let front = front_for(capacity);
    let mut before = 0;
    let mut link = word_at(bytes, FIRST_LINK);
    'steps: for step in 0..capacity / 16 + 1 {
        if link == 0 {
            return (capacity, before);
        }
        let at = front + link as usize - 1;
        if link - 1 + word_at(bytes, at) == capacity {
            return (link - 1, before);
        }
        before = link;
        link = word_at(bytes, at + 4);
    }
    (capacity, before)
}
