// The keeper whose free blocks are a list.

ghost use Rattle.area_keeper.specs.Keeper.{Keeper};
ghost use Rattle.free_keeper.specs.FreeList.{free_list};

use crate::front::{CAPACITY, FIRST_LINK, GRANULE, MARK, footprint, front_for, has_front, map_for};
use crate::generations::{Header, copy_map, copy_part, header_of};
use crate::links::{free_all, write_end};
use crate::map::{mark, unmark};
use crate::opening::is_whole;
use crate::walks::{end_in, joined, room, take_room};
use area_heap::fault::AreaFault;
use area_heap::keeper::AreaKeeper;
use area_heap::words::{set_word, word_at};

/// The keeper that has a list of free blocks, and a map of bits that tells where generations begin.
///
/// `allocate` walks the free blocks up to the first that is large enough, `free` up to the offset. `find` and `extent` cost the
/// same for all areas. `open` reads the map, each generation's header and each free block. `make` and `empty` cost a bit for each 16
/// bytes of the capacity; `copy_from` walks the free blocks of the other area, and copies its map and its bytes up to the last
/// generation's end.
pub struct FreeList;

impl AreaKeeper for FreeList {
    ghost keeper = { free_list };

    fn bytes_for(capacity: u32) -> usize {
        front_for(capacity) + capacity as usize
    }

    fn make(bytes: &mut [u8], capacity: u32) {
        set_word(bytes, 0, MARK);
        set_word(bytes, CAPACITY, capacity);
        free_all(bytes, capacity);
    }

    fn open(bytes: &[u8]) -> Result<(), AreaFault> {
        if has_front(bytes) && is_whole(bytes) {
            Ok(())
        } else {
            Err(AreaFault::Damaged)
        }
    }

    fn empty(bytes: &mut [u8]) {
        let capacity = word_at(bytes, CAPACITY);
        free_all(bytes, capacity);
    }

    fn allocate(
        bytes: &mut [u8],
        size: u64,
        signature: u32,
        extent: i32,
    ) -> Result<u32, AreaFault> {
        let capacity = word_at(bytes, CAPACITY);
        if size > u64::from(capacity) {
            return Err(AreaFault::NoGap);
        }
        let size = size as u32;
        let needed = footprint(size);
        let Some(before) = room(bytes, needed) else {
            return Err(AreaFault::NoGap);
        };
        let front = front_for(capacity);
        let offset = take_room(bytes, front, before, needed);
        mark(bytes, offset / GRANULE);
        let header = Header {
            size,
            signature,
            extent: extent.cast_unsigned(),
        };
        header.write(bytes, front + offset);
        Ok(offset as u32)
    }

    fn free(bytes: &mut [u8], offset: u32, signature: u32) -> Result<(), AreaFault> {
        let header = header_of(bytes, offset, signature)?;
        let size = footprint(word_at(bytes, header)) as u32;
        let front = header - offset as usize;
        joined(bytes, offset, size).write(bytes, front);
        unmark(bytes, offset as usize / GRANULE);
        Ok(())
    }

    fn find(bytes: &[u8], offset: u32, signature: u32) -> Result<u32, AreaFault> {
        let header = header_of(bytes, offset, signature)?;
        Ok((header + GRANULE) as u32)
    }

    fn extent(bytes: &[u8], offset: u32, signature: u32) -> Result<i32, AreaFault> {
        let header = header_of(bytes, offset, signature)?;
        Ok(word_at(bytes, header + 8).cast_signed())
    }

    fn copy_from(bytes: &mut [u8], from: &[u8]) -> Result<(), AreaFault> {
        let (end, before) = end_in(from);
        let capacity = word_at(bytes, CAPACITY);
        if end > capacity {
            return Err(AreaFault::TooSmall);
        }
        let source = word_at(from, CAPACITY);
        set_word(bytes, FIRST_LINK, word_at(from, FIRST_LINK));
        copy_map(bytes, from, map_for(capacity), map_for(source));
        let front = front_for(capacity);
        copy_part(bytes, front, from, front_for(source), end as usize);
        write_end(bytes, front, before, end, capacity);
        Ok(())
    }

    fn keeps() {
        free_keeper::laws::free_list_keeps();
    }
}
