// The keeper whose marks tell where generations lie.

ghost use Rattle.area_keeper.specs.Keeper.{Keeper};
ghost use Rattle.granule_keeper.specs.Granules.{granules};

use crate::front::{CAPACITY, GRANULE, MARK, free_all, front_for, granules_of, has_front};
use crate::marking::{
    Header, capacity_of, copy_part, header_of, mark_copied, mark_freed, mark_placed, room_for,
    used_in,
};
use area_heap::fault::AreaFault;
use area_heap::keeper::AreaKeeper;
use area_heap::words::{set_word, word_at};

/// The keeper that has a mark for each granule of 16 bytes.
///
/// `open`, `find` and `extent` cost the same for all areas. `allocate` looks for free granules from the front, many marks at a time,
/// and writes a mark for each granule that it takes; `free` writes one for each that it frees. `make`, `empty` and `copy_from` cost a
/// byte for each granule of the capacity, and `copy_from` what it copies.
pub struct Granules;

impl AreaKeeper for Granules {
    ghost keeper = { granules };

    fn bytes_for(capacity: u32) -> usize {
        front_for(capacity) + capacity as usize
    }

    fn make(bytes: &mut [u8], capacity: u32) {
        set_word(bytes, 0, MARK);
        set_word(bytes, CAPACITY, capacity);
        free_all(bytes, capacity);
    }

    fn open(bytes: &[u8]) -> Result<(), AreaFault> {
        if has_front(bytes) {
            Ok(())
        } else {
            Err(AreaFault::Damaged)
        }
    }

    fn empty(bytes: &mut [u8]) {
        let capacity = word_at(bytes, CAPACITY);
        free_all(bytes, capacity);
    }

    fn allocate(
        bytes: &mut [u8],
        size: u64,
        signature: u32,
        extent: i32,
    ) -> Result<u32, AreaFault> {
        let capacity = capacity_of(bytes);
        if size > u64::from(capacity) {
            return Err(AreaFault::NoGap);
        }
        let size = size as u32;
        let number = granules_of(size);
        let Some(place) = room_for(bytes, number) else {
            return Err(AreaFault::NoGap);
        };
        mark_placed(bytes, place, number);
        let offset = place * GRANULE;
        let header = Header {
            size,
            signature,
            extent: extent.cast_unsigned(),
        };
        header.write(bytes, front_for(capacity) + offset);
        Ok(offset as u32)
    }

    fn free(bytes: &mut [u8], offset: u32, signature: u32) -> Result<(), AreaFault> {
        header_of(bytes, offset, signature)?;
        mark_freed(bytes, offset as usize / GRANULE);
        Ok(())
    }

    fn find(bytes: &[u8], offset: u32, signature: u32) -> Result<u32, AreaFault> {
        let header = header_of(bytes, offset, signature)?;
        Ok((header + GRANULE) as u32)
    }

    fn extent(bytes: &[u8], offset: u32, signature: u32) -> Result<i32, AreaFault> {
        let header = header_of(bytes, offset, signature)?;
        Ok(word_at(bytes, header + 8).cast_signed())
    }

    fn copy_from(bytes: &mut [u8], from: &[u8]) -> Result<(), AreaFault> {
        let number = used_in(from);
        let source = capacity_of(from);
        let capacity = capacity_of(bytes);
        if number * GRANULE > capacity as usize {
            return Err(AreaFault::TooSmall);
        }
        mark_copied(bytes, from, number);
        let from_front = front_for(source);
        copy_part(
            bytes,
            front_for(capacity),
            from,
            from_front,
            number * GRANULE,
        );
        Ok(())
    }

    fn keeps() {
        granule_keeper::laws::granules_keep();
    }
}
