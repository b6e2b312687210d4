// The keeper whose headers are a list, walked from the front.

ghost use Rattle.std.specs.Prelude.{◌≡◌, ◌+◌, ◌≤◌, ◌/◌, length, suc, is_some, Some, None, IsSome, MatchResult, ◌^◌, ◌<◌, if◌then◌else◌};
ghost use Rattle.area_keeper.specs.Keeper.{Keeper};
ghost use Rattle.area_keeper.specs.KeptAreas.{kept_end};
ghost use Rattle.area_keeper.specs.KeeperLaws.{greatest_capacity};
ghost use Rattle.area_keeper.specs.Chain.{chain, chain_area, mark, capacity_in, has_front, follows, kept_in, walked, word_at, first_link, with_word};
ghost use Rattle.area_heap.specs.Answers.{kept_of};
ghost use Rattle.area_heap.specs.Places.{IsFound};

use crate::fault::AreaFault;
use crate::keeper::AreaKeeper;
use crate::place::{FIRST_LINK, HEADER, Place, footprint};
use crate::words::{copy_between, set_word, word_at};

/// What tells an area from other bytes: the letters CHAN.
const MARK: u32 = 0x4e41_4843;

const MOST_CAPACITY: u32 = 1 << 22;

/// The keeper whose headers, of 16 bytes, are a list from the front, in the order of offsets.
///
/// A walk reads two words of each generation that it passes. `open` and `allocate` walk up to the last one at most, `find`, `extent`
/// and `free` up to the offset, `copy_from` all of the other area, whose bytes it copies as far as the last one ends. The others
/// cost the same for all areas.
pub struct Chain;

impl AreaKeeper for Chain {
    ghost keeper = { chain };

    fn bytes_for(capacity: u32) -> usize {
        HEADER + capacity as usize
    }

    fn make(bytes: &mut [u8], capacity: u32) {
        set_word(bytes, 0, MARK);
        set_word(bytes, 4, capacity);
        set_word(bytes, FIRST_LINK, 0);
    }

    fn open(bytes: &[u8]) -> Result<(), AreaFault> {
        let holds_area = match front_capacity(bytes) {
            Some(capacity) => is_whole(bytes, capacity),
            None => false,
        };
        if holds_area {
            Ok(())
        } else {
            Err(AreaFault::Damaged)
        }
    }

    fn empty(bytes: &mut [u8]) {
        set_word(bytes, FIRST_LINK, 0);
    }

    fn allocate(
        bytes: &mut [u8],
        size: u64,
        signature: u32,
        extent: i32,
    ) -> Result<u32, AreaFault> {
        if size > (bytes.len() - HEADER) as u64 {
            return Err(AreaFault::NoGap);
        }
        let size = size as u32;
        let Some(place) = Place::gap(bytes, footprint(size)) else {
            return Err(AreaFault::NoGap);
        };
        let header = Header {
            size,
            signature,
            extent: extent.cast_unsigned(),
            link: place.link,
        };
        header.write(bytes, place.end);
        let offset = place.end as u32;
        set_word(bytes, place.link_at, offset + 1);
        Ok(offset)
    }

    fn free(bytes: &mut [u8], offset: u32, signature: u32) -> Result<(), AreaFault> {
        let place = place_of(bytes, offset, signature)?;
        let link = word_at(bytes, offset as usize + 28);
        set_word(bytes, place.link_at, link);
        Ok(())
    }

    fn find(bytes: &[u8], offset: u32, signature: u32) -> Result<u32, AreaFault> {
        place_of(bytes, offset, signature)?;
        Ok(offset + 32)
    }

    fn extent(bytes: &[u8], offset: u32, signature: u32) -> Result<i32, AreaFault> {
        place_of(bytes, offset, signature)?;
        Ok(word_at(bytes, offset as usize + 24).cast_signed())
    }

    fn copy_from(bytes: &mut [u8], from: &[u8]) -> Result<(), AreaFault> {
        let end = Place::last(from).end;
        if end > bytes.len() - HEADER {
            return Err(AreaFault::TooSmall);
        }
        copy_between(bytes, from, FIRST_LINK, HEADER + end);
        Ok(())
    }

    fn keeps() {
        area_keeper::laws::chain_keeps();
    }
}

/// A generation's header: its data size in bytes, its signature, its extent as a word, and the link to the next generation.
#[derive(Clone, Copy)]
struct Header {
    size: u32,
    signature: u32,
    extent: u32,
    link: u32,
}

impl Header {
    fn write(self, bytes: &mut [u8], offset: usize)
        requires { offset + 32 ≤ length bytes.old }
        ensures { bytes.new ≡ with_word (28 + offset) self.link (with_word (24 + offset) self.extent
            (with_word (20 + offset) self.signature (with_word (16 + offset) self.size bytes.old))) }
    {
        set_word(bytes, offset + 16, self.size);
        set_word(bytes, offset + 20, self.signature);
        set_word(bytes, offset + 24, self.extent);
        set_word(bytes, offset + 28, self.link);
    }
}

/// The capacity in an area's own header, none where the bytes begin with none.
fn front_capacity(bytes: &[u8]) -> Option<u32>
    ensures { result ≡ (if has_front bytes.now then Some (capacity_in bytes.now) else None) }
{
    if bytes.len() < HEADER || word_at(bytes, 0) != MARK {
        return None;
    }
    let capacity = word_at(bytes, 4);
    let rounded = capacity % 16 == 0 && capacity <= MOST_CAPACITY;
    (rounded && bytes.len() == HEADER + capacity as usize).then_some(capacity)
}

/// Whether the walk along the links comes to an end. Each generation takes 16 bytes at least, which bounds the steps.
fn is_whole(bytes: &[u8], capacity: u32) -> bool
    requires as_many { length bytes.now ≡ 16 + capacity }
    requires bounded { capacity ≤ greatest_capacity }
    ensures { result ≡ is_some (walked (suc (capacity / 16)) 0 capacity (word_at first_link bytes.now) bytes.now) }
{
    let mut end = 0;
    let mut link = word_at(bytes, FIRST_LINK);
    'steps: for step in 0..capacity / 16 + 1 {
        if link == 0 {
            return true;
        }
        let offset = link as usize - 1;
        match end_of(bytes, capacity as usize, end, offset) {
            Some(behind) => end = behind,
            None => return false,
        }
        link = word_at(bytes, offset + 28);
    }
    false
}

/// Where the generation at an offset ends, none where it doesn't follow what ends at a place. Its header isn't read before it is known
/// to lie inside.
fn end_of(bytes: &[u8], capacity: usize, end: usize, offset: usize) -> Option<usize>
    requires as_many { length bytes.now ≡ 16 + capacity }
    requires small { offset < 2 ^ 32 }
    ensures { result ≡ (if follows end capacity (kept_in offset bytes.now) then Some (kept_end (kept_in offset bytes.now)) else None) }
{
    if offset < end || offset % 16 != 0 || capacity < offset + HEADER {
        return None;
    }
    let behind = offset + footprint(word_at(bytes, offset + 16));
    (behind <= capacity).then_some(behind)
}

/// In front of the generation at an offset, which has the signature.
fn place_of(bytes: &[u8], offset: u32, signature: u32) -> Result<Place, AreaFault>
    requires { IsSome (chain_area bytes.now) }
    ensures { MatchResult result
        (λ p. IsFound bytes.now offset signature p.link_at)
        (λ fault. fault ≡ AreaFault.NoGeneration × kept_of offset signature (chain_area bytes.now) ≡ None) }
{
    let place = Place::before(bytes, offset);
    if place.link as usize == offset as usize + 1
        && word_at(bytes, offset as usize + 20) == signature
    {
        Ok(place)
    } else {
        Err(AreaFault::NoGeneration)
    }
}
