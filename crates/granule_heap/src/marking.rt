// The marks and the headers in an area's bytes.

ghost use Rattle.std.specs.Prelude.{◌≡◌, ◌+◌, ◌-◌, ◌*◌, ◌/◌, ◌≤◌, ◌<◌, ◌++◌, length, take, drop, replicate, suc, Some, None, IsSome, IfSome, MatchResult, option_map};
ghost use Rattle.area_keeper.specs.KeptAreas.{with_part, part};
ghost use Rattle.area_keeper.specs.KeeperLaws.{greatest_capacity};
ghost use Rattle.area_keeper.specs.Chain.{capacity_in, with_word};
ghost use Rattle.area_heap.specs.Answers.{kept_of};
ghost use Rattle.granule_keeper.specs.Marks.{insides, room_in, with_run, without_run, used};
ghost use Rattle.granule_keeper.specs.Granules.{front_for, granules_area, marks_in, with_marks};
ghost use Rattle.granule_heap.specs.Places.{IsFound};

use crate::front::{CAPACITY, GRANULE, MARKS, front_for, granules_in};
use crate::marks::{begins, copy_marks, free_run, place_run, room, used};
use area_heap::fault::AreaFault;
use area_heap::words::{set_word, word_at};

/// A generation's header: its data size in bytes, its signature, and its extent as a word.
#[derive(Clone, Copy)]
pub struct Header {
    pub size: u32,
    pub signature: u32,
    pub extent: u32,
}

impl Header {
    /// Writes the three words, one behind the other.
    pub fn write(self, bytes: &mut [u8], at: usize)
        requires { at + 12 ≤ length bytes.old }
        ensures { bytes.new ≡ with_word (8 + at) self.extent (with_word (4 + at) self.signature (with_word at self.size bytes.old)) }
    {
        set_word(bytes, at, self.size);
        set_word(bytes, at + 4, self.signature);
        set_word(bytes, at + 8, self.extent);
    }
}

/// An area's capacity.
pub fn capacity_of(bytes: &[u8]) -> u32
    requires { IsSome (granules_area bytes.now) }
    ensures value { result ≡ capacity_in bytes.now }
    ensures inside { front_for result + result ≤ length bytes.now }
    ensures marks { 16 * length (marks_in bytes.now) ≡ result }
    ensures bounded { result ≤ greatest_capacity }
{
    word_at(bytes, CAPACITY)
}

/// An area's marks.
pub fn marks_in(bytes: &[u8]) -> &[u8]
    requires { IsSome (granules_area bytes.now) }
    ensures { result.now ≡ marks_in bytes.now }
{
    &bytes[MARKS..marks_end(bytes)]
}

/// Where an area's marks end.
fn marks_end(bytes: &[u8]) -> usize
    requires { IsSome (granules_area bytes.now) }
    ensures end { result ≡ 8 + capacity_in bytes.now / 16 }
    ensures inside { result ≤ length bytes.now }
{
    MARKS + granules_in(word_at(bytes, CAPACITY))
}

/// The first place from which on so many granules are free.
pub fn room_for(bytes: &[u8], number: usize) -> Option<usize>
    requires area { IsSome (granules_area bytes.now) }
    requires some { 1 ≤ number }
    ensures room { option_map (λ place. 16 * place) result ≡ room_in 0 number (marks_in bytes.now) }
    ensures inside { IfSome result (λ place. place + number ≤ length (marks_in bytes.now)) }
{
    room(marks_in(bytes), number)
}

/// How many granules an area has as far as the last one that isn't free.
pub fn used_in(bytes: &[u8]) -> usize
    requires { IsSome (granules_area bytes.now) }
    ensures used { result ≡ used (marks_in bytes.now) }
    ensures inside { result ≤ length (marks_in bytes.now) }
{
    used(marks_in(bytes))
}

/// Marks a generation of so many granules, which are free.
pub fn mark_placed(bytes: &mut [u8], place: usize, number: usize)
    requires area { IsSome (granules_area bytes.old) }
    requires some { 1 ≤ number }
    requires inside { place + number ≤ length (marks_in bytes.old) }
    ensures { bytes.new ≡ with_marks (with_run place number (marks_in bytes.old)) bytes.old }
{
    let end = marks_end(bytes);
    place_run(&mut bytes[MARKS..end], place, number);
}

/// Marks the granules of the generation that begins at a place as free.
pub fn mark_freed(bytes: &mut [u8], place: usize)
    requires area { IsSome (granules_area bytes.old) }
    requires inside { place < length (marks_in bytes.old) }
    ensures { bytes.new
        ≡ with_marks (without_run place (suc (insides (drop (suc place) (marks_in bytes.old)))) (marks_in bytes.old)) bytes.old }
{
    let end = marks_end(bytes);
    free_run(&mut bytes[MARKS..end], place);
}

/// Takes over so many marks of another area; the further granules are free.
pub fn mark_copied(bytes: &mut [u8], from: &[u8], number: usize)
    requires to { IsSome (granules_area bytes.old) }
    requires from { IsSome (granules_area from.now) }
    requires from_inside { number ≤ length (marks_in from.now) }
    requires to_inside { number ≤ length (marks_in bytes.old) }
    ensures { bytes.new ≡ with_marks (take number (marks_in from.now) ++ replicate (capacity_in bytes.old / 16 - number) 0) bytes.old }
{
    let end = marks_end(bytes);
    copy_marks(&mut bytes[MARKS..end], marks_in(from), number);
}

/// Copies so many bytes from where they stand in others.
pub fn copy_part(bytes: &mut [u8], at: usize, from: &[u8], from_at: usize, count: usize)
    requires to_inside { at + count ≤ length bytes.old }
    requires from_inside { from_at + count ≤ length from.now }
    ensures { bytes.new ≡ with_part (part from_at count from.now) at bytes.old }
{
    bytes[at..at + count].copy_from_slice(&from[from_at..from_at + count]);
}

/// Where the header of the generation at an offset stands, which has the signature.
pub fn header_of(bytes: &[u8], offset: u32, signature: u32) -> Result<usize, AreaFault>
    requires { IsSome (granules_area bytes.now) }
    ensures { MatchResult result
        (λ header. IsFound bytes.now offset signature header)
        (λ fault. fault ≡ AreaFault.NoGeneration × kept_of offset signature (granules_area bytes.now) ≡ None) }
{
    let capacity = word_at(bytes, CAPACITY);
    if offset % 16 != 0 || offset >= capacity {
        return Err(AreaFault::NoGeneration);
    }
    let header = front_for(capacity) + offset as usize;
    if begins(marks_in(bytes), offset as usize / GRANULE)
        && word_at(bytes, header + 4) == signature
    {
        Ok(header)
    } else {
        Err(AreaFault::NoGeneration)
    }
}
