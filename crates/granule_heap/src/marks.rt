// Runs of marks: a byte for each granule, 0 where it is free, 1 where a generation begins.

ghost use Rattle.std.specs.Prelude.{◌≡◌, ◌+◌, ◌-◌, ◌*◌, ◌<◌, ◌≤◌, ◌++◌, suc, min, length, take, drop, replicate, option_map, IfSome};
ghost use Rattle.area_keeper.specs.KeptAreas.{with_part};
ghost use Rattle.granule_keeper.specs.Marks.{insides, free_run, room_in, with_run, without_run, used};
ghost use Rattle.granule_heap.specs.Places.{begins_at};

use memchr::{memchr, memmem};

/// So many free granules are looked for at once.
const FREE: [u8; 32] = [0; 32];

/// The first place from which on so many granules are free.
pub fn room(marks: &[u8], number: usize) -> Option<usize>
    requires { 1 ≤ number }
    ensures room { option_map (λ place. 16 * place) result ≡ room_in 0 number marks.now }
    ensures inside { IfSome result (λ place. place + number ≤ length marks.now) }
{
    let Some(start) = memchr(0, marks) else {
        return None;
    };
    let free = free_at(marks, start, number);
    if free == number {
        return Some(start);
    }
    room_behind(marks, start + free, number)
}

/// The same from a place on. Gaps that are too small are passed many marks at a time.
fn room_behind(marks: &[u8], from: usize, number: usize) -> Option<usize>
    requires some { 1 ≤ number }
    requires from { from ≤ length marks.now }
    ensures room { option_map (λ place. 16 * place) result ≡ room_in (16 * from) number (drop from marks.now) }
    ensures inside { IfSome result (λ place. place + number ≤ length marks.now) }
{
    let wanted = &FREE[..number.min(FREE.len())];
    let mut place = from;
    while let Some(skipped) = memmem::find(&marks[place..], wanted) {
        let start = place + skipped;
        let free = free_at(marks, start, number);
        if free == number {
            return Some(start);
        }
        place = start + free;
    }
    None
}

/// How many granules are free from a place on, up to a number.
fn free_at(marks: &[u8], place: usize, most: usize) -> usize
    requires { place ≤ length marks.now }
    ensures free { result ≡ min most (free_run (drop place marks.now)) }
    ensures inside { place + result ≤ length marks.now }
{
    let mut free = 0;
    while free < most && place + free < marks.len() && marks[place + free] == 0 {
        free += 1;
    }
    free
}

/// Whether a generation begins at a place.
pub fn begins(marks: &[u8], place: usize) -> bool
    requires { place < length marks.now }
    ensures { result ≡ begins_at place marks.now }
{
    let mark = marks[place];
    mark == 1 || mark != 0 && (place == 0 || marks[place - 1] == 0)
}

/// Makes a generation of so many free granules.
///
/// What follows begins a generation of its own, as it did behind a free granule.
pub fn place_run(marks: &mut [u8], place: usize, number: usize)
    requires some { 1 ≤ number }
    requires inside { place + number ≤ length marks.old }
    ensures { marks.new ≡ with_run place number marks.old }
{
    marks[place] = 1;
    fill(marks, place + 1, number - 1, 2);
    let end = place + number;
    if end < marks.len() && marks[end] != 0 {
        marks[end] = 1;
    }
}

/// Frees the granules of the generation that begins at a place.
pub fn free_run(marks: &mut [u8], place: usize)
    requires { place < length marks.old }
    ensures { marks.new ≡ without_run place (suc (insides (drop (suc place) marks.old))) marks.old }
{
    let end = end_of_run(marks, place);
    fill(marks, place, end - place, 0);
}

/// Writes one mark so many times.
fn fill(marks: &mut [u8], place: usize, number: usize, mark: u8)
    requires { place + number ≤ length marks.old }
    ensures { marks.new ≡ with_part (replicate number mark) place marks.old }
{
    marks[place..place + number].fill(mark);
}

/// Where the generation ends that begins at a place.
fn end_of_run(marks: &[u8], place: usize) -> usize
    requires { place < length marks.now }
    ensures end { result ≡ suc place + insides (drop (suc place) marks.now) }
    ensures inside { place < result × result ≤ length marks.now }
{
    let mut end = place + 1;
    while end < marks.len() && marks[end] > 1 {
        end += 1;
    }
    end
}

/// How many granules there are as far as the last one that isn't free.
pub fn used(marks: &[u8]) -> usize
    ensures { result ≡ used marks.now }
{
    let mut used = marks.len();
    while used > 0 && marks[used - 1] == 0 {
        used -= 1;
    }
    used
}

/// Takes over so many marks; those behind them are free.
pub fn copy_marks(marks: &mut [u8], from: &[u8], used: usize)
    requires from_inside { used ≤ length from.now }
    requires to_inside { used ≤ length marks.old }
    ensures { marks.new ≡ take used from.now ++ replicate (length marks.old - used) 0 }
{
    marks[..used].copy_from_slice(&from[..used]);
    marks[used..].fill(0);
}
