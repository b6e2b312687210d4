// The map: a bit for each place at which a generation may begin.

ghost use Rattle.std.specs.Prelude.{◌≡◌, ◌+◌, ◌/◌, ◌<◌, ◌==◌, length};
ghost use Rattle.free_keeper.specs.Bits.{with_bit, bit_at, with_bit_at};

use crate::front::MAP;

/// Whether a generation begins at a place.
pub fn begins(bytes: &[u8], place: usize) -> bool
    requires { 12 + place / 8 < length bytes.now }
    ensures { result ≡ (bit_at 12 place bytes.now == 1) }
{
    (bytes[MAP + place / 8] >> (place % 8)) % 2 == 1
}

/// Tells that a generation begins at a place.
pub fn mark(bytes: &mut [u8], place: usize)
    requires { 12 + place / 8 < length bytes.old }
    ensures { bytes.new ≡ with_bit_at 12 place 1 bytes.old }
{
    bytes[MAP + place / 8] |= 1 << (place % 8);
}

/// Tells that no generation begins at a place.
pub fn unmark(bytes: &mut [u8], place: usize)
    requires { 12 + place / 8 < length bytes.old }
    ensures { bytes.new ≡ with_bit_at 12 place 0 bytes.old }
{
    bytes[MAP + place / 8] = without(bytes[MAP + place / 8], place % 8);
}

/// A byte without one of its bits.
fn without(byte: u8, place: usize) -> u8
    requires { place < 8 }
    ensures { result ≡ with_bit place 0 byte }
{
    byte & !(1 << place)
}
