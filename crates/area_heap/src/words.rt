// Words of four bytes in a run of bytes, the lowest byte first.

ghost use Rattle.std.specs.Prelude.{◌≡◌, ◌+◌, ◌-◌, ◌++◌, ◌≤◌, length, take, drop};
ghost use Rattle.area_keeper.specs.Chain.{word_at, with_word};

/// The word at a place.
pub fn word_at(bytes: &[u8], at: usize) -> u32
    requires { at + 4 ≤ length bytes.now }
    ensures { result ≡ word_at at bytes.now }
{
    u32::from_le_bytes([bytes[at], bytes[at + 1], bytes[at + 2], bytes[at + 3]])
}

/// Puts a word at a place; the other bytes stay.
pub fn set_word(bytes: &mut [u8], at: usize, value: u32)
    requires { at + 4 ≤ length bytes.old }
    ensures { bytes.new ≡ with_word at value bytes.old }
{
    let [first, second, third, fourth] = value.to_le_bytes();
    bytes[at] = first;
    bytes[at + 1] = second;
    bytes[at + 2] = third;
    bytes[at + 3] = fourth;
}

/// Copies the bytes from a place on up to another from where they stand in others.
pub fn copy_between(bytes: &mut [u8], from: &[u8], start: usize, end: usize)
    requires ordered { start ≤ end }
    requires to_inside { end ≤ length bytes.old }
    requires from_inside { end ≤ length from.now }
    ensures { bytes.new ≡ take start bytes.old ++ take (end - start) (drop start from.now) ++ drop end bytes.old }
{
    bytes[start..end].copy_from_slice(&from[start..end]);
}
