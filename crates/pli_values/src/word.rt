// Bytes of memory, and numbers of several bytes in it, the lowest byte first.

ghost use Rattle.std.specs.Prelude.{◌≡◌, ◌+◌, ◌*◌, ◌≤◌, length, replicate};
ghost use Rattle.rv_meaning.specs.Memory.{bytes_of_words, load};
ghost use Rattle.pli_serving.specs.Bytes.{number_bytes, with_bytes, word_at};

/// The number in two bytes.
pub fn half_at(memory: &[u8], at: usize) -> u16
    requires { at + 2 ≤ length memory.now }
    ensures { result ≡ load 2 memory.now at }
{
    u16::from_le_bytes([memory[at], memory[at + 1]])
}

/// The number in four bytes.
pub fn word_at(memory: &[u8], at: usize) -> u32
    requires { at + 4 ≤ length memory.now }
    ensures { result ≡ word_at at memory.now }
{
    u32::from_le_bytes([memory[at], memory[at + 1], memory[at + 2], memory[at + 3]])
}

/// The number in eight bytes.
pub fn long_at(memory: &[u8], at: usize) -> u64
    requires { at + 8 ≤ length memory.now }
    ensures { result ≡ load 8 memory.now at }
{
    let low = word_at(memory, at);
    let high = word_at(memory, at + 4);
    u64::from(high) << 32 | u64::from(low)
}

/// Writes bytes, one behind the other.
pub fn put_bytes(memory: &mut [u8], at: usize, bytes: &[u8])
    requires { at + length bytes.now ≤ length memory.old }
    ensures { memory.new ≡ with_bytes bytes.now at memory.old }
{
    memory[at..at + bytes.len()].copy_from_slice(bytes);
}

/// Writes one byte so many times.
pub fn fill(memory: &mut [u8], at: usize, count: usize, byte: u8)
    requires { at + count ≤ length memory.old }
    ensures { memory.new ≡ with_bytes (replicate count byte) at memory.old }
{
    memory[at..at + count].fill(byte);
}

/// Writes a number of two bytes.
pub fn put_half(memory: &mut [u8], at: usize, value: u16)
    requires { at + 2 ≤ length memory.old }
    ensures { memory.new ≡ with_bytes (number_bytes 2 value) at memory.old }
{
    put_bytes(memory, at, &value.to_le_bytes());
}

/// Writes a number of four bytes.
pub fn put_word(memory: &mut [u8], at: usize, value: u32)
    requires { at + 4 ≤ length memory.old }
    ensures { memory.new ≡ with_bytes (number_bytes 4 value) at memory.old }
{
    put_bytes(memory, at, &value.to_le_bytes());
}

/// Writes a number of eight bytes.
pub fn put_long(memory: &mut [u8], at: usize, value: u64)
    requires { at + 8 ≤ length memory.old }
    ensures { memory.new ≡ with_bytes (number_bytes 8 value) at memory.old }
{
    put_bytes(memory, at, &value.to_le_bytes());
}

/// Writes words, one behind the other.
pub fn put_words(memory: &mut [u8], at: usize, words: &[u32])
    requires { at + 4 * length words.now ≤ length memory.old }
    ensures { memory.new ≡ with_bytes (bytes_of_words words.now) at memory.old }
{
    let mut here = at;
    for word in words {
        put_word(memory, here, *word);
        here += 4;
    }
}
