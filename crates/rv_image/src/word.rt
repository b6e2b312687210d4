// Words among bytes, the lowest byte first.

ghost use Rattle.std.specs.Prelude.{◌≡◌, ℕ, ◌+◌, ◌*◌, ◌≤◌, ◌<◌, ◌++◌, length, slice_index, IfOk, OnOk};
ghost use Rattle.rv_meaning.specs.Memory.{load, bytes_of_word, bytes_of_words};
ghost use Rattle.rv_meaning.specs.Images.{words_at};

use byteorder::{ByteOrder, LittleEndian};
use std::alloc::{AllocError, Global};

/// The word in the four bytes from a place on.
pub fn word_at(bytes: &[u8], at: usize) -> u32
    requires inside { at + 4 ≤ length bytes.now }
    ensures { result ≡ load 4 bytes.now at }
{
    LittleEndian::read_u32(&bytes[at..])
}

/// So many words from a place on.
pub fn words_at(
    alloc: Global,
    bytes: &[u8],
    at: usize,
    count: usize,
) -> Result<Vec<u32>, AllocError>
    requires inside { at + 4 * count ≤ length bytes.now }
    ensures { IfOk result (λ words. words.items ≡ words_at count bytes.now at) }
{
    let mut words = Vec::new(alloc);
    for k in 0..count {
        words.push(word_at(bytes, at + 4 * k))?;
    }
    Ok(words)
}

/// Writes a word at the end.
pub fn push_word(out: &mut Vec<u8>, word: u32) -> Result<(), AllocError>
    ensures { OnOk result (out.new.items ≡ out.old.items ++ bytes_of_word word) }
{
    let mut bytes = [0; 4];
    LittleEndian::write_u32(&mut bytes, word);
    out.extend_from_slice(&bytes)?;
    Ok(())
}

/// Writes words at the end.
pub fn push_words(out: &mut Vec<u8>, words: &[u32]) -> Result<(), AllocError>
    ensures { OnOk result (out.new.items ≡ out.old.items ++ bytes_of_words words.now) }
{
    for word in words {
        push_word(out, *word)?;
    }
    Ok(())
}
