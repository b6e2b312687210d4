// Words and padding, as data have them.

ghost use Rattle.std.specs.Prelude.{◌≡◌, ◌-◌, [], ◌∷◌, ◌++◌, length, replicate, OnOk};
ghost use Rattle.pli_typing.specs.Signatures.{rounded_up};
ghost use Rattle.rv_meaning.specs.Memory.{bytes_of_word, bytes_of_words};

use std::alloc::AllocError;

/// The lowest 32 bits of a number, the lowest byte first.
pub(crate) fn put_word(bytes: &mut Vec<u8>, number: u64) -> Result<(), AllocError>
    ensures { OnOk result (bytes.new.items ≡ bytes.old.items ++ bytes_of_word number) }
{
    let word = [
        (number % 256) as u8,
        (number / 256 % 256) as u8,
        (number / 256 / 256 % 256) as u8,
        (number / 256 / 256 / 256 % 256) as u8,
    ];
    bytes.extend_from_slice(&word)
}

pub(crate) fn put_pair(bytes: &mut Vec<u8>, first: u64, second: u64) -> Result<(), AllocError>
    ensures { OnOk result (bytes.new.items ≡ bytes.old.items ++ bytes_of_words (first ∷ second ∷ [])) }
{
    put_word(bytes, first)?;
    put_word(bytes, second)
}

pub(crate) fn put_triple(
    bytes: &mut Vec<u8>,
    first: u64,
    second: u64,
    third: u64,
) -> Result<(), AllocError>
    ensures { OnOk result (bytes.new.items ≡ bytes.old.items ++ bytes_of_words (first ∷ second ∷ third ∷ [])) }
{
    put_pair(bytes, first, second)?;
    put_word(bytes, third)
}

/// A text, and zeros up to the next word.
pub(crate) fn put_padded(bytes: &mut Vec<u8>, text: &[u8]) -> Result<(), AllocError>
    ensures { OnOk result (bytes.new.items ≡ bytes.old.items ++ (text.now ++ replicate (rounded_up 4 (length text.now) - length text.now) 0)) }
{
    bytes.extend_from_slice(text)?;
    match text.len() % 4 {
        1 => bytes.extend_from_slice(&[0, 0, 0]),
        2 => bytes.extend_from_slice(&[0, 0]),
        3 => bytes.extend_from_slice(&[0]),
        _ => Ok(()),
    }
}
