// What a locator names, and OFFSET values.

ghost use Rattle.std.specs.Prelude.{◌≡◌, ◌+◌, ◌++◌, ◌≤◌, length};
ghost use Rattle.pli_language.specs.View.{option_of};
ghost use Rattle.pli_serving.specs.Bytes.{name_at, name_bytes, number_bytes, offset_of, offset_word, with_bytes};
ghost use Rattle.pli_serving.specs.Arguments.{name_in};
ghost use Rattle.pli_values.specs.Calls.{call_of};
ghost use Rattle.pli_values.specs.View.{name_of};

use crate::source::Source;
use crate::word::{fill, long_at, put_long, put_word, word_at};

/// What a locator names: nothing, a variable's generation by its serial, or a generation by its offset in an area, which
/// has a serial.
#[derive(Clone, Copy, PartialEq, Eq, Debug)]
pub enum Name {
    Null,
    Variable { serial: u64 },
    Based { area: u64, offset: u32 },
}

/// The bytes of a name.
pub const NAME_BYTES: usize = 16;

/// The word of the OFFSET that names nothing.
pub const NULL_OFFSET: u32 = u32::MAX;

/// The name in 16 bytes, `None` where their kind is that of none.
pub fn name_at(memory: &[u8], at: usize) -> Option<Name>
    requires { at + 16 ≤ length memory.now }
    ensures { option_of name_of result ≡ name_at at memory.now }
{
    let kind = word_at(memory, at);
    let offset = word_at(memory, at + 4);
    let serial = long_at(memory, at + 8);
    match kind {
        0 => Some(Name::Null),
        1 => Some(Name::Variable { serial }),
        2 => Some(Name::Based {
            area: serial,
            offset,
        }),
        _ => None,
    }
}

/// The name at an address, `None` where that isn't data or the name's kind is that of none.
pub fn name_in(source: &Source, at: usize) -> Option<Name>
    ensures { option_of name_of result ≡ name_in (call_of source.now) at }
{
    if !source.layout.is_data(at, NAME_BYTES) {
        return None;
    }
    name_at(source.memory, at)
}

fn put_parts(memory: &mut [u8], at: usize, kind: u32, offset: u32, serial: u64)
    requires { at + 16 ≤ length memory.old }
    ensures { memory.new ≡ with_bytes (number_bytes 4 kind ++ (number_bytes 4 offset ++ number_bytes 8 serial)) at memory.old }
{
    put_word(memory, at, kind);
    put_word(memory, at + 4, offset);
    put_long(memory, at + 8, serial);
}

/// Writes a name's 16 bytes.
pub fn put_name(memory: &mut [u8], at: usize, name: Name)
    requires { at + 16 ≤ length memory.old }
    ensures { memory.new ≡ with_bytes (name_bytes (name_of name)) at memory.old }
{
    match name {
        Name::Null => fill(memory, at, NAME_BYTES, 0),
        Name::Variable { serial } => put_parts(memory, at, 1, 0, serial),
        Name::Based { area, offset } => put_parts(memory, at, 2, offset, area),
    }
}

/// The offset that a word stands for, `None` for the null one.
pub fn offset_of(word: u32) -> Option<u32>
    ensures { result ≡ offset_of word }
{
    if word == NULL_OFFSET {
        None
    } else {
        Some(word)
    }
}

/// The word that stands for an offset. Of `Some(NULL_OFFSET)`, which no generation has, it is that of the null one.
pub fn offset_word(offset: Option<u32>) -> u32
    ensures { result ≡ offset_word offset }
{
    offset.unwrap_or(NULL_OFFSET)
}
