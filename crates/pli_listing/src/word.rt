// The line of a code word.

ghost use Rattle.std.specs.Prelude.{Some};
ghost use Rattle.pli_listing.specs.Listed.{listed};

use std::fmt;

/// A code word with its offset in bytes, each in eight hexadecimal digits.
#[derive(Clone, Copy, Debug)]
pub struct ListedWord {
    pub offset: usize,
    pub word: u32,
}

impl fmt::Display for ListedWord {
    ghost output = { λ it. Some (listed it.offset it.word) };

    fn fmt<W: fmt::Write>(&self, f: &mut fmt::Formatter<W>) -> fmt::Result {
        let ListedWord { offset, word } = *self;
        write!(f, "{offset:08x} {word:08x}")
    }
}
