// What an image file holds, and why one is refused.

ghost use Rattle.std.specs.Prelude.{◌≡◌};
ghost use Rattle.rv_meaning.specs.declared.image.ImageFault.TheVariants.{Memory};

use std::alloc::AllocError;
use std::fmt;
use thiserror::Error;

/// Why bytes are no image, by its number; of several the least is answered. It prints as `3 Length`.
#[derive(Clone, Copy, PartialEq, Eq, PartialOrd, Ord, Debug, Error)]
pub enum ImageFault {
    /// They don't begin as images do.
    Magic = 1,
    /// They are of another version.
    Version = 2,
    /// They are fewer than the image's lengths say, or a length is out of its range.
    Length = 3,
    /// A code word is that of no instruction.
    Word = 4,
    /// The table isn't a list of signatures.
    Table = 5,
    /// No code word stands at the entry.
    Entry = 6,
    /// They are more than the image's lengths say.
    Trailing = 7,
    /// There is no memory for the image.
    Memory = 9,
}

impl fmt::Display for ImageFault {
    fn fmt<W: fmt::Write>(&self, f: &mut fmt::Formatter<W>) -> fmt::Result {
        let number = *self as u8;
        write!(f, "{number} {self:?}")
    }
}

impl From<AllocError> for ImageFault {
    ghost from_gives = { λ _ e. e ≡ Memory };

    fn from(_: AllocError) -> ImageFault {
        ImageFault::Memory
    }
}

/// The kinds of leaves that the table of an image names.
#[derive(Clone, Copy, PartialEq, Eq, Debug)]
pub enum TableKind {
    Fixed,
    Character,
    Varying,
    Bit,
    Pointer,
    Offset,
    Area,
}
