// Why a text isn't made or read.

ghost use Rattle.std.specs.Prelude.{◌≡◌};
ghost use Rattle.pli_text.specs.declared.fault.TextFault.TheVariants.{Memory};

use std::alloc::{AllocError, AllocFailed};
use std::fmt;
use thiserror::Error;

/// Why nothing is made of texts, by its number. It prints as `3 NotNumber`.
#[derive(Clone, Copy, PartialEq, Eq, Debug, Error)]
pub enum TextFault {
    /// The text would have more than 1,024 bytes.
    TooLong = 1,
    /// The part doesn't lie in the text.
    BadRange = 2,
    /// The text stands for no number, or for no bit.
    NotNumber = 3,
    /// There is no memory for the text.
    Memory = 9,
}

impl fmt::Display for TextFault {
    fn fmt<W: fmt::Write>(&self, f: &mut fmt::Formatter<W>) -> fmt::Result {
        let number = *self as u8;
        write!(f, "{number} {self:?}")
    }
}

impl From<AllocError> for TextFault {
    ghost from_gives = { λ _ e. e ≡ Memory };

    fn from(_: AllocError) -> TextFault {
        TextFault::Memory
    }
}

impl<T: Drop> From<AllocFailed<T>> for TextFault {
    ghost from_gives = { λ _ e. e ≡ Memory };

    fn from(_: AllocFailed<T>) -> TextFault {
        TextFault::Memory
    }
}
