// Why a field isn't taken or written.

ghost use Rattle.std.specs.Prelude.{◌≡◌};
ghost use Rattle.pli_edit.specs.declared.fault.EditFault.TheVariants.{Memory};

use std::alloc::{AllocError, AllocFailed};
use std::fmt;
use thiserror::Error;

/// A call of a feed or of a drain that failed.
#[derive(Clone, Copy, PartialEq, Eq, Debug)]
pub struct Failed;

/// Why a field isn't taken or written, by its number. It prints as `2 TooWide`.
#[derive(Clone, Copy, PartialEq, Eq, Debug, Error)]
pub enum EditFault {
    /// No character is left.
    AtEnd = 1,
    /// The number is wider than its field.
    TooWide = 2,
    /// The field, which is taken, stands for no number.
    NotNumber = 3,
    /// A read of the input failed.
    Read = 4,
    /// A write of the output failed.
    Write = 5,
    /// There is no memory for the field.
    Memory = 9,
}

impl fmt::Display for EditFault {
    fn fmt<W: fmt::Write>(&self, f: &mut fmt::Formatter<W>) -> fmt::Result {
        let number = *self as u8;
        write!(f, "{number} {self:?}")
    }
}

impl From<AllocError> for EditFault {
    ghost from_gives = { λ _ e. e ≡ Memory };

    fn from(_: AllocError) -> EditFault {
        EditFault::Memory
    }
}

impl<T: Drop> From<AllocFailed<T>> for EditFault {
    ghost from_gives = { λ _ e. e ≡ Memory };

    fn from(_: AllocFailed<T>) -> EditFault {
        EditFault::Memory
    }
}
