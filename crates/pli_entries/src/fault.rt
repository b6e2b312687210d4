// Why a service isn't done with the entries.

ghost use Rattle.std.specs.Prelude.{◌≡◌};
ghost use Rattle.pli_entries.specs.declared.fault.EntryFault.TheVariants.{Memory};
ghost use Rattle.pli_entries.specs.Served.{fault_of};

use pli_text::fault::TextFault;
use std::alloc::{AllocError, AllocFailed};
use std::fmt;
use thiserror::Error;

/// Why nothing is made of entries, by its number. It prints as `3 NotNumber`.
#[derive(Clone, Copy, PartialEq, Eq, Debug, Error)]
pub enum EntryFault {
    /// The text would have more than 1,024 bytes.
    TooLong = 1,
    /// The part doesn't lie in the text.
    BadRange = 2,
    /// The text stands for no number, or for no bit.
    NotNumber = 3,
    /// The aggregates have different bounds.
    OtherBounds = 4,
    /// What is due isn't there: there is no such call.
    Bad = 5,
    /// There is no memory.
    Memory = 9,
}

impl fmt::Display for EntryFault {
    fn fmt<W: fmt::Write>(&self, f: &mut fmt::Formatter<W>) -> fmt::Result {
        let number = *self as u8;
        write!(f, "{number} {self:?}")
    }
}

impl From<TextFault> for EntryFault {
    ghost from_gives = { λ fault e. e ≡ fault_of fault };

    fn from(fault: TextFault) -> EntryFault {
        match fault {
            TextFault::TooLong => EntryFault::TooLong,
            TextFault::BadRange => EntryFault::BadRange,
            TextFault::NotNumber => EntryFault::NotNumber,
            TextFault::Memory => EntryFault::Memory,
        }
    }
}

impl From<AllocError> for EntryFault {
    ghost from_gives = { λ _ e. e ≡ Memory };

    fn from(_: AllocError) -> EntryFault {
        EntryFault::Memory
    }
}

impl<T: Drop> From<AllocFailed<T>> for EntryFault {
    ghost from_gives = { λ _ e. e ≡ Memory };

    fn from(_: AllocFailed<T>) -> EntryFault {
        EntryFault::Memory
    }
}
