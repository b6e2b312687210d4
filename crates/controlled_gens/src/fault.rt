// Why a call is refused.

use std::fmt;
use thiserror::Error;

/// Why a call is refused, by its number; a refused call changes nothing. It prints as `1 Dead`.
#[derive(Clone, Copy, Debug, PartialEq, Eq, Drop, Error)]
pub enum GenFault {
    /// No variable of this signature lives by this serial.
    Dead = 1,
    /// The variable has no generation.
    NoGeneration = 2,
    /// No gap in the heap is large enough.
    HeapFull = 3,
    /// All serials were given.
    NoSerial = 4,
    /// Out of memory.
    Memory = 9,
}

impl fmt::Display for GenFault {
    fn fmt<W: fmt::Write>(&self, f: &mut fmt::Formatter<W>) -> fmt::Result {
        let number = *self as u8;
        write!(f, "{number} {self:?}")
    }
}
