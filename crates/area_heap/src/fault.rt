// Why a call on an area is refused.

use std::fmt;
use thiserror::Error;

/// Why a call on an area is refused, by its number; a refused call leaves the area's bytes as they were. It prints as
/// `4 Damaged`.
#[derive(Clone, Copy, Debug, PartialEq, Eq, Drop, Error)]
pub enum AreaFault {
    /// No gap in the area is large enough.
    NoGap = 1,
    /// No generation of this signature is at this offset.
    NoGeneration = 2,
    /// The area is too small for what the other holds.
    TooSmall = 3,
    /// The bytes hold no area.
    Damaged = 4,
}

impl fmt::Display for AreaFault {
    fn fmt<W: fmt::Write>(&self, f: &mut fmt::Formatter<W>) -> fmt::Result {
        let number = *self as u8;
        write!(f, "{number} {self:?}")
    }
}
