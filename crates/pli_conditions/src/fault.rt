// Why the on-units can't be changed.

ghost use Rattle.std.specs.Prelude.{◌≡◌};
ghost use Rattle.pli_conditions.specs.declared.fault.OnUnitsFault.TheVariants.{Memory};

use std::alloc::{AllocError, AllocFailed};
use std::fmt;
use thiserror::Error;

/// Why a block isn't entered or a unit isn't established. It prints as `9 Memory`.
#[derive(Clone, Copy, PartialEq, Eq, Debug, Error)]
pub enum OnUnitsFault {
    /// There is no memory for one more.
    Memory = 9,
}

impl fmt::Display for OnUnitsFault {
    fn fmt<W: fmt::Write>(&self, f: &mut fmt::Formatter<W>) -> fmt::Result {
        let number = *self as u8;
        write!(f, "{number} {self:?}")
    }
}

impl From<AllocError> for OnUnitsFault {
    ghost from_gives = { λ _ e. e ≡ Memory };

    fn from(_: AllocError) -> OnUnitsFault {
        OnUnitsFault::Memory
    }
}

impl<T: Drop> From<AllocFailed<T>> for OnUnitsFault {
    ghost from_gives = { λ _ e. e ≡ Memory };

    fn from(_: AllocFailed<T>) -> OnUnitsFault {
        OnUnitsFault::Memory
    }
}
