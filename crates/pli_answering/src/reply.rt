// How a service replies.

ghost use Rattle.std.specs.Prelude.{◌≡◌};
ghost use Rattle.pli_answering.specs.declared.reply.Refusal.TheVariants.{Memory};

use std::alloc::{AllocError, AllocFailed};

/// What a service that did its work gives: the results in a0 and a1, or the end of the run.
#[derive(Clone, Copy, PartialEq, Eq, Debug)]
pub enum Reply {
    Done(u32, u32),
    Ended,
}

/// Why a service did nothing: a call that isn't right, or no memory for its work.
#[derive(Clone, Copy, PartialEq, Eq, Debug)]
pub enum Refusal {
    Bad,
    Memory,
}

impl From<AllocError> for Refusal {
    ghost from_gives = { λ _ e. e ≡ Memory };

    fn from(_: AllocError) -> Refusal {
        Refusal::Memory
    }
}

impl<T: Drop> From<AllocFailed<T>> for Refusal {
    ghost from_gives = { λ _ e. e ≡ Memory };

    fn from(_: AllocFailed<T>) -> Refusal {
        Refusal::Memory
    }
}
