// Why a reader stops.

ghost use Rattle.std.specs.Prelude.{◌≡◌};
ghost use Rattle.pli_phrase.specs.declared.stop.Stop.TheVariants.{Memory};

use crate::cursor::Cursor;
use std::alloc::{AllocError, AllocFailed};

/// Memory ran out, no such phrase goes on with the next token, the tokens end inside the phrase, or a left-out word
/// stands at the first token of the cursor.
#[derive(Drop)]
pub enum Stop<'a> {
    Memory,
    Stuck,
    Ended,
    LeftOut(Cursor<'a>),
}

impl<'a> From<AllocError> for Stop<'a> {
    ghost from_gives = { λ _ e. e ≡ Memory };

    fn from(_error: AllocError) -> Stop<'a> {
        Stop::Memory
    }
}

impl<'a, T: Drop> From<AllocFailed<T>> for Stop<'a> {
    ghost from_gives = { λ _ e. e ≡ Memory };

    fn from(_error: AllocFailed<T>) -> Stop<'a> {
        Stop::Memory
    }
}
