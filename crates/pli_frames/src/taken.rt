// The temporaries in use: registers that hold something, and words of the frame.

ghost use Rattle.std.specs.Prelude.{◌≡◌, IfOk};
ghost use Rattle.pli_coding.specs.Environments as form;
ghost use Rattle.pli_frames.specs.TakenView.{taken_of};

use std::alloc::AllocError;

/// How many registers and how many words of the frame hold something.
#[derive(Clone, Copy, PartialEq, Eq, Debug)]
pub struct Taken {
    pub registers: u8,
    pub words: u32,
}

/// Nothing is in use.
pub fn none_taken() -> Taken
    ensures { taken_of result ≡ form.none_taken }
{
    Taken {
        registers: 0,
        words: 0,
    }
}

impl Taken {
    /// With so many words more. More than 32 bits hold is want of memory.
    pub fn with_words(self, count: u32) -> Result<Taken, AllocError>
        ensures { IfOk result (λ t. taken_of t ≡ form.with_words count (taken_of self)) }
    {
        let words = self.words.checked_add(count).ok_or(AllocError)?;
        Ok(Taken {
            registers: self.registers,
            words,
        })
    }

    /// Whether the next number goes into a register.
    pub fn is_register_left(self) -> bool
        ensures { result ≡ form.is_register_left (taken_of self) }
    {
        self.registers < 7
    }

    /// With a number more.
    pub fn with_number(self) -> Result<Taken, AllocError>
        ensures { IfOk result (λ t. taken_of t ≡ form.with_number (taken_of self)) }
    {
        if self.is_register_left() {
            Ok(Taken {
                registers: self.registers + 1,
                words: self.words,
            })
        } else {
            self.with_words(1)
        }
    }

    /// As many of each as either takes.
    pub fn most(self, other: Taken) -> Taken
        ensures { taken_of result ≡ form.most_taken (taken_of self) (taken_of other) }
    {
        Taken {
            registers: self.registers.max(other.registers),
            words: self.words.max(other.words),
        }
    }
}
