// What input is read from.

ghost use Rattle.std.specs.Prelude.{◌≡◌, ◌≤◌, IfOk, length};
ghost use Rattle.pli_edit.specs.Histories.{History, after_call};

use crate::fault::Failed;

/// What bytes come from, as standard input or a file. Contracts see what its calls came to so far.
pub trait Feed {
    ghost history: { Self → History };

    /// Puts bytes at the front of the buffer and tells how many: at most its length, and 0 where none is left.
    fn read(&mut self, buffer: &mut [u8]) -> Result<usize, Failed>
        ensures within { IfOk result (λ count. count ≤ length buffer.new) }
        ensures told { history self.new ≡ after_call result buffer.new (history self.old) };
}

/// How a stream stands with its feed: bytes may come, none is left, a read failed, or as many reads were made as may
/// be.
#[derive(Clone, Copy, PartialEq, Eq, Debug)]
pub enum Standing {
    Open,
    Ended,
    Broken,
    Spent,
}

impl Standing {
    ghost use Rattle.pli_edit.specs.Feeding.{is_broken, is_open};

    /// Whether bytes may come.
    pub fn is_open(self) -> bool
        ensures { result ≡ is_open self }
    {
        match self {
            Standing::Open => true,
            Standing::Ended | Standing::Broken | Standing::Spent => false,
        }
    }

    /// Whether each call answers `Read` from now on.
    pub fn is_broken(self) -> bool
        ensures { result ≡ is_broken self }
    {
        match self {
            Standing::Open | Standing::Ended => false,
            Standing::Broken | Standing::Spent => true,
        }
    }
}
