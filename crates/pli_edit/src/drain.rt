// Where the output of a run goes, write by write.

ghost use Rattle.std.specs.Prelude.{◌≡◌, ◌≤◌, IfOk, length};
ghost use Rattle.pli_edit.specs.Histories.{after_call};

use crate::fault::Failed;
use std::marker::Brand;

/// Takes bytes, write by write. Contracts see how its writes came out so far, and the bytes that they took.
pub trait Drain {
    ghost use Rattle.pli_edit.specs.Histories.{History};

    ghost history: { Self → History };

    /// Takes bytes from the front, and tells how many.
    ///
    /// # Errors
    ///
    /// `Failed` where none can be taken any more.
    fn write(&mut self, bytes: &[u8]) -> Result<usize, Failed>
        ensures within { IfOk result (λ n. n ≤ length bytes.now) }
        ensures told { history self.new ≡ after_call result bytes.now (history self.old) };
}

/// What the writes of a drain came to before a run. Contracts alone see it.
pub trait Before {
    ghost use Rattle.pli_edit.specs.Histories.{History};

    ghost before: { History };
}

// A drain that took nothing yet; a call that knows more picks it.
impl Before for Brand {
    ghost use Rattle.std.specs.Prelude.{[]};

    ghost before = { record { failures = 0; answers = []; bytes = [] } };
}
