// Laws of what is answered: each function's contract is one law, and calling it does nothing.

ghost use Rattle.pli_run.specs.OutOfMemory.{MemoryFronts};

use meaning_runs::laws::accepted_meaning_there;

/// Where a run of a source answers want of memory, and the headline is proved for the source's program, what was
/// written is the front of what the program writes, at every number of acts from those reported on.
pub fn memory_fronts()
    ensures { MemoryFronts }
{
    accepted_meaning_there();
}
