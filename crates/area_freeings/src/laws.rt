// Laws of the definitions: each function's contract is one law, and calling it does nothing.

ghost use Rattle.area_freeings.specs.Freeing.{BasedFreed};
ghost use Rattle.area_freeings.specs.Rows.{ReleaseRan};

use run_keeper::laws::run_keeper_keeps;

/// FREE of what a pointer variable of the block points to does what it means, at each point of the block.
pub fn based_freed()
    ensures { BasedFreed }
{}

/// A worked row: what is allocated in an area is freed twice.
pub fn release_ran()
    ensures { ReleaseRan }
{
    run_keeper_keeps();
}
