// Laws of the definitions: each function's contract is one law, and calling it does nothing.

ghost use Rattle.area_runs.specs.Allocations.{BasedAllocated};
ghost use Rattle.area_runs.specs.Based.{BasedRead};
ghost use Rattle.area_runs.specs.BasedAssignments.{BasedAssigned};
ghost use Rattle.area_runs.specs.Rows.{LocateRan};

use run_keeper::laws::run_keeper_keeps;

/// What a pointer variable points to leaves what it means in a register, at each point of the pointer's block.
pub fn based_read()
    ensures { BasedRead }
{}

/// An assignment to what a pointer variable points to does what it means if its expression does.
pub fn based_assigned()
    ensures { BasedAssigned }
{}

/// ALLOCATE of such a variable in an area, which sets the pointer variable, does what it means.
pub fn based_allocated()
    ensures { BasedAllocated }
{}

/// A worked row: a number in an area that is doubled by way of a pointer, until it overflows.
pub fn locate_ran()
    ensures { LocateRan }
{
    run_keeper_keeps();
}
