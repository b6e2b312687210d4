// Laws of the definitions: each function's contract is one law, and calling it does nothing.

ghost use Rattle.controlled_runs.specs.Allocations.{ControlledAllocated};
ghost use Rattle.controlled_runs.specs.Counting.{AllocationsCounted};
ghost use Rattle.controlled_runs.specs.Freeing.{ControlledFreed};
ghost use Rattle.controlled_runs.specs.Programs.{ListedProgramsRun};
ghost use Rattle.controlled_runs.specs.Rows.{StackRan};

use run_keeper::laws::run_keeper_keeps;

/// ALLOCATE of a CONTROLLED number does what it means, at each point of the block at which the lists stand, and they
/// stand behind it.
pub fn controlled_allocated()
    ensures { ControlledAllocated }
{}

/// FREE of a CONTROLLED variable does what it means, at each point of the block at which the lists stand, and they
/// stand behind it.
pub fn controlled_freed()
    ensures { ControlledFreed }
{}

/// ALLOCATION of a CONTROLLED variable leaves the word of how many generations it has, at points at which the lists
/// stand.
pub fn allocations_counted()
    ensures { AllocationsCounted }
{}

/// A program whose main procedure has such statements alone, and no label, comes to its end as it means.
pub fn listed_programs_run()
    ensures { ListedProgramsRun }
{
    run_keeper_keeps();
}

/// A worked row: a number is allocated twice, and freed once more often.
pub fn stack_ran()
    ensures { StackRan }
{
    run_keeper_keeps();
}
