// Laws of the definitions: each function's contract is one law, and calling it does nothing.

ghost use Rattle.locator_runs.specs.Comparisons.{PointersCompare};
ghost use Rattle.locator_runs.specs.Pointers.{NullAssigned, PointerAssigned, PointersTold};
ghost use Rattle.locator_runs.specs.Rows.{FollowRan};

use run_keeper::laws::run_keeper_keeps;

/// A POINTER variable of a block holds a name at each of its points, and its sixteen bytes tell it.
pub fn pointers_told()
    ensures { PointersTold }
{}

/// A POINTER variable that is assigned NULL holds that, at each point of the block.
pub fn null_assigned()
    ensures { NullAssigned }
{}

/// A POINTER variable that is assigned another one holds what that holds, at each point of the block.
pub fn pointer_assigned()
    ensures { PointerAssigned }
{}

/// Comparisons of POINTER variables of a block with each other and with NULL leave what they mean in a register.
pub fn pointers_compare()
    ensures { PointersCompare }
{}

/// A worked row: what one pointer held is followed by another one, and the two are compared.
pub fn follow_ran()
    ensures { FollowRan }
{
    run_keeper_keeps();
}
