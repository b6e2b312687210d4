// Laws of the definitions: each function's contract is one law, and calling it does nothing.

ghost use Rattle.area_assignments.specs.Copying.{AreasCopied};
ghost use Rattle.area_assignments.specs.Emptying.{AreasEmptied};
ghost use Rattle.area_assignments.specs.Rows.{ClearRan};

use run_keeper::laws::run_keeper_keeps;

/// EMPTY of an area variable does what it means, at each point of the block that declares it.
pub fn areas_emptied()
    ensures { AreasEmptied }
{}

/// An assignment of one area variable of the block to another does what it means.
pub fn areas_copied()
    ensures { AreasCopied }
{}

/// A worked row: an area that is assigned to another and emptied, so that a pointer into it points to nothing.
pub fn clear_ran()
    ensures { ClearRan }
{
    run_keeper_keeps();
}
