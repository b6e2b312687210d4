// Laws of the definitions: each function's contract is one law, and calling it does nothing.

ghost use Rattle.element_runs.specs.Laws.{ElementAssignmentsDo, ElementsDo, SubscriptsEnd};
ghost use Rattle.element_runs.specs.Outer.{OuterKnown};
ghost use Rattle.element_runs.specs.Rows.{PickRan};

use run_keeper::laws::run_keeper_keeps;

/// An element of an array leaves what it means in a register, at each point of a block.
pub fn elements_do()
    ensures { ElementsDo }
{}

/// A subscript outside its bounds without a unit in force for ERROR ends the run.
pub fn subscripts_end()
    ensures { SubscriptsEnd }
{}

/// An assignment to an element does what it means if its expressions do.
pub fn element_assignments_do()
    ensures { ElementAssignmentsDo }
{}

/// Variables of a block, arrays among them, are known in the procedures and functions that it declares.
pub fn outer_known()
    ensures { OuterKnown }
{}

/// A worked row: an element that is doubled in a loop by GOTO, whose subscript a function returns, until it overflows.
pub fn pick_ran()
    ensures { PickRan }
{
    run_keeper_keeps();
}
