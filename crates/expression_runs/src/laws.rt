// Laws of the definitions: each function's contract is one law, and calling it does nothing.

ghost use Rattle.expression_runs.specs.Assignments.{AssignmentsDo};
ghost use Rattle.expression_runs.specs.Laws.{NumbersDo, OverflowEnds};
ghost use Rattle.expression_runs.specs.OwnVariables.{OwnNumbers};
ghost use Rattle.expression_runs.specs.Rows.{DoubleRan};

use run_keeper::laws::run_keeper_keeps;

/// Constants, variables, sums and differences of numbers leave what they mean in a register, at each point of a block.
pub fn numbers_do()
    ensures { NumbersDo }
{}

/// The one variable of a procedure is a number of its block, wherever that is called.
pub fn own_numbers()
    ensures { OwnNumbers }
{}

/// FIXEDOVERFLOW without a unit in force ends the run.
pub fn overflow_ends()
    ensures { OverflowEnds }
{}

/// An assignment to a variable does what it means if its expression does.
pub fn assignments_do()
    ensures { AssignmentsDo }
{}

/// A worked row: a variable that is doubled in a loop by GOTO, until it overflows.
pub fn double_ran()
    ensures { DoubleRan }
{
    run_keeper_keeps();
}
