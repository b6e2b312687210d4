// Laws of the definitions: each function's contract is one law, and calling it does nothing.

ghost use Rattle.scalar_runs.specs.Assignments.{ScalarsAssigned};
ghost use Rattle.scalar_runs.specs.Laws.{NumbersFit, ScalarsDo};
ghost use Rattle.scalar_runs.specs.Rows.{BrimRan};

use run_keeper::laws::run_keeper_keeps;

/// Variables of fewer bits, bits as numbers, and DIVIDE to fewer bits leave what they mean in a register, at each point.
pub fn scalars_do()
    ensures { ScalarsDo }
{}

/// A number is tested where fewer bits are due.
pub fn numbers_fit()
    ensures { NumbersFit }
{}

/// An assignment to such a variable does what it means if its value does.
pub fn scalars_assigned()
    ensures { ScalarsAssigned }
{}

/// A worked row: a variable of 15 bits that grows in a loop by GOTO as long as a bit says so, until it overflows.
pub fn brim_ran()
    ensures { BrimRan }
{
    run_keeper_keeps();
}
