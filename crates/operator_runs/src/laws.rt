// Laws of the definitions: each function's contract is one law, and calling it does nothing.

ghost use Rattle.operator_runs.specs.Laws.{OperatorsDo, ZeroDivideEnds};
ghost use Rattle.operator_runs.specs.Rows.{SquareRan};

use run_keeper::laws::run_keeper_keeps;

/// Products, quotients, remainders, extremes and signs of numbers leave what they mean in a register, at each point.
pub fn operators_do()
    ensures { OperatorsDo }
{}

/// ZERODIVIDE without a unit in force ends the run.
pub fn zero_divide_ends()
    ensures { ZeroDivideEnds }
{}

/// A worked row: a variable that is squared in a loop by GOTO, until it overflows.
pub fn square_ran()
    ensures { SquareRan }
{
    run_keeper_keeps();
}
