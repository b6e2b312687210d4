// Laws of the definitions: each function's contract is one law, and calling it does nothing.

ghost use Rattle.variable_runs.specs.Known.{VariablesKnown};
ghost use Rattle.variable_runs.specs.Lists.{AllAmong, AllBegin, AllMade};
ghost use Rattle.variable_runs.specs.Rows.{PairRan};

use run_keeper::laws::run_keeper_keeps;

/// A procedure makes the variables that it declares, one behind the other, where its block begins.
pub fn all_made()
    ensures { AllMade }
{}

/// If it can make them where the first statement of the block that calls it begins, it can wherever that calls it.
pub fn all_among()
    ensures { AllAmong }
{}

/// So it is of those with INITIAL values, too.
pub fn all_begin()
    ensures { AllBegin }
{}

/// Each of them is a variable of its block, wherever that is called, and a number if it is FIXED BINARY(31).
pub fn variables_known()
    ensures { VariablesKnown }
{}

/// A worked row: two variables, of which one is doubled by way of the other until that overflows.
pub fn pair_ran()
    ensures { PairRan }
{
    run_keeper_keeps();
}
