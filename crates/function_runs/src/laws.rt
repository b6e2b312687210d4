// Laws of the definitions: each function's contract is one law, and calling it does nothing.

ghost use Rattle.function_runs.specs.FunctionCalls.{FunctionCallsDo};
ghost use Rattle.function_runs.specs.Functions.{FunctionsRun};
ghost use Rattle.function_runs.specs.LocalRows.{LocalRan};
ghost use Rattle.function_runs.specs.OuterVariables.{OuterNumbers, OwnNumbers};
ghost use Rattle.function_runs.specs.Returns.{ReturnsDo};
ghost use Rattle.function_runs.specs.Rows.{FetchRan};

use run_keeper::laws::run_keeper_keeps;

/// RETURN with a number leaves its word in the function's frame, and the block comes to its end.
pub fn returns_do()
    ensures { ReturnsDo }
{}

/// A function comes behind its call with its word in a0, if each of its statements does what it means; one that runs
/// off its end raises ERROR.
pub fn functions_run()
    ensures { FunctionsRun }
{}

/// So does a call of it in an expression of the block that declares it.
pub fn function_calls_do()
    ensures { FunctionCallsDo }
{}

/// Variables of a block are variables of the procedures and functions that it declares: their code finds them by its
/// display.
pub fn outer_numbers()
    ensures { OuterNumbers }
{}

/// And the one variable of a function is a number of its block, wherever that is called.
pub fn own_numbers()
    ensures { OwnNumbers }
{}

/// A worked row: a main procedure that adds what a function returns to a variable, until it overflows.
pub fn fetch_ran()
    ensures { FetchRan }
{
    run_keeper_keeps();
}

/// A worked row: a main procedure that calls another in a loop, which has a variable of its own, until it overflows.
pub fn local_ran()
    ensures { LocalRan }
{
    run_keeper_keeps();
}
