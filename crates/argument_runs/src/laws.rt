// Laws of the definitions: each function's contract is one law, and calling it does nothing.

ghost use Rattle.argument_runs.specs.Copies.{CopiesMade};
ghost use Rattle.argument_runs.specs.CopyCalls.{CopiesKnown, CopyCallsDo};
ghost use Rattle.argument_runs.specs.CopyFunctions.{CopyFunctionsDo, CopyFunctionsKnow};
ghost use Rattle.argument_runs.specs.CopyRows.{CopyRan};
ghost use Rattle.argument_runs.specs.FunctionRows.{FunctionRan};
ghost use Rattle.argument_runs.specs.Laws.{ArgumentsGiven};
ghost use Rattle.argument_runs.specs.ListBeginnings.{ListsBegin};
ghost use Rattle.argument_runs.specs.ListCalls.{ListCallsReturn};
ghost use Rattle.argument_runs.specs.Parameters.{ParametersRead};

use run_keeper::laws::run_keeper_keeps;

/// The code of a call leaves the list of its argument in words of the caller's frame.
pub fn arguments_given()
    ensures { ArgumentsGiven }
{}

/// From the call of a procedure with a list of arguments to its block, which keeps where the list stands.
pub fn lists_begin()
    ensures { ListsBegin }
{}

/// A procedure makes the copy of its argument: the caller's list has its name then, and a variable of the procedure's
/// own has the value.
pub fn copies_made()
    ensures { CopiesMade }
{}

/// A parameter that stands for a copy is a number at the points of its procedure's block, as a variable is.
pub fn parameters_read()
    ensures { ParametersRead }
{}

/// A call with a list of arguments comes behind it if the procedure's body comes to its end, over what it made of the
/// list.
pub fn list_calls_return()
    ensures { ListCallsReturn }
{}

/// The statement CALL of a procedure with a parameter that is copied does what it means, if the argument and the
/// procedure's statements do.
pub fn copy_calls_do()
    ensures { CopyCallsDo }
{}

/// Wherever that is called its statements know its parameter, and the variables of the block that calls it.
pub fn copies_known()
    ensures { CopiesKnown }
{}

/// A call of a function with a parameter that is copied leaves its value, if the argument and the function's statements
/// do what they mean.
pub fn copy_functions_do()
    ensures { CopyFunctionsDo }
{}

/// Wherever that is called its statements know its parameter, and the variables of the block that calls it.
pub fn copy_functions_know()
    ensures { CopyFunctionsKnow }
{}

/// A worked row: a main procedure that calls another in a loop, with an argument that is copied, until it overflows.
pub fn copy_ran()
    ensures { CopyRan }
{
    run_keeper_keeps();
}

/// A worked row: a main procedure that adds what a function returns of a copied argument, until that overflows.
pub fn function_ran()
    ensures { FunctionRan }
{
    run_keeper_keeps();
}
