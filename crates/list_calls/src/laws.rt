// Laws of the definitions: each function's contract is one law, and calling it does nothing.

ghost use Rattle.list_calls.specs.ListCalls.{ListCallsDo};
ghost use Rattle.list_calls.specs.ListFunctions.{ListFunctionsDo};
ghost use Rattle.list_calls.specs.ListKnown.{ListsKnown};
ghost use Rattle.list_calls.specs.ListRows.{ListRan};
ghost use Rattle.list_calls.specs.Passed.{ParametersPassed, VariablesPassed};
ghost use Rattle.list_calls.specs.Taking.{NoneBeside};
ghost use Rattle.list_calls.specs.Telling.{NamesKnown};
ghost use Rattle.list_calls.specs.WordsBeside.{BesideKnown, WordsBeside};

use run_keeper::laws::run_keeper_keeps;

/// CALL with a list of arguments does what it means, of a procedure of the running block or of one around it; where a
/// limit is passed it ends the run.
pub fn list_calls_do()
    ensures { ListCallsDo }
{}

/// And so does a call in an expression of a function with a list of parameters.
pub fn list_functions_do()
    ensures { ListFunctionsDo }
{}

/// What is called so is nested in the blocks around it and knows their variables; each parameter stands for what was
/// passed.
pub fn lists_known()
    ensures { ListsKnown }
{}

/// A variable of the block, or of one around it, may be passed by reference.
pub fn variables_passed()
    ensures { VariablesPassed }
{}

/// So may the parameters of the block, whose names stand in its list.
pub fn parameters_passed()
    ensures { ParametersPassed }
{}

/// The frames of blocks tell the names of the numbers that they make, also in what is called from them.
pub fn names_known()
    ensures { NamesKnown }
{}

/// One that declares nothing beside its parameters makes nothing behind them.
pub fn none_beside()
    ensures { NoneBeside }
{}

/// One that declares variables of constant size behind its parameters makes them there.
pub fn words_beside()
    ensures { WordsBeside }
{}

/// Each of them is a variable of its block, whatever its type.
pub fn beside_known()
    ensures { BesideKnown }
{}

/// A worked row: a main procedure that passes its variable and a copy of its value to another in a loop, until their
/// sum overflows.
pub fn list_ran()
    ensures { ListRan }
{
    run_keeper_keeps();
}
