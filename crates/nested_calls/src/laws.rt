// Laws of the definitions: each function's contract is one law, and calling it does nothing.

ghost use Rattle.nested_calls.specs.FullVariables.{VariablesEnd};
ghost use Rattle.nested_calls.specs.NestedCalls.{NestedCallsDo};
ghost use Rattle.nested_calls.specs.NestedFunctions.{NestedFunctionsDo};
ghost use Rattle.nested_calls.specs.NestedVariables.{NestedNumbers};

/// CALL does what it means, of a procedure of the running block or of one around it; one that passes a limit ends the
/// run.
pub fn nested_calls_do()
    ensures { NestedCallsDo }
{}

/// So does a call of such a function in an expression.
pub fn nested_functions_do()
    ensures { NestedFunctionsDo }
{}

/// What is called is nested in the blocks around it, whose variables, of any type, are the same ones there.
pub fn nested_numbers()
    ensures { NestedNumbers }
{}

/// A variable that passes the limit on what is AUTOMATIC ends the run where it would be made.
pub fn variables_end()
    ensures { VariablesEnd }
{}
