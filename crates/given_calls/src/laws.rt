// Laws of the definitions: each function's contract is one law, and calling it does nothing.

ghost use Rattle.given_calls.specs.Given.{NoneBeside};
ghost use Rattle.given_calls.specs.GivenCalls.{GivenCallsDo};
ghost use Rattle.given_calls.specs.GivenFunctions.{GivenFunctionsDo};
ghost use Rattle.given_calls.specs.GivenKnown.{GivenKnown};

/// CALL with an argument that is copied does what it means, of a procedure of the running block or of one around it;
/// where as many blocks are active as may be it ends the run.
pub fn given_calls_do()
    ensures { GivenCallsDo }
{}

/// So does a call of such a function in an expression.
pub fn given_functions_do()
    ensures { GivenFunctionsDo }
{}

/// What is called so is nested in the blocks around it and knows their variables; its parameter stands for the copy.
pub fn given_known()
    ensures { GivenKnown }
{}

/// One that declares nothing beside its parameter makes nothing behind the copy.
pub fn none_beside()
    ensures { NoneBeside }
{}
