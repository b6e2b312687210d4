// Laws of the definitions: each function's contract is one law, and calling it does nothing.

ghost use Rattle.reference_runs.specs.LocalRows.{LocalRan};
ghost use Rattle.reference_runs.specs.LocalVariables.{LocalMadeAt, LocalsKnown};
ghost use Rattle.reference_runs.specs.ParameterAssignments.{ParametersAssigned};
ghost use Rattle.reference_runs.specs.Receivers.{NoneMadeAt};
ghost use Rattle.reference_runs.specs.ReferenceCalls.{ReferenceCallsDo, ReferencesKnown};
ghost use Rattle.reference_runs.specs.ReferenceRows.{ReferenceRan};
ghost use Rattle.reference_runs.specs.References.{ReferencesGiven};

use run_keeper::laws::run_keeper_keeps;

/// The code of a call by reference leaves the list of its argument in words of the caller's frame: the name of a
/// generation that lives.
pub fn references_given()
    ensures { ReferencesGiven }
{}

/// A procedure that declares its parameter alone makes no variables.
pub fn none_made_at()
    ensures { NoneMadeAt }
{}

/// The statement CALL of a procedure with a parameter by reference does what it means, if its variables are made as
/// they are meant and its statements do.
pub fn reference_calls_do()
    ensures { ReferenceCallsDo }
{}

/// Wherever that is called its statements know its parameter, which stands for what was passed, and the variables of
/// the block that calls it.
pub fn references_known()
    ensures { ReferencesKnown }
{}

/// An assignment to a parameter does what it means, if its expression does.
pub fn parameters_assigned()
    ensures { ParametersAssigned }
{}

/// A procedure that declares one variable beside its parameter makes it where the parameter has been bound.
pub fn local_made_at()
    ensures { LocalMadeAt }
{}

/// If that can be made where the calling block begins, it can wherever the block calls the procedure, whose statements
/// know it.
pub fn locals_known()
    ensures { LocalsKnown }
{}

/// A worked row: a main procedure that passes its variable to another in a loop, which doubles it until it overflows.
pub fn reference_ran()
    ensures { ReferenceRan }
{
    run_keeper_keeps();
}

/// A worked row: the same where that has a variable of its own.
pub fn local_ran()
    ensures { LocalRan }
{
    run_keeper_keeps();
}
