// Laws of the definitions: each function's contract is one law, and calling it does nothing.

ghost use Rattle.parameter_runs.specs.Around.{AssignedAround, KnownAround, PassedAround, ReadAround};

/// A parameter of a block around is a number at the points of a block, as one of its own is.
pub fn read_around()
    ensures { ReadAround }
{}

/// An assignment to one changes what was passed by reference, or the copy.
pub fn assigned_around()
    ensures { AssignedAround }
{}

/// Its name may be passed on.
pub fn passed_around()
    ensures { PassedAround }
{}

/// A parameter of a block is one in what is called from it, without arguments and with a list.
pub fn known_around()
    ensures { KnownAround }
{}
