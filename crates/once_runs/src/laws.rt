// Laws of the definitions: each function's contract is one law, and calling it does nothing.

ghost use Rattle.once_runs.specs.Onces.{OncesDo};

/// DO with a variable that starts once does what it means if the assignment, its test and its statements do.
pub fn onces_do()
    ensures { OncesDo }
{}
