// Laws of the definitions: each function's contract is one law, and calling it does nothing.

ghost use Rattle.initial_runs.specs.Numbers.{ConstantsBegin};

/// A FIXED BINARY(31) scalar with a constant may begin so where it has room, and holds the constant then.
pub fn constants_begin()
    ensures { ConstantsBegin }
{}
