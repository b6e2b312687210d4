// Laws of the definitions: each function's contract is one law, and calling it does nothing.

ghost use Rattle.error_units.specs.Errors.{ErrorsAround, ErrorsGo};

/// ERROR does what it means: its unit runs, and behind that the run ends, unless the unit is left by a jump.
pub fn errors_go()
    ensures { ErrorsGo }
{}

/// So does what raises it: a condition without a unit, a subscript outside its bounds, SIGNAL, a function without a
/// value.
pub fn errors_around()
    ensures { ErrorsAround }
{}
