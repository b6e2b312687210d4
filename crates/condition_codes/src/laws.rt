// Laws of the definitions: each function's contract is one law, and calling it does nothing.

ghost use Rattle.condition_codes.specs.Codes.{CodesTold};

/// ONCODE leaves the code for which the newest on-unit runs, or 0.
pub fn codes_told()
    ensures { CodesTold }
{}
