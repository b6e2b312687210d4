// Laws of the definitions: each function's contract is one law, and calling it does nothing.

ghost use Rattle.get_runs.specs.Gets.{EndfileEnds, GetsDo, NumbersStored};

/// A FIXED BINARY(31) variable is read into.
pub fn numbers_stored()
    ensures { NumbersStored }
{}

/// ENDFILE without a unit in force ends the run.
pub fn endfile_ends()
    ensures { EndfileEnds }
{}

/// GET EDIT of numbers by F does what it means, in a block that knows the format lists.
pub fn gets_do()
    ensures { GetsDo }
{}
