// Laws of the definitions: each function's contract is one law, and calling it does nothing.

ghost use Rattle.array_runs.specs.Laws.{ArraysAssigned, ArraysDo, BoundsDo};
ghost use Rattle.array_runs.specs.Outer.{ArraysKnown};

/// An element of an array of numbers or bits leaves what it means in a register, at each point of a block.
pub fn arrays_do()
    ensures { ArraysDo }
{}

/// LBOUND, HBOUND and DIM of such an array leave what they mean.
pub fn bounds_do()
    ensures { BoundsDo }
{}

/// An assignment to one does what it means if its expressions do.
pub fn arrays_assigned()
    ensures { ArraysAssigned }
{}

/// Such an array is known wherever its variable is.
pub fn arrays_known()
    ensures { ArraysKnown }
{}
