// Laws of the definitions: each function's contract is one law, and calling it does nothing.

ghost use Rattle.member_freeings.specs.Freeing.{StructureFreed};

/// FREE of a structure that a pointer variable points to does what it means.
pub fn structure_freed()
    ensures { StructureFreed }
{}
