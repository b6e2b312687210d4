// Laws of the definitions: each function's contract is one law, and calling it does nothing.

ghost use Rattle.member_runs.specs.Allocations.{StructureAllocated};
ghost use Rattle.member_runs.specs.MemberAssignments.{MemberAssigned};
ghost use Rattle.member_runs.specs.Members.{MemberRead};
ghost use Rattle.member_runs.specs.MemberPointers.{MemberFollowed, MemberLinked};
ghost use Rattle.member_runs.specs.NullMembers.{MemberNulled};

/// A number that is a member of what a pointer variable points to leaves what it means in a register.
pub fn member_read()
    ensures { MemberRead }
{}

/// An assignment to such a number does what it means if its expression does.
pub fn member_assigned()
    ensures { MemberAssigned }
{}

/// A POINTER variable that is assigned what a member holds holds that, at each point of the block.
pub fn member_followed()
    ensures { MemberFollowed }
{}

/// A member that is assigned what a POINTER variable holds does what it means.
pub fn member_linked()
    ensures { MemberLinked }
{}

/// A member that is assigned NULL does what it means.
pub fn member_nulled()
    ensures { MemberNulled }
{}

/// ALLOCATE of a structure in an area, which sets the pointer variable, does what it means.
pub fn structure_allocated()
    ensures { StructureAllocated }
{}
