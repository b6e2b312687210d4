// Laws of the definitions: each function's contract is one law, and calling it does nothing.

ghost use Rattle.offset_runs.specs.OffsetAddresses.{AddressGiven};
ghost use Rattle.offset_runs.specs.OffsetAssignments.{OffsetAssigned, OffsetKept};
ghost use Rattle.offset_runs.specs.OffsetPointers.{PointerFromOffset};
ghost use Rattle.offset_runs.specs.OffsetReferences.{NumberByOffset};
ghost use Rattle.offset_runs.specs.Offsets.{OffsetsCompared, OffsetsGiven};

/// NULL, an OFFSET variable and an OFFSET member leave what they mean in a register.
pub fn offsets_given()
    ensures { OffsetsGiven }
{}

/// Comparisons of offsets leave what they mean in a register if both operands do.
pub fn offsets_compared()
    ensures { OffsetsCompared }
{}

/// An assignment to an OFFSET variable does what it means if its value does.
pub fn offset_assigned()
    ensures { OffsetAssigned }
{}

/// An assignment to an OFFSET member of what a pointer variable points to does what it means if its value does.
pub fn offset_kept()
    ensures { OffsetKept }
{}

/// A POINTER variable that is assigned a pointer into an area holds that, at each point of the block.
pub fn pointer_from_offset()
    ensures { PointerFromOffset }
{}

/// The offset in an area of what a pointer variable points to is left in a register; where that doesn't live in the
/// area, ERROR ends the run.
pub fn address_given()
    ensures { AddressGiven }
{}

/// A number that is a member of what an offset names leaves what it means in a register if the offset does.
pub fn number_by_offset()
    ensures { NumberByOffset }
{}
