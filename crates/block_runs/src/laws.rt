// Laws of the definitions: each function's contract is one law, and calling it does nothing.

ghost use Rattle.block_runs.specs.Laws.{BlocksBegin, BlocksEnd, ActsCome};
ghost use Rattle.block_runs.specs.InnerBeginnings.{InnerBlocksBegin, InnerBlocksEnd};
ghost use Rattle.block_runs.specs.EmptyProcedures.{EmptyCalls};
ghost use Rattle.block_runs.specs.CallStatements.{StatementsCall};
ghost use Rattle.block_runs.specs.Bodies.{CallsReturn};
ghost use Rattle.block_runs.specs.Rows.{EmptyCalled};

/// The code of a procedure's beginning takes machine and services from its call to its block.
pub fn blocks_begin()
    ensures { BlocksBegin }
{}

/// The code of a begin block takes them from where it stands to its own block.
pub fn inner_blocks_begin()
    ensures { InnerBlocksBegin }
{}

/// The code of a begin block's end takes them on behind it, in the block around.
pub fn inner_blocks_end()
    ensures { InnerBlocksEnd }
{}

/// The code of a procedure's end takes them back behind its call, to the block below.
pub fn blocks_end()
    ensures { BlocksEnd }
{}

/// An act is made at a point, or the run pauses before it.
pub fn acts_come()
    ensures { ActsCome }
{}

/// A call of a procedure that does nothing comes back behind it, at the point that the storage machine comes to.
pub fn empty_calls()
    ensures { EmptyCalls }
{}

/// A worked row: such a call, with its layer and its code.
pub fn empty_called()
    ensures { EmptyCalled }
{}

/// The statement CALL of such a procedure, in the block that declares it, does what it means.
pub fn statements_call()
    ensures { StatementsCall }
{}

/// A call of a procedure whose body comes to its end comes back behind it, at a later point.
pub fn calls_return()
    ensures { CallsReturn }
{}
