// Laws of the definitions: each function's contract is one law, and calling it does nothing.

ghost use Rattle.begin_runs.specs.BeginBlocks.{BeginsDo};
ghost use Rattle.begin_runs.specs.FarGotos.{FarGotosDo};
ghost use Rattle.begin_runs.specs.InnerVariables.{InnerNumbers, NoneMade, OneAmong, OneMade, OwnNumbers};
ghost use Rattle.begin_runs.specs.LeaveRows.{LeaveRan};
ghost use Rattle.begin_runs.specs.Rows.{NestRan};
ghost use Rattle.begin_runs.specs.ThroughReturns.{ThroughReturnsDo};

use run_keeper::laws::run_keeper_keeps;

/// A begin block does what it means if each of its statements does, however it is left.
pub fn begins_do()
    ensures { BeginsDo }
{}

/// A begin block that has no variables makes none.
pub fn none_made()
    ensures { NoneMade }
{}

/// A begin block with one variable makes it where it begins.
pub fn one_made()
    ensures { OneMade }
{}

/// If it can make it where the first statement of the block around begins, it can wherever it stands in that.
pub fn one_among()
    ensures { OneAmong }
{}

/// And it is a number of the begin block.
pub fn own_numbers()
    ensures { OwnNumbers }
{}

/// A variable of the blocks around a begin block is a variable of it.
pub fn inner_numbers()
    ensures { InnerNumbers }
{}

/// GOTO to a label of a block further out ends the blocks inside it, and goes on there.
pub fn far_gotos_do()
    ensures { FarGotosDo }
{}

/// RETURN in a begin block ends it with the blocks around it up to their procedure, which comes to its end.
pub fn through_returns_do()
    ensures { ThroughReturnsDo }
{}

/// A worked row: a main procedure with begin blocks, one that assigns its variable and one that jumps out.
pub fn nest_ran()
    ensures { NestRan }
{
    run_keeper_keeps();
}

/// A worked row: RETURN in two begin blocks, one inside the other, of a main procedure.
pub fn leave_ran()
    ensures { LeaveRan }
{
    run_keeper_keeps();
}
