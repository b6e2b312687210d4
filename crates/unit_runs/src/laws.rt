// Laws of the definitions: each function's contract is one law, and calling it does nothing.

ghost use Rattle.unit_runs.specs.BeginRows.{HostRan};
ghost use Rattle.unit_runs.specs.Bodies.{BodiesDo, UnitCallsDo, UnitProgramsRun};
ghost use Rattle.unit_runs.specs.CallRows.{LendRan};
ghost use Rattle.unit_runs.specs.Changing.{ListsChange};
ghost use Rattle.unit_runs.specs.DeepRows.{DeepRan};
ghost use Rattle.unit_runs.specs.Establishing.{UnitsEstablished};
ghost use Rattle.unit_runs.specs.InnerLists.{InnerListsChange};
ghost use Rattle.unit_runs.specs.JumpRows.{SkipRan};
ghost use Rattle.unit_runs.specs.LoopRows.{LoopRan};
ghost use Rattle.unit_runs.specs.Raised.{DeepRaisesEnd, RaisesReturn};
ghost use Rattle.unit_runs.specs.Rows.{MendRan};
ghost use Rattle.unit_runs.specs.Signals.{SignalsDo};
ghost use Rattle.unit_runs.specs.UnitBeginnings.{UnitsBegin, UnitsEnd};
ghost use Rattle.unit_runs.specs.UnitVariables.{UnitVariables};

use run_keeper::laws::run_keeper_keeps;

/// ON with a unit makes it the newest block's own, and the run goes on over the unit's code.
pub fn units_established()
    ensures { UnitsEstablished }
{}

/// The code of a unit's beginning takes machine and services from its first instruction to its block.
pub fn units_begin()
    ensures { UnitsBegin }
{}

/// The code of its end takes them on where its raise said, to the block below.
pub fn units_end()
    ensures { UnitsEnd }
{}

/// A raise while a unit is in force runs the unit: behind its end the program goes on where the raise said, and
/// FIXEDOVERFLOW in an expression with the value that was saved; or at the label to which the unit jumps.
pub fn raises_return()
    ensures { RaisesReturn }
{}

/// Where as many blocks are active as may be such a raise ends the run.
pub fn deep_raises_end()
    ensures { DeepRaisesEnd }
{}

/// A unit makes no variables of its own, and those of the block that established it are variables of it.
pub fn unit_variables()
    ensures { UnitVariables }
{}

/// A procedure's own list comes to the block's end, with ON among its first statements.
pub fn bodies_do()
    ensures { BodiesDo }
{}

/// So does one in which ON stands anywhere, also behind labels.
pub fn lists_change()
    ensures { ListsChange }
{}

/// And so do begin blocks with such lists, and raises while a unit with one is in force.
pub fn inner_lists_change()
    ensures { InnerListsChange }
{}

/// So CALL of a procedure that has such a list does what it means.
pub fn unit_calls_do()
    ensures { UnitCallsDo }
{}

/// SIGNAL of a condition other than ERROR does what it means, while a unit is in force for it.
pub fn signals_do()
    ensures { SignalsDo }
{}

/// A program whose main procedure has such a list does what it means.
pub fn unit_programs_run()
    ensures { UnitProgramsRun }
{
    run_keeper_keeps();
}

/// A worked row: a main procedure with a unit that assigns its variable and returns into the expression.
pub fn mend_ran()
    ensures { MendRan }
{
    run_keeper_keeps();
}

/// A worked row: a main procedure with a unit that jumps out of the expression to a label.
pub fn skip_ran()
    ensures { SkipRan }
{
    run_keeper_keeps();
}

/// A worked row: a main procedure with ON in a loop, whose unit, a single statement, jumps out of it.
pub fn loop_ran()
    ensures { LoopRan }
{
    run_keeper_keeps();
}

/// A worked row: a main procedure with a unit that is raised in a procedure that it calls.
pub fn lend_ran()
    ensures { LendRan }
{
    run_keeper_keeps();
}

/// A worked row: a main procedure with ON in a begin block, behind which the unit is gone.
pub fn host_ran()
    ensures { HostRan }
{
    run_keeper_keeps();
}

/// A worked row: a main procedure with a unit that has ON itself, and raises its condition again.
pub fn deep_ran()
    ensures { DeepRan }
{
    run_keeper_keeps();
}
