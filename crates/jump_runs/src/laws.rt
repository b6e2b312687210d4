// Laws of the definitions: each function's contract is one law, and calling it does nothing.

ghost use Rattle.jump_runs.specs.Calls.{CalledBlocks, JumpCallsDo};
ghost use Rattle.jump_runs.specs.DropRows.{DropRan};
ghost use Rattle.jump_runs.specs.Exits.{CallsHand};
ghost use Rattle.jump_runs.specs.FunctionRows.{ShedRan};
ghost use Rattle.jump_runs.specs.Functions.{FunctionBlocks, FunctionListsDo, JumpFunctionsDo};
ghost use Rattle.jump_runs.specs.Rows.{BoltRan};
ghost use Rattle.jump_runs.specs.UnitRows.{FleeRan};

use run_keeper::laws::run_keeper_keeps;

/// A call hands a jump on that leaves its block for a label of a block further out.
pub fn calls_hand()
    ensures { CallsHand }
{}

/// CALL of a procedure that may jump out so does what it means if the procedure's list does.
pub fn jump_calls_do()
    ensures { JumpCallsDo }
{}

/// Such a procedure has the variables and the static ancestors of the block that declares it, and may have a variable.
pub fn called_blocks()
    ensures { CalledBlocks }
{}

/// A function's list comes to its end, or jumps out, if its statements and the raise behind them do what they mean.
pub fn function_lists_do()
    ensures { FunctionListsDo }
{}

/// The call of such a function in an expression leaves its value while texts wait, or goes on where the function jumps.
pub fn jump_functions_do()
    ensures { JumpFunctionsDo }
{}

/// It has the variables and the static ancestors of the block that declares it, and may have a variable.
pub fn function_blocks()
    ensures { FunctionBlocks }
{}

/// A worked row: a main procedure that calls another, which jumps back to a label of the main one.
pub fn bolt_ran()
    ensures { BoltRan }
{
    run_keeper_keeps();
}

/// A worked row: a main procedure with an expression that calls a function, which jumps out of it to a label.
pub fn shed_ran()
    ensures { ShedRan }
{
    run_keeper_keeps();
}

/// A worked row: the same while a text waits on the stack, which the jump drops.
pub fn drop_ran()
    ensures { DropRan }
{
    run_keeper_keeps();
}

/// A worked row: a main procedure with an expression that calls a function, whose unit jumps out of both.
pub fn flee_ran()
    ensures { FleeRan }
{
    run_keeper_keeps();
}
