// Laws of the definitions: each function's contract is one law, and calling it does nothing.

ghost use Rattle.extent_runs.specs.Arrays.{ArraysFilled};
ghost use Rattle.extent_runs.specs.Both.{ExtentsEvaluated, ExtentsPlaced};
ghost use Rattle.extent_runs.specs.Entered.{BlocksEntered};
ghost use Rattle.extent_runs.specs.Extents.{ExtentsDo, ExtentsEnd};
ghost use Rattle.extent_runs.specs.FittingArrays.{ArraysFit};
ghost use Rattle.extent_runs.specs.Lists.{ListsFound};
ghost use Rattle.extent_runs.specs.MadeArrays.{ArraysMade};
ghost use Rattle.extent_runs.specs.Making.{MakingBeginsDo, MakingProceduresRun, StraightMakes};
ghost use Rattle.extent_runs.specs.PassedLimits.{AdjustablesEnd};
ghost use Rattle.extent_runs.specs.Placing.{AdjustablesPlaced};
ghost use Rattle.extent_runs.specs.Signatures.{SignaturesFilled};
ghost use Rattle.extent_runs.specs.Unpaid.{UnpaidProceduresRun};
ghost use Rattle.extent_runs.specs.UnpaidCalls.{UnpaidCallsDo};
ghost use Rattle.extent_runs.specs.Words.{NumbersWait};

/// A begin block does what it means if the making of its variables does, and then each of its statements.
pub fn making_begins_do()
    ensures { MakingBeginsDo }
{}

/// Variables that straight code makes are made so, too.
pub fn straight_makes()
    ensures { StraightMakes }
{}

/// A procedure comes behind its call if the making of its variables does what it means, and then each statement.
pub fn making_procedures_run()
    ensures { MakingProceduresRun }
{}

/// Service 3 answers at a point with the point that has the signature with one more extent.
pub fn signatures_filled()
    ensures { SignaturesFilled }
{}

/// An upper bound that is evaluated does what it means if its expression does.
pub fn extents_do()
    ensures { ExtentsDo }
{}

/// One below the lower bound ends the run where no unit is in force for ERROR.
pub fn extents_end()
    ensures { ExtentsEnd }
{}

/// The number of the signature waits in a word of the frame, and what is known once the extent is filled in.
pub fn numbers_wait()
    ensures { NumbersWait }
{}

/// A variable whose size the run tells is placed on the lower stack, as it is meant.
pub fn adjustables_placed()
    ensures { AdjustablesPlaced }
{}

/// Where it passes the limit on what is AUTOMATIC the run ends, whether the stacks have room for it or not.
pub fn adjustables_end()
    ensures { AdjustablesEnd }
{}

/// The extents of a variable are evaluated behind their act, up to both bounds in registers.
pub fn extents_evaluated()
    ensures { ExtentsEvaluated }
{}

/// From there on the variable is made, where the list of the extent's places stands in static data.
pub fn extents_placed()
    ensures { ExtentsPlaced }
{}

/// The list of an extent's places is found at each point of a block that has its bytes; so the variable is made there.
pub fn lists_found()
    ensures { ListsFound }
{}

/// A block that has been entered has begun where the act of its extents has been made.
pub fn blocks_entered()
    ensures { BlocksEntered }
{}

/// What becomes of an array's template is the shape that the array is meant to have.
pub fn arrays_filled()
    ensures { ArraysFilled }
{}

/// A procedure comes behind its call where the act of its entry pays for what its variables took.
pub fn unpaid_procedures_run()
    ensures { UnpaidProceduresRun }
{}

/// An array whose upper bound is evaluated is made where its procedure begins, whatever the bound calls and raises.
pub fn arrays_made()
    ensures { ArraysMade }
{}

/// It fits wherever the stacks have room for all that may be AUTOMATIC, or it passes that limit.
pub fn arrays_fit()
    ensures { ArraysFit }
{}

/// CALL of such a procedure does what it means if the making of its variables does, and then each of its statements.
pub fn unpaid_calls_do()
    ensures { UnpaidCallsDo }
{}
