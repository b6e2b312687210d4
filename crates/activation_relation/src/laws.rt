// Laws of the definitions: each function's contract is one law, and calling it does nothing.

ghost use Rattle.activation_relation.specs.ServiceLaws.{ActsServed, BlocksServed, UnitsServed, ChainsKept};
ghost use Rattle.activation_relation.specs.FrameLaws.{FramesKept, FramesBegin, WordsWait, FramesEnd};
ghost use Rattle.activation_relation.specs.Owned.{FramesApart};
ghost use Rattle.activation_relation.specs.Account.{StacksPaid};
ghost use Rattle.activation_relation.specs.PointLaws.{PointsGo, MemoriesGo, SerialsCount};
ghost use Rattle.activation_relation.specs.LandingLaws.{JumpsLand, ReturnsLeave};
ghost use Rattle.activation_relation.specs.Entering.{BlocksReturn};
ghost use Rattle.activation_relation.specs.Rows.{RunsBegin, UnitRuns};
ghost use Rattle.activation_relation.specs.Variables.{VariablesBegin};
ghost use Rattle.activation_relation.specs.CodeStores.{CodeStores};
ghost use Rattle.activation_relation.specs.Remaining.{StorageRemains};

/// Service 1 makes an act, or tells a line.
pub fn acts_served()
    ensures { ActsServed }
{}

/// Services 4, 5 and 31 enter and leave a block as the storage machine does.
pub fn blocks_served()
    ensures { BlocksServed }
{}

/// Services 28 to 30 and 33 have the on-units of the storage machine, by the places of their code.
pub fn units_served()
    ensures { UnitsServed }
{}

/// The storage machine's activations and the layers stay side by side.
pub fn chains_kept()
    ensures { ChainsKept }
{}

/// Frames stay through what changes beside them, and those further out through the end of the others.
pub fn frames_kept()
    ensures { FramesKept }
{}

/// The stores of a block's beginning make its frame, and change nothing else.
pub fn frames_begin()
    ensures { FramesBegin }
{}

/// What is stored in words of a frame waits there, also while other blocks run.
pub fn words_wait()
    ensures { WordsWait }
{}

/// A block that ends finds in its frame where it goes back, and what the registers held.
pub fn frames_end()
    ensures { FramesEnd }
{}

/// Frames lie beside all that is stored, so code that stores in one leaves the other.
pub fn frames_apart()
    ensures { FramesApart }
{}

/// Each activation pays for what it takes of the stacks, so one more fits while fewer are active than may be.
pub fn stacks_paid()
    ensures { StacksPaid }
{}

/// What holds at a point holds at those to which acts, blocks and on-units lead.
pub fn points_go()
    ensures { PointsGo }
{}

/// Memory has then what the storage machine has, and all frames.
pub fn memories_go()
    ensures { MemoriesGo }
{}

/// Jumps land in every block that is active, seen from further in, later, and from within a list of statements.
pub fn jumps_land()
    ensures { JumpsLand }
{}

/// A RETURN goes on at the end of the nearest block that is no begin block.
pub fn returns_leave()
    ensures { ReturnsLeave }
{}

/// A block that ends has left all but storage as it was, and the machine of the block below.
pub fn blocks_return()
    ensures { BlocksReturn }
{}

/// All of this holds where a run begins.
pub fn runs_begin()
    ensures { RunsBegin }
{}

/// The frame of an on-unit above that of a procedure, word by word, in a worked row.
pub fn unit_runs()
    ensures { UnitRuns }
{}

/// A variable that is made in the newest block takes bytes of the block's own.
pub fn variables_begin()
    ensures { VariablesBegin }
{}

/// The stores of a block's beginning are those of its code, and its end loads the registers that it saved.
pub fn code_stores()
    ensures { CodeStores }
{}

/// What lives at a point lives at a later one, in its place, with its owner and its shape.
pub fn storage_remains()
    ensures { StorageRemains }
{}

/// Serials are counted beside acts: each act pays for so many.
pub fn serials_count()
    ensures { SerialsCount }
{}
