// Laws of the definitions: each function's contract is one law, and calling it does nothing.

ghost use Rattle.run_steps.specs.Counting.{CallsCountOnce, RunsCountWithin};
ghost use Rattle.run_steps.specs.Laws.{CodeRuns, LinkedCodeStands, RunsGrow, RunsLimited, SerialsGiven, StretchesJoin};

/// Straight code whose conditions hold runs through, at each base, and comes to what they say.
pub fn code_runs()
    ensures { CodeRuns }
{}

/// Linked code stands item by item.
pub fn linked_code_stands()
    ensures { LinkedCodeStands }
{}

/// A run makes at most one act an instruction, and shows nothing new but by an act.
pub fn runs_grow()
    ensures { RunsGrow }
{}

/// A run of fewer than 2^64 instructions comes to the same with the limit of serial numbers.
pub fn runs_limited()
    ensures { RunsLimited }
{}

/// Stretches of a run are put together, and instructions are paid for by credits.
pub fn stretches_join()
    ensures { StretchesJoin }
{}

/// A call of a service makes at most one act or gives at most one serial, so a run counts no further than its
/// instructions, acts and serials together.
pub fn counts_in_range()
    ensures call { CallsCountOnce }
    ensures run { RunsCountWithin }
{}

/// Without a limit of serial numbers too, and what a bound says of a machine's run it says of what the run reaches.
pub fn serials_given()
    ensures { SerialsGiven }
{}
