// Laws of the definitions: each function's contract is one law, and calling it does nothing.

ghost use Rattle.counter_runs.specs.CountRows.{CountRan};
ghost use Rattle.counter_runs.specs.Laws.{CountersDo, CountsDo, StepsCount, TurnsDo, TurnsKnow};
ghost use Rattle.counter_runs.specs.TallyRows.{TallyRan};

use run_keeper::laws::run_keeper_keeps;

/// DO with a variable that counts does what it means if its start, its limit and its statements do.
pub fn counts_do()
    ensures { CountsDo }
{}

/// Statements whose code takes no words do what they mean in a turn if each of them does.
pub fn turns_do()
    ensures { TurnsDo }
{}

/// A variable of the block, or an element of an array, counts.
pub fn counters_do()
    ensures { CountersDo }
{}

/// Constants are steps, of either sign.
pub fn steps_count()
    ensures { StepsCount }
{}

/// What a block knows it knows in a turn.
pub fn turns_know()
    ensures { TurnsKnow }
{}

/// A worked row: a variable that is doubled in three turns, until it overflows.
pub fn count_ran()
    ensures { CountRan }
{
    run_keeper_keeps();
}

/// A worked row: an element counts, whose subscript a function returns, in which a condition is raised that has a unit.
pub fn tally_ran()
    ensures { TallyRan }
{
    run_keeper_keeps();
}
