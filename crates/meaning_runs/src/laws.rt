// Laws of the meaning of programs: each function's contract is one law, and calling it does nothing.

ghost use Rattle.meaning_runs.specs.Present.{NeverStuck, MeaningThere, AcceptedMeaningThere};
ghost use Rattle.meaning_runs.specs.Caught.{JumpCaught};

use well_formed_trees::laws::accepted_well_formed;

/// A run of a well-formed program is never stuck, and no jump goes out of it: it ends or pauses.
pub fn never_stuck()
    ensures { NeverStuck }
{}

/// A well-formed program has a meaning at every number of acts.
pub fn meaning_there()
    ensures { MeaningThere }
{}

/// So has the typed tree of each accepted source.
pub fn accepted_meaning_there()
    ensures { AcceptedMeaningThere }
{
    accepted_well_formed();
}

/// A well-formed program in which a function ends without a value, and an on-unit for that goes back to a label of the
/// function's list: the run goes on there.
pub fn jump_caught()
    ensures { JumpCaught }
{}
