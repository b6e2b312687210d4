// Laws of the definitions: each function's contract is one law, and calling it does nothing.

ghost use Rattle.cut_runs.specs.Continuing.{ServicesContinue};
ghost use Rattle.cut_runs.specs.Fronts.{AcceptedCutRunsMeant, CutRunsMeant, MeaningsContinue, RunsContinue};

use meaning_runs::laws::meaning_there;
use pli_meaning::laws::storage_grows;
use well_formed_trees::laws::accepted_well_formed;

/// No service takes back what was shown.
pub fn services_continue()
    ensures { ServicesContinue }
{}

/// What an image shows is the front of what it shows with more instructions.
pub fn runs_continue()
    ensures { RunsContinue }
{}

/// What a well-formed program shows is the front of what it shows with more acts.
pub fn meanings_continue()
    ensures { MeaningsContinue }
{
    storage_grows();
    meaning_there();
}

/// Where the headline is proved, what a run shows where it is cut off is the front of what the program means.
pub fn cut_runs_meant()
    ensures { CutRunsMeant }
{
    meanings_continue();
}

/// So it is for each accepted source.
pub fn accepted_cut_runs_meant()
    ensures { AcceptedCutRunsMeant }
{
    accepted_well_formed();
    cut_runs_meant();
}
