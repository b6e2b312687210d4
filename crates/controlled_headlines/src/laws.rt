// Laws of the definitions: each function's contract is one law, and calling it does nothing.

ghost use Rattle.controlled_headlines.specs.Headlines.{ListedHeadlinesKept, StackKept};

use pli_meaning::laws::{storage_acts_allowed, storage_stays};
use run_keeper::laws::run_keeper_keeps;

/// A program keeps the headline if each statement of its main procedure, without labels, does what it means where the
/// lists of CONTROLLED generations stand.
pub fn listed_headlines_kept()
    ensures { ListedHeadlinesKept }
{
    storage_stays();
    storage_acts_allowed();
    run_keeper_keeps();
}

/// A worked row: a number is allocated twice, and freed once more often.
pub fn stack_kept()
    ensures { StackKept }
{
    listed_headlines_kept();
}
