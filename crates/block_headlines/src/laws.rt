// Laws of the definitions: each function's contract is one law, and calling it does nothing.

ghost use Rattle.block_headlines.specs.Constants.{ConstantsTold};
ghost use Rattle.block_headlines.specs.Headlines.{HeadlinesKept, HeadlinesOfRows, UnitHeadlinesKept};

use code_marks::laws::marked_once;
use pli_meaning::laws::{storage_acts_allowed, storage_stays};
use run_keeper::laws::run_keeper_keeps;
use storage_relation::laws::table_differs;

/// A program keeps the headline with the image that pli_coding defines for it if each statement of its main procedure
/// does what it means, whatever the input and the number of acts that are allowed.
pub fn headlines_kept()
    ensures { HeadlinesKept }
{
    storage_stays();
    storage_acts_allowed();
    run_keeper_keeps();
}

/// So does one with ON among the statements of its main procedure, if their list comes to its end.
pub fn unit_headlines_kept()
    ensures { UnitHeadlinesKept }
{
    storage_stays();
    storage_acts_allowed();
    run_keeper_keeps();
}

/// What a program tells of its static data stands in the first memory of its image, each datum at its place.
pub fn constants_told()
    ensures { ConstantsTold }
{}

/// The programs of all worked rows of the crates below keep the headline.
pub fn headlines_of_rows()
    ensures { HeadlinesOfRows }
{
    storage_stays();
    storage_acts_allowed();
    run_keeper_keeps();
    marked_once();
    table_differs();
}
