// Promises as laws: a function's contract is the law, and calling it does nothing.

ghost use Rattle.pli_headline.specs.Headline.{HeadlineSoFar};

use pli_meaning::laws::{storage_acts_allowed, storage_stays};

/// Each program that is proved so far keeps the headline with the image that the definitions of code have for it.
pub fn headline_so_far()
    ensures { HeadlineSoFar }
{
    storage_stays();
    storage_acts_allowed();
}
