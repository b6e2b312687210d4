// Laws of the first path: each function's contract is one law, and calling it does nothing.

ghost use Rattle.pli_headline.specs.FirstPath.{FirstPathFits, FirstPathKeeps, FirstPathProved, FirstPathSmall};

use crate::laws::headline_so_far;

/// A program of the first path is one for which the headline is proved.
pub fn first_path_proved()
    ensures { FirstPathProved }
{}

/// The code of a program of the first path is short.
pub fn first_path_small()
    ensures { FirstPathSmall }
{}

/// The image of a program of the first path fits a machine's memory, where no more than the tokens of a source spell its tree.
pub fn first_path_fits()
    ensures { FirstPathFits }
{}

/// The image of such a program keeps the headline, with a step cost that is small for its tree.
pub fn first_path_keeps()
    ensures { FirstPathKeeps }
{
    headline_so_far();
}
