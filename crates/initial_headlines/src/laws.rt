// Laws of the definitions: each function's contract is one law, and calling it does nothing.

ghost use Rattle.initial_headlines.specs.Rows.{ReachingKept};
ghost use Rattle.initial_headlines.specs.Told.{InitialTold};

use block_headlines::laws::headlines_kept;

/// INITIAL values that a program's code names are told of its static data.
pub fn initial_told()
    ensures { InitialTold }
{}

/// A worked row: a variable that begins with a constant, and is counted up until that overflows, keeps the headline.
pub fn reaching_kept()
    ensures { ReachingKept }
{
    headlines_kept();
}
