// Laws of the definitions: each function's contract is one law, and calling it does nothing.

ghost use Rattle.get_headlines.specs.Rows.{SummedKept};

use block_headlines::laws::headlines_kept;

/// A worked row: a loop that reads numbers until their sum is large enough, or the input ends, keeps the headline.
pub fn summed_kept()
    ensures { SummedKept }
{
    headlines_kept();
}
