// Laws of the definitions: each function's contract is one law, and calling it does nothing.

ghost use Rattle.text_headlines.specs.Rows.{GrownKept};

use block_headlines::laws::headlines_kept;

/// A worked row: a text that grows in a loop until it is long enough, and is compared, keeps the headline.
pub fn grown_kept()
    ensures { GrownKept }
{
    headlines_kept();
}
