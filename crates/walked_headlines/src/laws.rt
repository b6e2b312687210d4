// Laws of the definitions: each function's contract is one law, and calling it does nothing.

ghost use Rattle.walked_headlines.specs.Rows.{WalkedKept};

use block_headlines::laws::headlines_kept;

/// A worked row: three structures in an area are linked, and the list is walked, written and freed.
pub fn walked_kept()
    ensures { WalkedKept }
{
    headlines_kept();
}
