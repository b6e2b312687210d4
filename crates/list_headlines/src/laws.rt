// Laws of the definitions: each function's contract is one law, and calling it does nothing.

ghost use Rattle.list_headlines.specs.Rows.{ListKept};

use block_headlines::laws::headlines_kept;

/// A worked row: a main procedure that passes its variable and a copy of its value to another in a loop, until their
/// sum overflows.
pub fn list_kept()
    ensures { ListKept }
{
    headlines_kept();
}
