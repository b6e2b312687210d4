// Laws of the definitions: each function's contract is one law, and calling it does nothing.

ghost use Rattle.edit_headlines.specs.Formats.{FormatsFound, FormatsKnown};
ghost use Rattle.edit_headlines.specs.Rows.{RuledKept};

use block_headlines::laws::headlines_kept;

/// Service 34 finds a format list where the bytes of its datum stand.
pub fn formats_found()
    ensures { FormatsFound }
{}

/// So it finds it at each point of a block in whose static data the list is told, as each list of a program is.
pub fn formats_known()
    ensures { FormatsKnown }
{}

/// A worked row: a loop that ends two lines in each turn keeps the headline.
pub fn ruled_kept()
    ensures { RuledKept }
{
    headlines_kept();
}
