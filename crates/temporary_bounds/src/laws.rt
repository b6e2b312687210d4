// Laws of the definitions: each function's contract is one law, and calling it does nothing.

ghost use Rattle.temporary_bounds.specs.Laws.{NumbersNeeded, StatementsBounded};

/// Statements take no more words of a frame than a count of a word for each number that waits.
pub fn statements_bounded()
    ensures { StatementsBounded }
{}

/// A number takes as many words as that count, but for those that registers hold.
pub fn numbers_needed()
    ensures { NumbersNeeded }
{}
