// Laws of the definitions: each function's contract is one law, and calling it does nothing.

ghost use Rattle.pli_language.specs.Laws.{SpelledOnce, ReadOnce, NeverBoth};
ghost use Rattle.pli_language.specs.Refusals.{LeastFound};

/// A token list spells at most one tree.
pub fn spelled_once()
    ensures { SpelledOnce }
{}

/// A token list is read one way: all its readings have the same refusals, and the same tree or none.
pub fn read_once()
    ensures { ReadOnce }
{}

/// No token list both spells a tree and is refused.
pub fn never_both()
    ensures { NeverBoth }
{}

/// The least of a list of refusals is one of them, and none of them stands before it; only an empty list has none.
pub fn least_found()
    ensures { LeastFound }
{}
