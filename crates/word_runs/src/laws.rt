// Laws of the definitions: each function's contract is one law, and calling it does nothing.

ghost use Rattle.word_runs.specs.Laws.{WordsTold};

/// A block whose words are told is one like any other, and a word that is stored is told.
pub fn words_told()
    ensures { WordsTold }
{}
