// Laws of the definitions: each function's contract is one law, and calling it does nothing.

ghost use Rattle.text_runs.specs.Laws.{TextsDo};
ghost use Rattle.text_runs.specs.Rows.{WaitRan};
ghost use Rattle.text_runs.specs.Texts.{ErrorEnds};
ghost use Rattle.text_runs.specs.Waiting.{TextsWait};

use run_keeper::laws::run_keeper_keeps;

/// What is known of a block, and around its expressions, is known while texts wait.
pub fn texts_wait()
    ensures { TextsWait }
{}

/// Where no unit of the program is in force for it, ERROR ends the run, whatever texts wait.
pub fn error_ends()
    ensures { ErrorEnds }
{}

/// Texts of numbers, texts that are joined and parts of one come onto the stack above those that wait; what is told of
/// texts as a number drops them.
pub fn texts_do()
    ensures { TextsDo }
{}

/// A worked row: a main procedure in whose expression a text waits below the call of a function, until that overflows.
pub fn wait_ran()
    ensures { WaitRan }
{
    run_keeper_keeps();
}
