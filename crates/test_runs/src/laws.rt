// Laws of the definitions: each function's contract is one law, and calling it does nothing.

ghost use Rattle.test_runs.specs.Choices.{ChoicesDo};
ghost use Rattle.test_runs.specs.Laws.{BitsDo};
ghost use Rattle.test_runs.specs.Rows.{TurnRan};

use run_keeper::laws::run_keeper_keeps;

/// Constants, comparisons and operators of bits leave what they mean in a register, at each point of a block.
pub fn bits_do()
    ensures { BitsDo }
{}

/// IF and DO WHILE do what they mean if their tests and statements do.
pub fn choices_do()
    ensures { ChoicesDo }
{}

/// A worked row: a variable that is doubled in a loop by DO WHILE, and overflows behind it.
pub fn turn_ran()
    ensures { TurnRan }
{
    run_keeper_keeps();
}
