// Laws of the definitions: each function's contract is one law, and calling it does nothing.

ghost use Rattle.group_runs.specs.Groups.{GroupsDo};
ghost use Rattle.group_runs.specs.Rows.{GroupRan};

use run_keeper::laws::run_keeper_keeps;

/// A DO group does what it means if each of its statements does.
pub fn groups_do()
    ensures { GroupsDo }
{}

/// A worked row: a variable that is doubled in a group, out of which GOTO jumps back, until it overflows.
pub fn group_ran()
    ensures { GroupRan }
{
    run_keeper_keeps();
}
