// Laws of the definitions: each function's contract is one law, and calling it does nothing.

ghost use Rattle.text_units.specs.Raises.{RaisesWait};
ghost use Rattle.text_units.specs.Rows.{RiseRan};

use run_keeper::laws::run_keeper_keeps;

/// A unit is raised while texts wait as it is without: behind it they are there.
pub fn raises_wait()
    ensures { RaisesWait }
{}

/// A worked row: a main procedure with a unit for FIXEDOVERFLOW, which returns into an expression where a text waits.
pub fn rise_ran()
    ensures { RiseRan }
{
    run_keeper_keeps();
}
