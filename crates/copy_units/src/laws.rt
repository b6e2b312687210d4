// Laws of the definitions: each function's contract is one law, and calling it does nothing.

ghost use Rattle.copy_units.specs.Calls.{CopyUnitsDo, CopyUnitsKnow};
ghost use Rattle.copy_units.specs.Rows.{MuteRan};

use run_keeper::laws::run_keeper_keeps;

/// Calls of procedures and functions with a parameter by copy do what they mean if their lists do, with ON in them.
pub fn copy_units_do()
    ensures { CopyUnitsDo }
{}

/// The parameter is one whatever units its block has by then.
pub fn copy_units_know()
    ensures { CopyUnitsKnow }
{}

/// A worked row: a main procedure that calls a function with a parameter and a unit that does nothing.
pub fn mute_ran()
    ensures { MuteRan }
{
    run_keeper_keeps();
}
