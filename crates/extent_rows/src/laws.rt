// Laws of the definitions: each function's contract is one law, and calling it does nothing.

ghost use Rattle.extent_rows.specs.BendRows.{BendRan};
ghost use Rattle.extent_rows.specs.GrowRows.{GrowRan};

use run_keeper::laws::run_keeper_keeps;

/// A worked row: a procedure whose array is as long as a variable says is called until it passes the limit.
pub fn grow_ran()
    ensures { GrowRan }
{
    run_keeper_keeps();
}

/// A worked row: FIXEDOVERFLOW is raised in the bound of an array, and the unit for it returns into the extent.
pub fn bend_ran()
    ensures { BendRan }
{
    run_keeper_keeps();
}
