// Laws of the definitions: each function's contract is one law, and calling it does nothing.

ghost use Rattle.program_places.specs.Inner.{InnerPlaced};
ghost use Rattle.program_places.specs.Laws.{BodiesStand, CalleesStand, CallsStand, CodePlaced, FunctionsStand};
ghost use Rattle.program_places.specs.Laws.{ListsPlaced, MemoryFits, RoutinesStand, StartsStand, WholesStand};
ghost use Rattle.program_places.specs.Rows.{TurningRan};
ghost use Rattle.program_places.specs.Tables.{TablesRuled};

use code_marks::laws::marked_once;
use run_keeper::laws::run_keeper_keeps;
use storage_relation::laws::table_differs;

/// The code of a well-formed program stands in its image, each symbol that it marks at its place, and so do its parts.
pub fn code_placed()
    ensures { CodePlaced }
{
    marked_once();
}

/// The labels of a list that stands in the code stand where its statements do.
pub fn lists_placed()
    ensures { ListsPlaced }
{}

/// Where BEGIN or ON stands, the list of its block stands, too, and so does the unit.
pub fn inner_placed()
    ensures { InnerPlaced }
{}

/// The routines of raises stand behind the start.
pub fn routines_stand()
    ensures { RoutinesStand }
{
    marked_once();
}

/// The statements of each procedure and function without parameters stand behind its beginning.
pub fn bodies_stand()
    ensures { BodiesStand }
{
    marked_once();
}

/// A call of such a procedure ends the code of its statement.
pub fn calls_stand()
    ensures { CallsStand }
{}

/// Each procedure without parameters stands where its calls lead.
pub fn callees_stand()
    ensures { CalleesStand }
{
    marked_once();
}

/// So does each function without parameters that returns FIXED BINARY.
pub fn functions_stand()
    ensures { FunctionsStand }
{
    marked_once();
}

/// The table of a program keeps the rules of tables if the signature of each variable does, as that of a number does.
pub fn tables_ruled()
    ensures { TablesRuled }
{}

/// A program without STATIC variables has its start where the run begins.
pub fn starts_stand()
    ensures { StartsStand }
{
    marked_once();
    table_differs();
}

/// So it is a whole program if its main procedure's variables are made as they are meant and its frame has room.
pub fn wholes_stand()
    ensures { WholesStand }
{
    marked_once();
    table_differs();
}

/// Memory at first is as long as it has to be.
pub fn memory_fits()
    ensures { MemoryFits }
{}

/// A worked row: a main procedure that calls a procedure again and again; where its code stands follows from the laws.
pub fn turning_ran()
    ensures { TurningRan }
{
    run_keeper_keeps();
    marked_once();
    table_differs();
}
