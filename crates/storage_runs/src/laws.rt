// Laws of the definitions: each function's contract is one law, and calling it does nothing.

ghost use Rattle.storage_runs.specs.AreasInOrder.{AreasStayInOrder};
ghost use Rattle.storage_runs.specs.Fuel.{FuelEnough};
ghost use Rattle.storage_runs.specs.Serials.{SerialsStayOnce};

use pli_meaning::laws::footprints_apart;

/// The generations of every area stand in order and apart in every state that a run comes to.
pub fn areas_stay_in_order()
    ensures { AreasStayInOrder }
{
    footprints_apart();
}

/// What lives has serials of its own, the newest first, in every state that a run comes to.
pub fn serials_stay_once()
    ensures { SerialsStayOnce }
{}

/// With more levels and turns than acts are allowed a run comes to the same: they are no part of what a program means.
pub fn fuel_enough()
    ensures { FuelEnough }
{}
