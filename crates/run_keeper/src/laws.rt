// The law of the definition: calling it does nothing.

ghost use Rattle.area_keeper.specs.KeeperLaws.{Keeps};
ghost use Rattle.run_keeper.specs.RunKeeper.{run_keeper};

use granule_keeper::laws::granules_keep;

/// Areas of a run are kept as the storage machine keeps generations.
pub fn run_keeper_keeps()
    ensures { Keeps run_keeper }
{
    granules_keep();
}
