// The law of the definitions: calling it does nothing.

ghost use Rattle.area_keeper.specs.KeeperLaws.{Keeps};
ghost use Rattle.granule_keeper.specs.Granules.{granules};

/// The granules' bytes are kept as the storage machine keeps generations.
pub fn granules_keep()
    ensures { Keeps granules }
{}
