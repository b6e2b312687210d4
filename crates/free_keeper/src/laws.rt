// The law of the definition: calling it does nothing.

ghost use Rattle.area_keeper.specs.KeeperLaws.{Keeps};
ghost use Rattle.free_keeper.specs.FreeList.{free_list};

/// The bytes of a list of free blocks are kept as the storage machine keeps generations.
pub fn free_list_keeps()
    ensures { Keeps free_list }
{}
