// Laws of the definitions: each function's contract is one law, and calling it does nothing.

ghost use Rattle.area_keeper.specs.Chain.{chain};
ghost use Rattle.area_keeper.specs.KeeperLaws.{Keeps, KeepsAlike, PlacesAtLeast};

/// The chain's bytes are kept as the storage machine keeps generations.
pub fn chain_keeps()
    ensures { Keeps chain }
{}

/// What is kept stands in the storage machine's order, and lists that are alike stay so.
pub fn keeps_alike()
    ensures { KeepsAlike }
{}

/// Every keeper places a generation at the least offset that fits.
pub fn places_at_least()
    ensures { PlacesAtLeast }
{
    pli_meaning::laws::gap_exact();
}
