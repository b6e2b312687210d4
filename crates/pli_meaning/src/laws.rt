// Laws of the definitions: each function's contract is one law, and calling it does nothing.

ghost use Rattle.pli_meaning.specs.Laws.{StorageGrows, StorageStays, StorageActsAllowed, GapExact, FootprintsApart};

/// The output and the raised conditions of a program at k acts are prefixes of those at k + 1.
pub fn storage_grows()
    ensures { StorageGrows }
{}

/// A program that has ended stays as it is with more acts allowed.
pub fn storage_stays()
    ensures { StorageStays }
{}

/// A program does at most the acts that are allowed, and exactly those where it is still running.
pub fn storage_acts_allowed()
    ensures { StorageActsAllowed }
{}

/// Where the generations of an area stand in order, the offset found for another is the least that fits, and none is found only
/// where none fits.
pub fn gap_exact()
    ensures { GapExact }
{}

/// The generations of an area stay in order, and apart, when one is placed or freed, and in an area that they are assigned to.
pub fn footprints_apart()
    ensures { FootprintsApart }
{}
