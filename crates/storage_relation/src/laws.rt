// Laws of the definitions: each function's contract is one law, and calling it does nothing.

ghost use Rattle.storage_relation.specs.Laws.{ValuesTold, ValuesStored, ElementsHeld, NamesFound, WritesApart};
ghost use Rattle.storage_relation.specs.Laws.{ClearStays, AreasServed, VariablesLive};
ghost use Rattle.storage_relation.specs.ServiceLaws.{LocatorsServed, ElementsNumbered, PartsServed, ControlledServed};
ghost use Rattle.storage_relation.specs.ServiceLaws.{ControlledKept, GenerationsBegin, SignaturesGrow, TableDiffers};
ghost use Rattle.storage_relation.specs.ServiceLaws.{ShapesRead, HeldInData, RunBegins};
ghost use Rattle.storage_relation.specs.Rows.{BytesTell, SerialsApart, HeapBegins, NumbersAllocated};

/// What services read, and what the machine loads, where bytes tell a value is that value.
pub fn values_told()
    ensures { ValuesTold }
{}

/// What is kept of a number or a bit is what the machine's stores write.
pub fn values_stored()
    ensures { ValuesStored }
{}

/// Memory tells the value of each element of what lives, and an assignment to one keeps all that is stored.
pub fn elements_held()
    ensures { ElementsHeld }
{}

/// Services find by a name what the storage machine has by it.
pub fn names_found()
    ensures { NamesFound }
{}

/// A write in bytes that are clear of storage leaves all that is stored.
pub fn writes_apart()
    ensures { WritesApart }
{}

/// Bytes that no storage takes stay clear of it, but for those that a new variable takes.
pub fn clear_stays()
    ensures { ClearStays }
{}

/// ALLOCATE, FREE, EMPTY and the assignment of an area leave memory as the storage machine comes to.
pub fn areas_served()
    ensures { AreasServed }
{}

/// What begins keeps all that is stored, and so does the end of what an activation owns.
pub fn variables_live()
    ensures { VariablesLive }
{}

/// Pointers, offsets and REFER extents are answered as the storage machine has them.
pub fn locators_served()
    ensures { LocatorsServed }
{}

/// An element by its number is where the storage machine has it.
pub fn elements_numbered()
    ensures { ElementsNumbered }
{}

/// The shape of an item of GET or PUT is read from static data as it was written.
pub fn shapes_read()
    ensures { ShapesRead }
{}

/// What is taken of a part is put into another as the storage machine assigns aggregates.
pub fn parts_served()
    ensures { PartsServed }
{}

/// Generations of CONTROLLED variables are allocated, freed, found and counted as the storage machine does.
pub fn controlled_served()
    ensures { ControlledServed }
{}

/// The services' lists of them stay those of the storage machine.
pub fn controlled_kept()
    ensures { ControlledKept }
{}

/// Generations begin as the storage machine's, with what INITIAL gives in static data.
pub fn generations_begin()
    ensures { GenerationsBegin }
{}

/// One more signature leaves all that is stored, and all numbers.
pub fn signatures_grow()
    ensures { SignaturesGrow }
{}

/// The signatures of an image's table differ, and so do the templates with which a run begins.
pub fn table_differs()
    ensures { TableDiffers }
{}

/// All that is held stands in data, as a version's layout has it, and some state has all of this.
pub fn held_in_data()
    ensures { HeldInData }
{}

/// All of this holds where a run begins.
pub fn run_begins()
    ensures { RunBegins }
{}

/// Which bytes tell a value, in worked rows.
pub fn bytes_tell()
    ensures { BytesTell }
{}

/// What lives has a serial of its own.
pub fn serials_apart()
    ensures { SerialsApart }
{}

/// Nothing stands in the heap before the first ALLOCATE.
pub fn heap_begins()
    ensures { HeapBegins }
{}

/// A number that is placed by ALLOCATE and assigned by its name is loaded there.
pub fn numbers_allocated()
    ensures { NumbersAllocated }
{}
