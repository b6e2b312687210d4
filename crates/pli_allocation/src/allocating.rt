// Generations of BASED variables are placed: service 10.

ghost use Rattle.std.specs.Prelude.{◌≡◌, ◌+◌, ◌≤◌, false, length, is_ok, IfOk, IsSome, Option, if◌then◌else◌};
ghost use Rattle.area_heap.specs.Answers.{offset_or_fault};
ghost use Rattle.pli_allocation.specs.Allocating.{allocated_in, begun_answered, begun_placed, full_code, held_with, option_placed};
ghost use Rattle.pli_allocation.specs.Beginnings.{Begins, IsBegun};
ghost use Rattle.pli_allocation.specs.Placing.{heap_first, memory_placed, placing};
ghost use Rattle.pli_answering.specs.Answering.{Answers};
ghost use Rattle.pli_meaning.specs.BasicValues.{BasedName};
ghost use Rattle.pli_meaning.specs.Contents.{Generation};
ghost use Rattle.pli_serving.specs.AreaServices as areas;
ghost use Rattle.pli_serving.specs.Bytes.{name_bytes, with_bytes};
ghost use Rattle.pli_serving.specs.ControlledServices.{heap_of};
ghost use Rattle.pli_serving.specs.Finding.{Call};
ghost use Rattle.pli_serving.specs.Values.{generation_bytes};
ghost use Rattle.pli_storage.specs.Areas.{area_argument, bytes_of};
ghost use Rattle.pli_storage.specs.Held.{with_held, IsLaid};

use crate::beginning::Beginning;
use crate::heap::{heap_place, made_heap};
use crate::placing::{place_at, place_copied};
use crate::starting::begin;
use area_heap::fault::AreaFault;
use area_heap::keeper::AreaKeeper;
use pli_answering::reply::{Refusal, Reply};
use pli_storage::finding::HEAP_SERIAL;
use pli_storage::held::Held;
use pli_storage::named_areas::{NamedArea, is_area_at};
use pli_values::layout::Layout;
use pli_values::name::{NAME_BYTES, Name, put_name};
use std::alloc::{AllocError, Global};

/// The code of AREA: the area has no gap.
const AREA: u32 = 10;

/// The code of an error: the heap has no gap.
pub const HEAP_FULL: u32 = 106;

/// What is to be allocated: the address of the area's name or 0 for the heap, the signature's number, the REFER extent, the address
/// of the INITIAL values or 0, and where the name is written.
#[derive(Clone, Copy, PartialEq, Eq, Debug)]
pub struct Allocation {
    pub area: u32,
    pub signature: u32,
    pub extent: u32,
    pub initial: u32,
    pub destination: u32,
}

/// The code where an area of a serial has no gap.
fn full(area: u64) -> u32
    ensures { result ≡ full_code area }
{
    if area == HEAP_SERIAL { HEAP_FULL } else { AREA }
}

/// The name of a generation that was placed in an area is written, and the heap is made.
fn name_placed(held: &mut Held, memory: &mut [u8], destination: u32, area: u64, offset: u32)
    requires { destination + 16 ≤ length memory.old }
    ensures held { held.new ≡ held_with area held.old }
    ensures memory { memory.new ≡ with_bytes (name_bytes (BasedName area offset)) destination memory.old }
    ensures kept { held.new ≡ record held.old { heap_made = held.new.heap_made } }
{
    put_name(memory, destination as usize, Name::Based { area, offset });
    if area == HEAP_SERIAL {
        held.heap_made = true;
    }
}

/// Places a generation in an area, and writes its name.
fn place_named<K: AreaKeeper>(
    held: &mut Held,
    memory: &mut [u8],
    wanted: Allocation,
    into: NamedArea,
    beginning: &Beginning,
) -> Reply
    requires inside { wanted.destination + 16 ≤ length memory.old }
    requires area { IsSome (K.keeper.area_of (bytes_of K.keeper into.place memory.old)) }
    ensures answers { (c : Call) → (g : Generation) → IsBegun beginning.now g →
        Answers (λ c. begun_answered c wanted (area_argument c into) g) (with_held K.keeper held.old memory.old c) (Ok result) (with_held K.keeper held.new memory.new c) }
    ensures kept { held.new ≡ record held.old { heap_made = held.new.heap_made } }
{
    match place_at::<K>(memory, into.place, wanted.signature, beginning) {
        Ok(offset) => {
            name_placed(held, memory, wanted.destination, into.serial, offset);
            Reply::Done(wanted.area, 0)
        }
        Err(_) => Reply::Done(wanted.area, full(into.serial)),
    }
}

/// Places a generation in an area whose bytes may be none.
fn place_begun<K: AreaKeeper>(
    held: &mut Held,
    memory: &mut [u8],
    wanted: Allocation,
    into: NamedArea,
    beginning: &Beginning,
) -> Result<Reply, Refusal>
    requires { IsLaid K.keeper held.old.layout memory.old }
    ensures answers { (c : Call) → (g : Generation) → IsBegun beginning.now g →
        Answers (λ c. begun_placed c wanted (area_argument c into) g) (with_held K.keeper held.old memory.old c) result (with_held K.keeper held.new memory.new c) }
    ensures kept { held.new ≡ record held.old { heap_made = held.new.heap_made } }
{
    if !is_area_at::<K>(memory, into.place)
        || !held.layout.is_data(wanted.destination as usize, NAME_BYTES)
    {
        return Err(Refusal::Bad);
    }
    Ok(place_named::<K>(held, memory, wanted, into, beginning))
}

/// Places a generation in an area, if one can begin so.
fn place_option<K: AreaKeeper>(
    held: &mut Held,
    memory: &mut [u8],
    wanted: Allocation,
    into: NamedArea,
    beginning: Option<Beginning>,
) -> Result<Reply, Refusal>
    requires { IsLaid K.keeper held.old.layout memory.old }
    ensures answers { (c : Call) → (o : Option Generation) → Begins beginning o →
        Answers (λ c. option_placed c wanted (area_argument c into) o) (with_held K.keeper held.old memory.old c) result (with_held K.keeper held.new memory.new c) }
    ensures kept { held.new ≡ record held.old { heap_made = held.new.heap_made } }
{
    match beginning {
        Some(beginning) => place_begun::<K>(held, memory, wanted, into, &beginning),
        None => Err(Refusal::Bad),
    }
}

/// Allocates in an area.
fn allocate_in<K: AreaKeeper>(
    held: &mut Held,
    alloc: Global,
    memory: &mut [u8],
    wanted: Allocation,
    into: NamedArea,
) -> Result<Reply, Refusal>
    requires { IsLaid K.keeper held.old.layout memory.old }
    ensures answers { (c : Call) → Answers (λ c. allocated_in c wanted (area_argument c into)) (with_held K.keeper held.old memory.old c) result (with_held K.keeper held.new memory.new c) }
    ensures kept { held.new ≡ record held.old { heap_made = held.new.heap_made } }
{
    let beginning = begin(
        held,
        alloc,
        memory,
        wanted.signature,
        wanted.extent,
        wanted.initial,
    )?;
    place_option::<K>(held, memory, wanted, into, beginning)
}

/// Places a generation in the heap before anything was placed in it: in a copy of its bytes, so that nothing changes without a gap.
fn place_first<K: AreaKeeper>(
    layout: Layout,
    alloc: Global,
    memory: &mut [u8],
    signature: u32,
    beginning: &Beginning,
) -> Result<Result<u32, AreaFault>, AllocError>
    requires { IsLaid K.keeper layout memory.old }
    ensures answer { (g : Generation) → IsBegun beginning.now g → IfOk result (λ placed. placed ≡ offset_or_fault (placing K.keeper signature g (heap_first K.keeper layout memory.old))) }
    ensures memory { (g : Generation) → IsBegun beginning.now g → memory.new ≡ (if is_ok result then memory_placed K.keeper layout.heap_at (generation_bytes g) memory.old (placing K.keeper signature g (heap_first K.keeper layout memory.old)) else memory.old) }
{
    K::keeps();
    let mut heap = made_heap::<K>(alloc, memory, layout)?;
    let placed = place_copied::<K>(memory, layout.heap_at, &mut heap, signature, beginning);
    Ok(placed)
}

/// Allocates in the heap before anything was placed in it.
fn begin_heap<K: AreaKeeper>(
    held: &mut Held,
    alloc: Global,
    memory: &mut [u8],
    wanted: Allocation,
    beginning: &Beginning,
) -> Result<Reply, Refusal>
    requires laid { IsLaid K.keeper held.old.layout memory.old }
    requires unmade { held.old.heap_made ≡ false }
    ensures answers { (c : Call) → (g : Generation) → IsBegun beginning.now g →
        Answers (λ c. begun_placed c wanted (heap_of c) g) (with_held K.keeper held.old memory.old c) result (with_held K.keeper held.new memory.new c) }
    ensures kept { held.new ≡ record held.old { heap_made = held.new.heap_made } }
{
    K::keeps();
    if !held.layout.is_data(wanted.destination as usize, NAME_BYTES) {
        return Err(Refusal::Bad);
    }
    match place_first::<K>(held.layout, alloc, memory, wanted.signature, beginning)? {
        Ok(offset) => {
            name_placed(held, memory, wanted.destination, HEAP_SERIAL, offset);
            Ok(Reply::Done(wanted.area, 0))
        }
        Err(_) => Ok(Reply::Done(wanted.area, HEAP_FULL)),
    }
}

/// Allocates in the heap.
fn place_in_heap<K: AreaKeeper>(
    held: &mut Held,
    alloc: Global,
    memory: &mut [u8],
    wanted: Allocation,
    beginning: &Beginning,
) -> Result<Reply, Refusal>
    requires { IsLaid K.keeper held.old.layout memory.old }
    ensures answers { (c : Call) → (g : Generation) → IsBegun beginning.now g →
        Answers (λ c. begun_placed c wanted (heap_of c) g) (with_held K.keeper held.old memory.old c) result (with_held K.keeper held.new memory.new c) }
    ensures kept { held.new ≡ record held.old { heap_made = held.new.heap_made } }
{
    if !held.heap_made {
        return begin_heap::<K>(held, alloc, memory, wanted, beginning);
    }
    let into = NamedArea {
        serial: HEAP_SERIAL,
        place: heap_place(held.layout),
    };
    place_begun::<K>(held, memory, wanted, into, beginning)
}

/// Allocates in the heap, if a generation can begin so.
fn allocate_in_heap<K: AreaKeeper>(
    held: &mut Held,
    alloc: Global,
    memory: &mut [u8],
    wanted: Allocation,
) -> Result<Reply, Refusal>
    requires { IsLaid K.keeper held.old.layout memory.old }
    ensures answers { (c : Call) → Answers (λ c. allocated_in c wanted (heap_of c)) (with_held K.keeper held.old memory.old c) result (with_held K.keeper held.new memory.new c) }
    ensures kept { held.new ≡ record held.old { heap_made = held.new.heap_made } }
{
    let beginning = begin(
        held,
        alloc,
        memory,
        wanted.signature,
        wanted.extent,
        wanted.initial,
    )?;
    match beginning {
        Some(beginning) => place_in_heap::<K>(held, alloc, memory, wanted, &beginning),
        None => Err(Refusal::Bad),
    }
}

/// 10: a generation is placed in an area or in the heap, and its name is written.
pub fn allocate<K: AreaKeeper>(
    held: &mut Held,
    alloc: Global,
    memory: &mut [u8],
    wanted: Allocation,
) -> Result<Reply, Refusal>
    requires { IsLaid K.keeper held.old.layout memory.old }
    ensures answers { (c : Call) → Answers (λ c. areas.allocate_served c wanted.area wanted.signature wanted.extent wanted.initial wanted.destination) (with_held K.keeper held.old memory.old c) result (with_held K.keeper held.new memory.new c) }
    ensures kept { held.new ≡ record held.old { heap_made = held.new.heap_made } }
{
    if wanted.area == 0 {
        return allocate_in_heap::<K>(held, alloc, memory, wanted);
    }
    match held.area_named::<K>(memory, wanted.area) {
        Some(into) => allocate_in::<K>(held, alloc, memory, wanted, into),
        None => Err(Refusal::Bad),
    }
}
