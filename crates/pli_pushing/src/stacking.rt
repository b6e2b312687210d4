// Generations placed in the bytes of the heap as the newest of a CONTROLLED variable.

ghost use Rattle.std.specs.Prelude.{◌≡◌, ◌+◌, ◌<◌, ◌≤◌, length, is_ok, IfOk, IsSome, if◌then◌else◌};
ghost use Rattle.area_heap.specs.Answers.{bytes_or};
ghost use Rattle.pli_allocation.specs.Placing.{bytes_placed, heap_first, memory_placed, placing, IsWithin};
ghost use Rattle.pli_meaning.specs.Contents.{Generation};
ghost use Rattle.pli_pushing.specs.Pushing.{offset_of, stacks_pushed, IsPlain};
ghost use Rattle.pli_serving.specs.Values.{generation_bytes};
ghost use Rattle.pli_storage.specs.Areas.{bytes_of};
ghost use Rattle.pli_storage.specs.Held.{IsLaid};

use area_heap::keeper::AreaKeeper;
use area_keeper::laws::places_at_least;
use controlled_gens::controlled::Controlled;
use controlled_gens::fault::GenFault;
use pli_allocation::beginning::Beginning;
use pli_allocation::heap::made_heap;
use pli_allocation::placing::put_at;
use pli_storage::held::AreaPlace;
use pli_values::layout::Layout;
use pli_values::word::put_bytes;
use std::alloc::{AllocError, Global};

/// Places a generation in the heap's bytes as the newest of a variable, with its data, and gives its offset, where there is a gap.
fn push_in<K: AreaKeeper>(
    controlled: &mut Controlled,
    heap: &mut [u8],
    variable: u32,
    signature: u32,
    beginning: &Beginning,
) -> Result<Option<u32>, AllocError>
    requires known { variable < length controlled.old }
    requires area { IsSome (K.keeper.area_of heap.old) }
    ensures answer { (g : Generation) → IsPlain beginning.now g → IfOk result (λ o. o ≡ offset_of (placing K.keeper signature g heap.old)) }
    ensures bytes { (g : Generation) → IsPlain beginning.now g → heap.new ≡ (if is_ok result then bytes_or heap.old (bytes_placed K.keeper (generation_bytes g) (placing K.keeper signature g heap.old)) else heap.old) }
    ensures within { (g : Generation) → IsPlain beginning.now g → IfOk result (λ o. IsWithin K.keeper (generation_bytes g) (length heap.old) (placing K.keeper signature g heap.old)) }
    ensures stacks { (g : Generation) → IsPlain beginning.now g → controlled.new ≡ (if is_ok result then stacks_pushed variable signature controlled.old (placing K.keeper signature g heap.old) else controlled.old) }
    ensures as_many { length controlled.new ≡ length controlled.old }
{
    K::keeps();
    places_at_least();
    match controlled.push::<K>(heap, variable, beginning.size, signature) {
        Ok(offset) => {
            put_at::<K>(heap, offset, signature, &beginning.bytes);
            Ok(Some(offset))
        }
        Err(GenFault::HeapFull) => Ok(None),
        Err(_) => Err(AllocError),
    }
}

/// The same in the heap that lies at a place in memory.
pub fn push_at<K: AreaKeeper>(
    controlled: &mut Controlled,
    memory: &mut [u8],
    place: AreaPlace,
    variable: u32,
    signature: u32,
    beginning: &Beginning,
) -> Result<Option<u32>, AllocError>
    requires known { variable < length controlled.old }
    requires inside { place.at + K.keeper.bytes_for place.capacity ≤ length memory.old }
    requires area { IsSome (K.keeper.area_of (bytes_of K.keeper place memory.old)) }
    ensures answer { (g : Generation) → IsPlain beginning.now g → IfOk result (λ o. o ≡ offset_of (placing K.keeper signature g (bytes_of K.keeper place memory.old))) }
    ensures memory { (g : Generation) → IsPlain beginning.now g → memory.new ≡ (if is_ok result then memory_placed K.keeper place.at (generation_bytes g) memory.old (placing K.keeper signature g (bytes_of K.keeper place memory.old)) else memory.old) }
    ensures stacks { (g : Generation) → IsPlain beginning.now g → controlled.new ≡ (if is_ok result then stacks_pushed variable signature controlled.old (placing K.keeper signature g (bytes_of K.keeper place memory.old)) else controlled.old) }
    ensures as_many { length controlled.new ≡ length controlled.old }
{
    let start = place.at as usize;
    let end = start + K::bytes_for(place.capacity);
    push_in::<K>(
        controlled,
        &mut memory[start..end],
        variable,
        signature,
        beginning,
    )
}

/// The same in a copy of the heap, which is written back to its address where there is a gap.
fn push_copied<K: AreaKeeper>(
    controlled: &mut Controlled,
    memory: &mut [u8],
    at: u32,
    copy: &mut [u8],
    variable: u32,
    signature: u32,
    beginning: &Beginning,
) -> Result<Option<u32>, AllocError>
    requires known { variable < length controlled.old }
    requires area { IsSome (K.keeper.area_of copy.old) }
    requires inside { at + length copy.old ≤ length memory.old }
    ensures answer { (g : Generation) → IsPlain beginning.now g → IfOk result (λ o. o ≡ offset_of (placing K.keeper signature g copy.old)) }
    ensures memory { (g : Generation) → IsPlain beginning.now g → memory.new ≡ (if is_ok result then memory_placed K.keeper at (generation_bytes g) memory.old (placing K.keeper signature g copy.old) else memory.old) }
    ensures stacks { (g : Generation) → IsPlain beginning.now g → controlled.new ≡ (if is_ok result then stacks_pushed variable signature controlled.old (placing K.keeper signature g copy.old) else controlled.old) }
    ensures as_many { length controlled.new ≡ length controlled.old }
{
    match push_in::<K>(controlled, copy, variable, signature, beginning)? {
        Some(offset) => {
            put_bytes(memory, at as usize, copy);
            Ok(Some(offset))
        }
        None => Ok(None),
    }
}

/// The same in a heap in which nothing was placed yet: in a copy of its bytes, so that nothing changes without a gap.
pub fn push_first<K: AreaKeeper>(
    layout: Layout,
    alloc: Global,
    controlled: &mut Controlled,
    memory: &mut [u8],
    variable: u32,
    signature: u32,
    beginning: &Beginning,
) -> Result<Option<u32>, AllocError>
    requires known { variable < length controlled.old }
    requires laid { IsLaid K.keeper layout memory.old }
    ensures answer { (g : Generation) → IsPlain beginning.now g → IfOk result (λ o. o ≡ offset_of (placing K.keeper signature g (heap_first K.keeper layout memory.old))) }
    ensures memory { (g : Generation) → IsPlain beginning.now g → memory.new ≡ (if is_ok result then memory_placed K.keeper layout.heap_at (generation_bytes g) memory.old (placing K.keeper signature g (heap_first K.keeper layout memory.old)) else memory.old) }
    ensures stacks { (g : Generation) → IsPlain beginning.now g → controlled.new ≡ (if is_ok result then stacks_pushed variable signature controlled.old (placing K.keeper signature g (heap_first K.keeper layout memory.old)) else controlled.old) }
    ensures as_many { length controlled.new ≡ length controlled.old }
{
    K::keeps();
    let mut heap = made_heap::<K>(alloc, memory, layout)?;
    let pushed = push_copied::<K>(
        controlled,
        memory,
        layout.heap_at,
        &mut heap,
        variable,
        signature,
        beginning,
    )?;
    Ok(pushed)
}
