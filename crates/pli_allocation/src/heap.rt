// The heap before anything was placed in it.

ghost use Rattle.std.specs.Prelude.{◌≡◌, IfOk};
ghost use Rattle.pli_allocation.specs.Placing.{heap_first};
ghost use Rattle.pli_storage.specs.Held.{IsLaid};

use area_heap::keeper::AreaKeeper;
use pli_storage::held::AreaPlace;
use pli_values::layout::Layout;
use std::alloc::{AllocError, Global};

/// Where the heap lies.
pub fn heap_place(layout: Layout) -> AreaPlace
    ensures at { result.at ≡ layout.heap_at }
    ensures capacity { result.capacity ≡ layout.heap_capacity }
{
    AreaPlace {
        at: layout.heap_at,
        capacity: layout.heap_capacity,
    }
}

/// The bytes of an empty heap, as they would be made of those that are there.
pub fn made_heap<K: AreaKeeper>(
    alloc: Global,
    memory: &[u8],
    layout: Layout,
) -> Result<Vec<u8>, AllocError>
    requires { IsLaid K.keeper layout memory.now }
    ensures { IfOk result (λ heap. heap.items ≡ heap_first K.keeper layout memory.now) }
{
    let start = layout.heap_at as usize;
    let end = start + K::bytes_for(layout.heap_capacity);
    let mut heap = Vec::from_slice(alloc, &memory[start..end])?;
    K::make(&mut heap, layout.heap_capacity);
    Ok(heap)
}
