// Generations placed in the bytes of areas.

ghost use Rattle.std.specs.Prelude.{◌≡◌, ◌+◌, ◌<◌, ◌≤◌, length, IsSome};
ghost use Rattle.area_heap.specs.Answers.{bytes_or, offset_or_fault};
ghost use Rattle.pli_allocation.specs.Beginnings.{IsBegun};
ghost use Rattle.pli_allocation.specs.Placing.{bytes_placed, memory_placed, placing, IsKept, IsWithin};
ghost use Rattle.pli_meaning.specs.Contents.{Generation};
ghost use Rattle.pli_serving.specs.Bytes.{bytes_at, with_bytes};
ghost use Rattle.pli_serving.specs.Values.{generation_bytes};
ghost use Rattle.pli_storage.specs.Areas.{bytes_of};

use crate::beginning::Beginning;
use area_heap::fault::AreaFault;
use area_heap::keeper::AreaKeeper;
use area_keeper::laws::places_at_least;
use pli_storage::held::AreaPlace;
use pli_values::word::put_bytes;

/// Where an area's bytes begin and how many they are, as far as memory reaches.
#[tactic(auto, using(pli_storage::proofs::Parts::reached))]
fn reach<K: AreaKeeper>(memory: &[u8], place: AreaPlace) -> (usize, usize)
    ensures inside { result.0 + result.1 ≤ length memory.now }
    ensures at { 0 < result.1 → result.0 ≡ place.at }
    ensures bytes { bytes_at result.1 result.0 memory.now ≡ bytes_of K.keeper place memory.now }
{
    let start = (place.at as usize).min(memory.len());
    (
        start,
        K::bytes_for(place.capacity).min(memory.len() - start),
    )
}

/// Writes the data of a generation that an area keeps.
pub fn put_at<K: AreaKeeper>(bytes: &mut [u8], offset: u32, signature: u32, content: &[u8])
    requires { IsKept K.keeper offset signature (length content.now) bytes.old }
    ensures { bytes.new ≡ with_bytes content.now (K.keeper.data_at offset bytes.old) bytes.old }
{
    K::keeps();
    if let Ok(at) = K::find(bytes, offset, signature) {
        put_bytes(bytes, at as usize, content);
    }
}

/// Places a generation in the bytes of an area, with its data, where there is a gap.
pub fn place_in<K: AreaKeeper>(
    bytes: &mut [u8],
    signature: u32,
    beginning: &Beginning,
) -> Result<u32, AreaFault>
    requires { IsSome (K.keeper.area_of bytes.old) }
    ensures answer { (g : Generation) → IsBegun beginning.now g → result ≡ offset_or_fault (placing K.keeper signature g bytes.old) }
    ensures bytes { (g : Generation) → IsBegun beginning.now g → bytes.new ≡ bytes_or bytes.old (bytes_placed K.keeper (generation_bytes g) (placing K.keeper signature g bytes.old)) }
    ensures within { (g : Generation) → IsBegun beginning.now g → IsWithin K.keeper (generation_bytes g) (length bytes.old) (placing K.keeper signature g bytes.old) }
{
    K::keeps();
    places_at_least();
    match K::allocate(bytes, beginning.size, signature, beginning.extent) {
        Ok(offset) => {
            put_at::<K>(bytes, offset, signature, &beginning.bytes);
            Ok(offset)
        }
        Err(fault) => Err(fault),
    }
}

/// Places a generation in an area, with its data, where there is a gap.
pub fn place_at<K: AreaKeeper>(
    memory: &mut [u8],
    place: AreaPlace,
    signature: u32,
    beginning: &Beginning,
) -> Result<u32, AreaFault>
    requires { IsSome (K.keeper.area_of (bytes_of K.keeper place memory.old)) }
    ensures answer { (g : Generation) → IsBegun beginning.now g → result ≡ offset_or_fault (placing K.keeper signature g (bytes_of K.keeper place memory.old)) }
    ensures memory { (g : Generation) → IsBegun beginning.now g → memory.new ≡ memory_placed K.keeper place.at (generation_bytes g) memory.old (placing K.keeper signature g (bytes_of K.keeper place memory.old)) }
{
    let (start, count) = reach::<K>(memory, place);
    place_in::<K>(&mut memory[start..start + count], signature, beginning)
}

/// Places a generation in a copy of an area that lies at an address, with its data, and writes the copy back where there is a gap.
pub fn place_copied<K: AreaKeeper>(
    memory: &mut [u8],
    at: u32,
    copy: &mut [u8],
    signature: u32,
    beginning: &Beginning,
) -> Result<u32, AreaFault>
    requires area { IsSome (K.keeper.area_of copy.old) }
    requires inside { at + length copy.old ≤ length memory.old }
    ensures answer { (g : Generation) → IsBegun beginning.now g → result ≡ offset_or_fault (placing K.keeper signature g copy.old) }
    ensures memory { (g : Generation) → IsBegun beginning.now g → memory.new ≡ memory_placed K.keeper at (generation_bytes g) memory.old (placing K.keeper signature g copy.old) }
{
    match place_in::<K>(copy, signature, beginning) {
        Ok(offset) => {
            put_bytes(memory, at as usize, copy);
            Ok(offset)
        }
        Err(fault) => Err(fault),
    }
}
