// What a keeper of areas does with their bytes.

ghost use Rattle.std.specs.Prelude.{◌≡◌, ◌%◌, ◌≤◌, length, option_map, IsSome};
ghost use Rattle.area_keeper.specs.Keeper.{Keeper};
ghost use Rattle.area_keeper.specs.KeeperLaws.{Keeps, greatest_capacity};
ghost use Rattle.area_heap.specs.Answers.{done_or, bytes_or, offset_or_fault, placed_or, kept_of, start_or_fault, extent_or_fault};

use crate::fault::AreaFault;

/// Keeps areas in their bytes: generations with their data sizes, signatures and extents, at offsets that stay.
///
/// A call with bytes takes those that `open` accepts, but for `make` and `open` themselves. Places in bytes count from the area's
/// first byte. No call takes memory.
pub trait AreaKeeper {
    ghost keeper: { Keeper };

    /// How many bytes an area of this capacity takes.
    fn bytes_for(capacity: u32) -> usize
        ensures { result ≡ keeper.bytes_for capacity };

    /// Makes an empty area of the bytes, whatever they hold. The capacity is a multiple of 16 up to 4 MiB, and the bytes are as many
    /// as it takes.
    fn make(bytes: &mut [u8], capacity: u32)
        requires rounded { capacity % 16 ≡ 0 }
        requires bounded { capacity ≤ greatest_capacity }
        requires as_many { length bytes.old ≡ keeper.bytes_for capacity }
        ensures { bytes.new ≡ keeper.made capacity bytes.old };

    /// Tells whether the bytes hold an area.
    ///
    /// # Errors
    ///
    /// `Damaged` where they hold none.
    fn open(bytes: &[u8]) -> Result<(), AreaFault>
        ensures { result ≡ done_or AreaFault.Damaged (keeper.area_of bytes.now) };

    /// Removes all generations.
    fn empty(bytes: &mut [u8])
        requires { IsSome (keeper.area_of bytes.old) }
        ensures { bytes.new ≡ keeper.emptied bytes.old };

    /// Places a generation of so many bytes of data in the least gap, and gives its offset. The data aren't written.
    ///
    /// # Errors
    ///
    /// `NoGap` where none is large enough.
    fn allocate(bytes: &mut [u8], size: u64, signature: u32, extent: i32) -> Result<u32, AreaFault>
        requires { IsSome (keeper.area_of bytes.old) }
        ensures answer { result ≡ offset_or_fault (keeper.allocated size signature extent bytes.old) }
        ensures bytes { bytes.new ≡ placed_or bytes.old (keeper.allocated size signature extent bytes.old) };

    /// Removes the generation at an offset.
    ///
    /// # Errors
    ///
    /// `NoGeneration` where none of this signature is there.
    fn free(bytes: &mut [u8], offset: u32, signature: u32) -> Result<(), AreaFault>
        requires { IsSome (keeper.area_of bytes.old) }
        ensures answer { result ≡ done_or AreaFault.NoGeneration (keeper.freed offset signature bytes.old) }
        ensures bytes { bytes.new ≡ bytes_or bytes.old (keeper.freed offset signature bytes.old) };

    /// Where the data of the generation at an offset begin.
    ///
    /// # Errors
    ///
    /// `NoGeneration` where none of this signature is there.
    fn find(bytes: &[u8], offset: u32, signature: u32) -> Result<u32, AreaFault>
        requires { IsSome (keeper.area_of bytes.now) }
        ensures { result ≡ start_or_fault keeper bytes.now (kept_of offset signature (keeper.area_of bytes.now)) };

    /// The extent with which the generation at an offset was allocated.
    ///
    /// # Errors
    ///
    /// `NoGeneration` where none of this signature is there.
    fn extent(bytes: &[u8], offset: u32, signature: u32) -> Result<i32, AreaFault>
        requires { IsSome (keeper.area_of bytes.now) }
        ensures { result ≡ extent_or_fault (kept_of offset signature (keeper.area_of bytes.now)) };

    /// Takes over what another area holds, at the same offsets, in place of what was there.
    ///
    /// # Errors
    ///
    /// `TooSmall` where that ends outside the capacity.
    fn copy_from(bytes: &mut [u8], from: &[u8]) -> Result<(), AreaFault>
        requires to { IsSome (keeper.area_of bytes.old) }
        requires from { IsSome (keeper.area_of from.now) }
        ensures answer { result ≡ done_or AreaFault.TooSmall (keeper.copied from.now bytes.old) }
        ensures bytes { bytes.new ≡ bytes_or bytes.old (keeper.copied from.now bytes.old) };

    /// The laws of keepers hold; calling it does nothing.
    fn keeps()
        ensures { Keeps keeper };
}
