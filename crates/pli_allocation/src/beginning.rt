// A generation that is to be placed.

ghost use Rattle.std.specs.Prelude.{◌≤◌, length};

/// The greatest capacity of an area, in bytes.
pub const MOST_CAPACITY: u64 = 1 << 22;

/// The data size of a generation in bytes, `u64::MAX` where it is more; its REFER extent, 0 without one; and the bytes that are written
/// of its data, where an area can hold it.
#[derive(Drop)]
pub struct Beginning {
    pub size: u64,
    pub extent: i32,
    pub bytes: Vec<u8>,
    ghost few: { length bytes.items ≤ size },
}
