// Parts of a shape with where they stand.

use pli_shapes::part::Part;

/// A part: how many parts there are from it on beside it, with those inside, how many subscripts stand before its own, and the number
/// of its first leaf among those of the shape.
#[derive(Clone, Copy, PartialEq, Eq, Debug)]
pub struct Note {
    pub part: Part,
    pub size: usize,
    pub before: usize,
    pub leaf: usize,
}
