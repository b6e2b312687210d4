// What a generation is made of.

ghost use Rattle.std.specs.Prelude.{◌≡◌};
ghost use Rattle.pli_typing.specs.Signatures.{area_of_size};
ghost use Rattle.pli_types.specs.Templates.{known};
ghost use Rattle.pli_types.specs.View.{leaf_kind_of};

use smallvec::SmallVec;

/// The kind of a leaf. A length or capacity is `None` where it is known only when the program runs.
#[derive(Clone, Copy, PartialEq, Eq, Debug)]
pub enum LeafKind {
    /// FIXED BINARY with a precision from 1 to 31.
    Fixed { precision: u8 },
    /// CHARACTER of 0 to 1,024 bytes.
    Character { length: Option<u16> },
    /// CHARACTER VARYING of up to so many bytes, 0 to 1,024.
    Varying { length: Option<u16> },
    Bit,
    Pointer,
    Offset,
    /// AREA of so many bytes, a multiple of 16: `LeafKind::area` makes one of any size.
    Area { capacity: Option<u32> },
}

impl LeafKind {
    /// An area declared with a size in bytes: it holds that size rounded down to 16.
    pub fn area(size: u32) -> LeafKind
        ensures { leaf_kind_of result ≡ known (area_of_size size) }
    {
        LeafKind::Area {
            capacity: Some(size / 16 * 16),
        }
    }
}

/// The bounds of one dimension, both included. Their default only fills the unused places of a small vector.
#[derive(Clone, Copy, PartialEq, Eq, Debug, Default)]
pub struct Bounds {
    pub lower: i32,
    pub upper: i32,
}

/// A leaf with all its bounds, those of the structures around it first: `None` for a pair that is known only when the program
/// runs. A program has at most 8.
#[derive(Debug, Drop)]
pub struct Leaf {
    pub kind: LeafKind,
    pub bounds: SmallVec<Option<Bounds>, 8>,
}

/// Whether the generations of a variable are those of CONTROLLED.
#[derive(Clone, Copy, PartialEq, Eq, Debug)]
pub enum Class {
    Plain,
    Controlled,
}

/// What a generation is made of. A reference finds a generation only by its signature. Where a structure has an extent with
/// REFER, `refer` is the place among the leaves of the member that tells it, and the extent itself counts as a length, or an
/// upper bound, of 0.
#[derive(Debug, Drop)]
pub struct Signature {
    pub class: Class,
    pub refer: Option<usize>,
    pub leaves: Vec<Leaf>,
}
