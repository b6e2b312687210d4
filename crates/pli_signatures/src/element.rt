// The elements of a leaf: what one is, how many there are, and the place of each among them.

ghost use Rattle.std.specs.Prelude.{◌≡◌, ◌<◌, ◌-ℤ◌, pos, slice_index_or, map, length, IfOk};
ghost use Rattle.pli_typing.specs.Signatures.{capped, element_count, leaf_bytes, natural, span};
ghost use Rattle.pli_types.specs.View.{pair_of};
ghost use Rattle.pli_meaning.specs.Contents.{is_within, element_place};
ghost use Rattle.pli_serving.specs.Values.{element_size};
ghost use Rattle.pli_serving.specs.Names.{kind_words, leaf_words};
ghost use Rattle.pli_signatures.specs.Elements.{is_within_pair, place_within};
ghost use Rattle.pli_signatures.specs.View.{kind_of, leaf_in_force};

use pli_types::signature::Bounds;
use smallvec::SmallVec;
use std::alloc::{AllocError, Global};

/// The kind of an element, with nothing open.
#[derive(Clone, Copy, PartialEq, Eq, Debug)]
pub enum ElementKind {
    /// FIXED BINARY with its precision.
    Fixed { precision: u8 },
    /// CHARACTER of so many bytes: as many as a member of REFER can tell.
    Character { length: u32 },
    /// CHARACTER VARYING of up to so many bytes.
    Varying { length: u16 },
    Bit,
    Pointer,
    Offset,
    /// AREA of so many bytes.
    Area { capacity: u32 },
}

impl ElementKind {
    /// The bytes of its value.
    pub fn value_bytes(self) -> u64
        ensures { result ≡ leaf_bytes (kind_of self) }
    {
        match self {
            ElementKind::Fixed { precision } => if precision <= 15 { 2 } else { 4 },
            ElementKind::Character { length } => u64::from(length),
            ElementKind::Varying { length } => 2 + u64::from(length),
            ElementKind::Bit => 1,
            ElementKind::Pointer => 16,
            ElementKind::Offset => 4,
            ElementKind::Area { capacity } => u64::from(capacity),
        }
    }

    /// The bytes of an element in data, a multiple of 4.
    pub fn size(self) -> u64
        ensures { result ≡ element_size (kind_of self) }
    {
        self.value_bytes().next_multiple_of(4)
    }

    /// The number of the kind, and its precision, length or capacity, 0 for what has none.
    fn words(self) -> [u32; 2]
        ensures { result ≡ kind_words (kind_of self) }
    {
        match self {
            ElementKind::Fixed { precision } => [1, u32::from(precision)],
            ElementKind::Character { length } => [2, length],
            ElementKind::Varying { length } => [3, u32::from(length)],
            ElementKind::Bit => [4, 0],
            ElementKind::Pointer => [5, 0],
            ElementKind::Offset => [6, 0],
            ElementKind::Area { capacity } => [7, capacity],
        }
    }
}

/// A leaf of a signature of which nothing is open, with the REFER extent in force put in.
#[derive(Debug, Drop)]
pub struct LeafInForce {
    pub kind: ElementKind,
    pub bounds: SmallVec<Bounds, 8>,
}

impl LeafInForce {
    /// The words that describe the leaf: those of its kind, then the lower and the upper bound of each dimension.
    pub fn words(&self, alloc: Global) -> Result<Vec<u32>, AllocError>
        ensures { IfOk result (λ words. words.items ≡ leaf_words (leaf_in_force self.now)) }
    {
        let mut words = Vec::from_slice(alloc, &self.kind.words())?;
        for bounds in self.bounds.as_slice() {
            words.push(bounds.lower.cast_unsigned())?;
            words.push(bounds.upper.cast_unsigned())?;
        }
        Ok(words)
    }
}

/// The elements of one dimension: none where the upper bound is below the lower one.
pub fn span(bounds: Bounds) -> u64
    ensures { result ≡ span (pair_of bounds) }
{
    if bounds.upper < bounds.lower {
        return 0;
    }
    u64::from(bounds.upper.abs_diff(bounds.lower)) + 1
}

/// The elements of all dimensions together, 1 where there is none; `u64::MAX` where there are more.
pub fn element_count(dimensions: &[Bounds]) -> u64
    ensures { result ≡ capped (element_count (map pair_of dimensions.now)) }
{
    let mut count: u64 = 1;
    for bounds in dimensions {
        count = count.saturating_mul(span(*bounds));
    }
    count
}

fn is_within_pair(bounds: Bounds, subscript: i32) -> bool
    ensures { result ≡ is_within_pair (pair_of bounds) subscript }
{
    bounds.lower <= subscript && subscript <= bounds.upper
}

/// Whether there are as many subscripts as dimensions, each within its bounds.
pub fn is_within(dimensions: &[Bounds], subscripts: &[i32]) -> bool
    ensures { result ≡ is_within (map pair_of dimensions.now) subscripts.now }
{
    if dimensions.len() != subscripts.len() {
        return false;
    }
    for place in 0..subscripts.len() {
        if !is_within_pair(dimensions[place], subscripts[place]) {
            return false;
        }
    }
    true
}

/// How far the subscript of a dimension stands behind the lower bound, 0 where it stands before it.
fn distance(bounds: Bounds, subscripts: &[i32], dimension: usize) -> u64
    requires inside { dimension < length subscripts.now }
    ensures { result ≡ natural (slice_index_or subscripts.now dimension (pos 0) -ℤ (pair_of bounds).lower) }
{
    let subscript = subscripts[dimension];
    if subscript < bounds.lower {
        return 0;
    }
    u64::from(subscript.abs_diff(bounds.lower))
}

fn place_of(dimensions: &[Bounds], subscripts: &[i32]) -> u64
    requires even { length dimensions.now ≡ length subscripts.now }
    ensures { result ≡ capped (element_place (map pair_of dimensions.now) subscripts.now) }
{
    let mut place: u64 = 0;
    for dimension in 0..dimensions.len() {
        let rows = place.saturating_mul(span(dimensions[dimension]));
        let within = distance(dimensions[dimension], subscripts, dimension);
        place = rows.saturating_add(within);
    }
    place
}

/// The place of an element among those of its leaf, row by row, counted from 0; `u64::MAX` where it is more. None where the
/// subscripts aren't within the bounds.
pub fn element_place(dimensions: &[Bounds], subscripts: &[i32]) -> Option<u64>
    ensures { result ≡ place_within (map pair_of dimensions.now) subscripts.now }
{
    if dimensions.len() != subscripts.len() {
        return None;
    }
    if !is_within(dimensions, subscripts) {
        return None;
    }
    Some(place_of(dimensions, subscripts))
}
