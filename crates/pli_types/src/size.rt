// How many bytes a generation counts for, up to the greatest number of 64 bits, which stands for all that is more.

ghost use Rattle.std.specs.Prelude.{◌≡◌, map};
ghost use Rattle.pli_typing.specs.Signatures.{capped, data_size, element_count, footprint, leaf_bytes, leaf_size, leaves_size, rounded_up, span};
ghost use Rattle.pli_types.specs.Templates.{amount_so_far, bounds_so_far, kind_so_far, leaf_so_far, so_far};
ghost use Rattle.pli_types.specs.View.{bounds_of, leaf_kind_of, leaf_of, template_of};

use crate::signature::{Bounds, Leaf, LeafKind, Signature};

/// A length as far as it is known: 0 where it isn't.
fn length_so_far(length: Option<u16>) -> u32
    ensures { result ≡ amount_so_far length }
{
    length.map_or(0, u32::from)
}

/// The bytes of one element, before they are rounded up.
fn leaf_bytes(kind: LeafKind) -> u32
    ensures { result ≡ leaf_bytes (kind_so_far (leaf_kind_of kind)) }
{
    match kind {
        LeafKind::Fixed { precision } => if precision <= 15 { 2 } else { 4 },
        LeafKind::Character { length } => length_so_far(length),
        LeafKind::Varying { length } => 2 + length_so_far(length),
        LeafKind::Bit => 1,
        LeafKind::Pointer => 16,
        LeafKind::Offset => 4,
        LeafKind::Area { capacity } => capacity.unwrap_or(0),
    }
}

/// The elements of one dimension: none where the upper bound is below the lower one, or the bounds aren't known.
fn span(bounds: Option<Bounds>) -> u64
    ensures { result ≡ span (bounds_so_far (bounds_of bounds)) }
{
    let Some(bounds) = bounds else {
        return 0;
    };
    if bounds.upper < bounds.lower {
        return 0;
    }
    u64::from(bounds.upper.abs_diff(bounds.lower)) + 1
}

/// The elements of all dimensions together: 1 where there is none.
#[tactic(auto, using(crate::proofs::Capping::next_dimension))]
fn element_count(dimensions: &[Option<Bounds>]) -> u64
    ensures { result ≡ capped (element_count (map bounds_so_far (map bounds_of dimensions.now))) }
{
    let mut count: u64 = 1;
    for bounds in dimensions {
        count = count.saturating_mul(span(*bounds));
    }
    count
}

/// The bytes of a leaf in whole words, for all its elements.
fn leaf_size(leaf: &Leaf) -> u64
    ensures { result ≡ capped (leaf_size (leaf_so_far (leaf_of leaf.now))) }
{
    let bytes = u64::from(leaf_bytes(leaf.kind)).next_multiple_of(4);
    bytes.saturating_mul(element_count(&leaf.bounds))
}

/// The data size in bytes: what the leaves take together, each element rounded up to 4; `u64::MAX` where it is more. An extent that
/// isn't known yet counts as a length of 0, or as bounds without an element.
pub fn size_of(signature: &Signature) -> u64
    ensures { result ≡ capped (data_size (so_far (template_of signature.now))) }
{
    let mut size: u64 = 0;
    for leaf in &signature.leaves {
        size = size.saturating_add(leaf_size(leaf));
    }
    size
}

/// The bytes that a generation takes in an area, by its data size in bytes: 16, and the size rounded up to 16; `u64::MAX`
/// where they are more.
pub fn footprint(size: u64) -> u64
    ensures { result ≡ capped (footprint size) }
{
    (size.saturating_add(15) / 16 * 16).saturating_add(16)
}
