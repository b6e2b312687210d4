// How many bytes leaves take, of which extents may be open.

ghost use Rattle.std.specs.Prelude.{◌≡◌, [], map, Some};
ghost use Rattle.pli_typing.specs.Signatures.{capped, element_count, leaf_size, leaves_size, span};
ghost use Rattle.pli_types.specs.Templates.{bounds_so_far, kind_so_far, leaf_so_far};
ghost use Rattle.pli_types.specs.View.{bounds_of, leaf_kind_of, leaf_of, pair_of};
ghost use Rattle.pli_meaning.specs.Contents.{leaf_refers, last_refers};
ghost use Rattle.pli_signatures.specs.View.{kind_of};
ghost use Rattle.pli_signatures.specs.Whole.{bounds_told, leaf_told};

use crate::element::{ElementKind, span};
use pli_types::signature::{Bounds, Leaf, LeafKind};

/// The kind of a leaf's elements, an open length or capacity as 0.
pub fn element_kind(kind: LeafKind) -> ElementKind
    ensures { kind_of result ≡ kind_so_far (leaf_kind_of kind) }
{
    match kind {
        LeafKind::Fixed { precision } => ElementKind::Fixed { precision },
        LeafKind::Character { length } => ElementKind::Character {
            length: length.map_or(0, u32::from),
        },
        LeafKind::Varying { length } => ElementKind::Varying {
            length: length.unwrap_or(0),
        },
        LeafKind::Bit => ElementKind::Bit,
        LeafKind::Pointer => ElementKind::Pointer,
        LeafKind::Offset => ElementKind::Offset,
        LeafKind::Area { capacity } => ElementKind::Area {
            capacity: capacity.unwrap_or(0),
        },
    }
}

/// A pair of bounds, an open one as one without an element.
pub fn bounds_so_far(bounds: Option<Bounds>) -> Bounds
    ensures { pair_of result ≡ bounds_so_far (bounds_of bounds) }
{
    bounds.unwrap_or(Bounds { lower: 1, upper: 0 })
}

/// The elements of all dimensions together; `u64::MAX` where there are more.
pub fn count_so_far(dimensions: &[Option<Bounds>]) -> u64
    ensures { result ≡ capped (element_count (map bounds_so_far (map bounds_of dimensions.now))) }
{
    let mut count: u64 = 1;
    for bounds in dimensions {
        count = count.saturating_mul(span(bounds_so_far(*bounds)));
    }
    count
}

fn leaf_size(leaf: &Leaf) -> u64
    ensures { result ≡ capped (leaf_size (leaf_so_far (leaf_of leaf.now))) }
{
    let size = element_kind(leaf.kind).size();
    size.saturating_mul(count_so_far(&leaf.bounds))
}

/// The bytes that leaves take together; `u64::MAX` where they are more.
pub fn leaves_size(leaves: &[Leaf]) -> u64
    ensures { result ≡ capped (leaves_size (map leaf_so_far (map leaf_of leaves.now))) }
{
    let mut size: u64 = 0;
    for leaf in leaves {
        size = size.saturating_add(leaf_size(leaf));
    }
    size
}

/// The elements of all dimensions where the first one has this upper bound; `u64::MAX` where there are more.
#[tactic(auto, using(crate::proofs::Told::count_one, crate::proofs::Told::count_none))]
fn count_told(dimensions: &[Option<Bounds>], extent: i32) -> u64
    ensures { result ≡ capped (element_count (bounds_told extent (map bounds_so_far (map bounds_of dimensions.now)))) }
{
    let Some((first, others)) = dimensions.split_first() else {
        return 1;
    };
    let told = Bounds {
        lower: bounds_so_far(*first).lower,
        upper: extent,
    };
    span(told).saturating_mul(count_so_far(others))
}

/// The kind of a leaf without dimensions, with the extent that REFER tells.
fn kind_told(kind: ElementKind, extent: i32) -> ElementKind
    ensures { kind_of result ≡ (leaf_refers extent (kind_of kind) []).kind }
{
    match kind {
        ElementKind::Character { length: _ } => ElementKind::Character {
            length: extent.max(0) as u32,
        },
        _ => kind,
    }
}

/// The kind of a leaf's elements, with the extent where REFER tells one of it.
pub fn kind_in_force(leaf: &Leaf, told: Option<i32>) -> ElementKind
    ensures { kind_of result ≡ (leaf_told told (leaf_so_far (leaf_of leaf.now))).kind }
{
    let kind = element_kind(leaf.kind);
    match told {
        Some(extent) => if leaf.bounds.is_empty() {
            kind_told(kind, extent)
        } else {
            kind
        },
        None => kind,
    }
}

/// The elements of a leaf, with the extent where REFER tells one of it; `u64::MAX` where there are more.
pub fn count_in_force(leaf: &Leaf, told: Option<i32>) -> u64
    ensures { result ≡ capped (element_count (leaf_told told (leaf_so_far (leaf_of leaf.now))).bounds) }
{
    match told {
        Some(extent) => count_told(&leaf.bounds, extent),
        None => count_so_far(&leaf.bounds),
    }
}

fn size_told(leaf: &Leaf, extent: i32) -> u64
    ensures { result ≡ capped (leaf_size (leaf_told (Some extent) (leaf_so_far (leaf_of leaf.now)))) }
{
    let kind = element_kind(leaf.kind);
    if leaf.bounds.is_empty() {
        return kind_told(kind, extent).size();
    }
    kind.size().saturating_mul(count_told(&leaf.bounds, extent))
}

/// The bytes that leaves take together where REFER tells this extent of the last one; `u64::MAX` where they are more.
#[tactic(auto, using(crate::proofs::Told::size_last, crate::proofs::Told::size_none))]
pub fn last_told_size(leaves: &[Leaf], extent: i32) -> u64
    ensures { result ≡ capped (leaves_size (last_refers extent (map leaf_so_far (map leaf_of leaves.now)))) }
{
    let Some((last, others)) = leaves.split_last() else {
        return 0;
    };
    leaves_size(others).saturating_add(size_told(last, extent))
}
