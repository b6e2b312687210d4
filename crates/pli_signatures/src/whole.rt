// Signatures of which no extent is open, and their leaves.

ghost use Rattle.std.specs.Prelude.{◌≡◌, map, IfOk, is_some};
ghost use Rattle.pli_types.specs.Templates.{bounds_so_far, leaf_so_far};
ghost use Rattle.pli_types.specs.View.{bounds_of, leaf_kind_of, leaf_of, pair_of, template_of};
ghost use Rattle.pli_meaning.specs.Contents.{leaf_refers};
ghost use Rattle.pli_serving.specs.Templates.{shape_of};
ghost use Rattle.pli_signatures.specs.View.{leaf_in_force};
ghost use Rattle.pli_signatures.specs.Whole.{is_known_kind, are_known, is_known_leaf, are_known_leaves, leaf_told};

use crate::element::{ElementKind, LeafInForce};
use crate::size::{bounds_so_far, element_kind};
use pli_types::signature::{Bounds, Leaf, LeafKind, Signature};
use smallvec::SmallVec;
use std::alloc::{AllocError, Global};

fn is_known_kind(kind: LeafKind) -> bool
    ensures { result ≡ is_known_kind (leaf_kind_of kind) }
{
    match kind {
        LeafKind::Character { length } => length.is_some(),
        LeafKind::Varying { length } => length.is_some(),
        LeafKind::Area { capacity } => capacity.is_some(),
        LeafKind::Fixed { precision: _ } => true,
        LeafKind::Bit => true,
        LeafKind::Pointer => true,
        LeafKind::Offset => true,
    }
}

fn are_known(dimensions: &[Option<Bounds>]) -> bool
    ensures { result ≡ are_known (map bounds_of dimensions.now) }
{
    for bounds in dimensions {
        if bounds.is_none() {
            return false;
        }
    }
    true
}

fn is_known_leaf(leaf: &Leaf) -> bool
    ensures { result ≡ is_known_leaf (leaf_of leaf.now) }
{
    is_known_kind(leaf.kind) && are_known(&leaf.bounds)
}

/// Whether no extent of a signature is open.
pub fn is_whole(signature: &Signature) -> bool
    ensures { result ≡ are_known_leaves (template_of signature.now).leaves }
{
    for leaf in &signature.leaves {
        if !is_known_leaf(leaf) {
            return false;
        }
    }
    true
}

fn bounds_in_force(
    alloc: Global,
    dimensions: &[Option<Bounds>],
) -> Result<SmallVec<Bounds, 8>, AllocError>
    ensures { IfOk result (λ bounds. map pair_of bounds.items ≡ map bounds_so_far (map bounds_of dimensions.now)) }
{
    let mut bounds = SmallVec::new(alloc);
    for pair in dimensions {
        bounds.push(bounds_so_far(*pair))?;
    }
    Ok(bounds)
}

/// The leaf with this extent: as the upper bound of its one dimension, or as its length.
fn referred(leaf: LeafInForce, extent: i32) -> LeafInForce
    ensures { leaf_in_force result ≡ leaf_refers extent (leaf_in_force leaf).kind (leaf_in_force leaf).bounds }
{
    let mut leaf = leaf;
    if leaf.bounds.is_empty() {
        if let ElementKind::Character { length: _ } = leaf.kind {
            let length = extent.max(0) as u32;
            leaf.kind = ElementKind::Character { length };
        }
    } else {
        leaf.bounds[0].upper = extent;
    }
    leaf
}

/// A leaf of a whole signature, with the REFER extent that is told of it.
pub fn leaf_told(alloc: Global, leaf: &Leaf, extent: Option<i32>) -> Result<LeafInForce, AllocError>
    ensures { IfOk result (λ l. leaf_in_force l ≡ leaf_told extent (leaf_so_far (leaf_of leaf.now))) }
{
    let found = LeafInForce {
        kind: element_kind(leaf.kind),
        bounds: bounds_in_force(alloc, &leaf.bounds)?,
    };
    match extent {
        Some(extent) => Ok(referred(found, extent)),
        None => Ok(found),
    }
}
