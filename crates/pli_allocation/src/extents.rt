// REFER extents with which generations are allocated.

ghost use Rattle.std.specs.Prelude.{◌≡◌, slice_get};
ghost use Rattle.pli_allocation.specs.Beginnings.{takes_by};
ghost use Rattle.rv_meaning.specs.Words.{signed};
ghost use Rattle.pli_meaning.specs.Numbers.{is_of_precision};
ghost use Rattle.pli_serving.specs.AreaServices as areas;
ghost use Rattle.pli_signatures.specs.Whole.{shape_so_far};
ghost use Rattle.pli_types.specs.Templates.{kind_so_far};
ghost use Rattle.pli_types.specs.View.{leaf_kind_of, template_of};

use crate::told::last_lower;
use pli_types::signature::{LeafKind, Signature};

/// The greatest length of a text.
const MOST_TEXT: i32 = 1024;

/// The extent in a word, 0 where the signature has no REFER.
pub fn extent_given(signature: &Signature, extent: u32) -> i32
    ensures { result ≡ areas.extent_of (shape_so_far (template_of signature.now)) extent }
{
    match signature.refer {
        Some(_) => extent.cast_signed(),
        None => 0,
    }
}

/// Whether a number in a word has at most so many bits beside its sign.
fn has_precision(precision: u8, number: u32) -> bool
    ensures { result ≡ is_of_precision precision (signed number) }
{
    let magnitude = if number < 1 << 31 {
        number
    } else {
        u32::MAX - number
    };
    precision >= 31 || magnitude < 1 << precision
}

fn kind_keeps(kind: LeafKind, extent: i32) -> bool
    ensures { result ≡ areas.kind_keeps extent (kind_so_far (leaf_kind_of kind)) }
{
    match kind {
        LeafKind::Fixed { precision } => has_precision(precision, extent.cast_unsigned()),
        _ => false,
    }
}

/// Whether a member, which is a leaf, may hold an extent.
#[tactic(auto, using(crate::proofs::Fits::keeps_none))]
fn member_keeps(signature: &Signature, member: usize, extent: i32) -> bool
    ensures { result ≡ areas.leaf_keeps extent (slice_get (shape_so_far (template_of signature.now)).signature.leaves member) }
{
    if member >= signature.leaves.len() {
        return false;
    }
    kind_keeps(signature.leaves[member].kind, extent)
}

/// Whether the last leaf may have an extent: as the upper bound above a lower one, or as its length.
fn takes(extent: i32, lower: Option<i32>) -> bool
    ensures { result ≡ takes_by extent lower }
{
    match lower {
        Some(lower) => lower <= extent,
        None => 0 <= extent && extent <= MOST_TEXT,
    }
}

/// Whether the member may hold an extent, and the last leaf have it; without REFER it may be any.
#[tactic(auto, using(crate::proofs::Fits::fits_is))]
pub fn extent_fits(signature: &Signature, extent: i32) -> bool
    ensures { result ≡ areas.extent_fits extent (shape_so_far (template_of signature.now)).signature.leaves (shape_so_far (template_of signature.now)).refer }
{
    match signature.refer {
        Some(member) => {
            member_keeps(signature, member, extent) && takes(extent, last_lower(signature))
        }
        None => true,
    }
}
