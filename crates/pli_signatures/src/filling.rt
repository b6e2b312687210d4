// An extent that the run tells, filled in at its places.

ghost use Rattle.std.specs.Prelude.{◌≡◌, ◌&&◌, ◌==◌, ◌+◌, ◌<◌, map, length, Some, None, option_map, if◌then◌else◌};
ghost use Rattle.pli_types.specs.View.{pair_of, bounds_of, leaf_kind_of, leaf_of, template_of};
ghost use Rattle.pli_serving.specs.SignatureService as V;
ghost use Rattle.pli_signatures.specs.View.{place_of};

use pli_types::signature::{Bounds, Leaf, LeafKind, Signature};

/// The dimension that stands for a length or a size.
const LENGTH_OR_SIZE: u32 = 255;

const MOST_TEXT: i32 = 1024;

/// A place of an extent: a leaf, and a dimension of it, both counted from 0, or 255 for its length or size.
#[derive(Clone, Copy, PartialEq, Eq, Debug)]
pub struct ExtentPlace {
    pub leaf: u32,
    pub dimension: u32,
}

/// From 0 to 1,024.
fn length_told(upper: i32) -> Option<u16>
    ensures { option_map (λ n. Some n) result ≡ V.length_told upper }
{
    if 0 <= upper && upper <= MOST_TEXT {
        return Some(upper as u16);
    }
    None
}

/// At least 0, rounded down to 16.
fn capacity_told(upper: i32) -> Option<u32>
    ensures { option_map (λ n. Some n) result ≡ V.capacity_told upper }
{
    if upper < 0 {
        return None;
    }
    Some(upper as u32 / 16 * 16)
}

fn filled_kind(upper: i32, kind: LeafKind) -> Option<LeafKind>
    ensures { option_map leaf_kind_of result ≡ V.filled_kind upper (leaf_kind_of kind) }
{
    match kind {
        LeafKind::Character { length: None } => {
            let length = Some(length_told(upper)?);
            Some(LeafKind::Character { length })
        }
        LeafKind::Varying { length: None } => {
            let length = Some(length_told(upper)?);
            Some(LeafKind::Varying { length })
        }
        LeafKind::Area { capacity: None } => {
            let capacity = Some(capacity_told(upper)?);
            Some(LeafKind::Area { capacity })
        }
        _ => None,
    }
}

/// An open pair gets bounds in order; where REFER tells the upper bound, the lower one alone is set.
fn filled_pair(is_referred: bool, given: Bounds, old: Option<Bounds>) -> Option<Bounds>
    ensures { option_map (λ b. Some (pair_of b)) result ≡ V.filled_pair is_referred (pair_of given) (bounds_of old) }
{
    match old {
        None => {
            if given.lower <= given.upper {
                Some(given)
            } else {
                None
            }
        }
        Some(old) => {
            if !is_referred {
                return None;
            }
            Some(Bounds {
                lower: given.lower,
                upper: old.upper,
            })
        }
    }
}

/// Fills one dimension in; where that can't be, it answers false.
fn fill_dimension(
    pairs: &mut [Option<Bounds>],
    is_referred: bool,
    given: Bounds,
    dimension: u32,
) -> bool
    ensures { V.filled_pairs is_referred (pair_of given) dimension (map bounds_of pairs.old) ≡ (if result then Some (map bounds_of pairs.new) else None) }
{
    let at = dimension as usize;
    if at >= pairs.len() {
        return false;
    }
    let Some(pair) = filled_pair(is_referred, given, pairs[at]) else {
        return false;
    };
    pairs[at] = Some(pair);
    true
}

fn fill_leaf(leaf: &mut Leaf, is_referred: bool, given: Bounds, dimension: u32) -> bool
    ensures { V.filled_leaf is_referred (pair_of given) dimension (leaf_of leaf.old) ≡ (if result then Some (leaf_of leaf.new) else None) }
{
    if dimension != LENGTH_OR_SIZE {
        return fill_dimension(leaf.bounds.as_mut_slice(), is_referred, given, dimension);
    }
    let Some(kind) = filled_kind(given.upper, leaf.kind) else {
        return false;
    };
    leaf.kind = kind;
    true
}

/// Whether REFER tells an extent of this leaf of so many: of the last one.
fn is_referred(has_refer: bool, leaf: usize, count: usize) -> bool
    requires inside { leaf < count }
    ensures { result ≡ has_refer && leaf + 1 == count }
{
    has_refer && leaf + 1 == count
}

fn fill_at(signature: &mut Signature, given: Bounds, place: ExtentPlace) -> bool
    ensures { V.filled_at (pair_of given) (place_of place) (template_of signature.old) ≡ (if result then Some (template_of signature.new) else None) }
{
    let at = place.leaf as usize;
    let count = signature.leaves.len();
    if at >= count {
        return false;
    }
    let is_referred = is_referred(signature.refer.is_some(), at, count);
    fill_leaf(
        &mut signature.leaves[at],
        is_referred,
        given,
        place.dimension,
    )
}

/// Fills an extent in at all of its places; false where one isn't there or isn't open, or the extent can't be one.
#[tactic(auto, using(crate::proofs::Fillings::place_filled, crate::proofs::Fillings::place_refused))]
pub fn fill_all(signature: &mut Signature, given: Bounds, places: &[ExtentPlace]) -> bool
    ensures { V.filled (pair_of given) (map place_of places.now) (Some (template_of signature.old)) ≡ (if result then Some (template_of signature.new) else None) }
{
    for place in places {
        if !fill_at(signature, given, *place) {
            return false;
        }
    }
    true
}
