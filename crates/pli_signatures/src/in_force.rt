// Whole signatures by their numbers, with the REFER extent in force: 0 for one without REFER.

ghost use Rattle.std.specs.Prelude.{◌≡◌, ◌<◌, ℤ, length, IfOk, MatchOption, Some, None, is_some, slice_get, option_map};
ghost use Rattle.pli_typing.specs.Signatures.{capped, leaves_size};
ghost use Rattle.pli_types.specs.Templates.{kind_so_far};
ghost use Rattle.pli_types.specs.View.{leaf_kind_of, template_of};
ghost use Rattle.pli_serving.specs.Arguments.{capacity_of_kind, capacity_of};
ghost use Rattle.pli_meaning.specs.Contents.{leaves_with};
ghost use Rattle.pli_serving.specs.Templates.{shape_at};
ghost use Rattle.pli_signatures.specs.View.{kind_of, leaf_in_force};
ghost use Rattle.pli_signatures.specs.Whole.{shape_so_far, extent_told, leaf_in, place_in, size_in, capacity_in, size_told, footprint_told};

use crate::element::{ElementKind, LeafInForce};
use crate::signatures::Signatures;
use crate::size::{kind_in_force, last_told_size, leaves_size};
use crate::whole::leaf_told;
use pli_types::signature::{LeafKind, Signature};
use pli_types::size::{footprint, size_of};
use std::alloc::{AllocError, Global};

/// The extent, where REFER tells it of this leaf of so many: of the last one.
pub fn extent_told(has_refer: bool, leaf: usize, count: usize, extent: i32) -> Option<i32>
    requires inside { leaf < count }
    ensures { result ≡ extent_told has_refer leaf count extent }
{
    if has_refer && leaf + 1 == count {
        return Some(extent);
    }
    None
}

fn leaf_of(
    alloc: Global,
    signature: &Signature,
    leaf: u32,
    extent: i32,
) -> Result<Option<LeafInForce>, AllocError>
    ensures { IfOk result (λ l. option_map leaf_in_force l ≡ slice_get (leaves_with extent (shape_so_far (template_of signature.now))) leaf) }
{
    let count = signature.leaves.len();
    if leaf as usize >= count {
        return Ok(None);
    }
    let told = extent_told(signature.refer.is_some(), leaf as usize, count, extent);
    let found = leaf_told(alloc, &signature.leaves[leaf as usize], told)?;
    Ok(Some(found))
}

fn kind_of(signature: &Signature, leaf: u32, extent: i32) -> Option<ElementKind>
    ensures { option_map kind_of result ≡ option_map (λ l. l.kind) (slice_get (leaves_with extent (shape_so_far (template_of signature.now))) leaf) }
{
    let count = signature.leaves.len();
    if leaf as usize >= count {
        return None;
    }
    let told = extent_told(signature.refer.is_some(), leaf as usize, count, extent);
    Some(kind_in_force(&signature.leaves[leaf as usize], told))
}

fn place_of(signature: &Signature, leaf: u32) -> Option<u64>
    ensures { (extent : ℤ) → result ≡ place_in (Some (shape_so_far (template_of signature.now))) leaf extent }
{
    let leaves = signature.leaves.as_slice();
    if leaf as usize >= leaves.len() {
        return None;
    }
    let (before, _) = leaves.split_at(leaf as usize);
    Some(leaves_size(before))
}

fn capacity_of_kind(kind: LeafKind) -> Option<u32>
    ensures { result ≡ capacity_of_kind (kind_so_far (leaf_kind_of kind)) }
{
    match kind {
        LeafKind::Area { capacity } => Some(capacity.unwrap_or(0)),
        _ => None,
    }
}

#[tactic(auto, using(crate::proofs::Wholes::capacity_one, crate::proofs::Wholes::capacity_many))]
fn capacity_of(signature: &Signature) -> Option<u32>
    ensures { result ≡ capacity_of (shape_so_far (template_of signature.now)) }
{
    if signature.leaves.len() != 1 {
        return None;
    }
    capacity_of_kind(signature.leaves[0].kind)
}

fn size_with(signature: &Signature, extent: i32) -> u64
    ensures { result ≡ capped (leaves_size (leaves_with extent (shape_so_far (template_of signature.now)))) }
{
    match signature.refer {
        Some(_) => last_told_size(&signature.leaves, extent),
        None => leaves_size(&signature.leaves),
    }
}

impl Signatures {
    /// The signature of a number, where none of its extents is open.
    fn whole(&self, number: u32) -> Option<&Signature>
        ensures { MatchOption result (shape_at self.now number ≡ None) (λ g. shape_at self.now number ≡ Some (shape_so_far (template_of g.now))) }
    {
        match self.get(number) {
            Some(signature) => if self.is_known(number) {
                Some(signature)
            } else {
                None
            },
            None => None,
        }
    }

    /// Whether there is a signature of this number, with no open extent.
    pub fn is_whole(&self, number: u32) -> bool
        ensures { result ≡ is_some (shape_at self.now number) }
    {
        match self.whole(number) {
            Some(_) => true,
            None => false,
        }
    }

    /// A leaf of a whole signature, none where it isn't there.
    pub fn leaf(
        &self,
        alloc: Global,
        number: u32,
        leaf: u32,
        extent: i32,
    ) -> Result<Option<LeafInForce>, AllocError>
        ensures { IfOk result (λ l. option_map leaf_in_force l ≡ leaf_in (shape_at self.now number) leaf extent) }
    {
        match self.whole(number) {
            Some(signature) => leaf_of(alloc, signature, leaf, extent),
            None => Ok(None),
        }
    }

    /// The kind of a leaf of a whole signature, none where the leaf isn't there.
    pub fn leaf_kind(&self, number: u32, leaf: u32, extent: i32) -> Option<ElementKind>
        ensures { option_map kind_of result ≡ option_map (λ l. l.kind) (leaf_in (shape_at self.now number) leaf extent) }
    {
        match self.whole(number) {
            Some(signature) => kind_of(signature, leaf, extent),
            None => None,
        }
    }

    /// Where a leaf of a whole signature begins in the data, in bytes, whatever the extent; `u64::MAX` where it is more. None where the
    /// leaf isn't there.
    pub fn leaf_place(&self, number: u32, leaf: u32) -> Option<u64>
        ensures { (extent : ℤ) → result ≡ place_in (shape_at self.now number) leaf extent }
    {
        match self.whole(number) {
            Some(signature) => place_of(signature, leaf),
            None => None,
        }
    }

    /// The data size of a whole signature in bytes, in which an extent that REFER tells counts as 0; `u64::MAX` where it is more.
    pub fn data_size(&self, number: u32) -> Option<u64>
        ensures { result ≡ size_in (shape_at self.now number) }
    {
        match self.whole(number) {
            Some(signature) => Some(size_of(signature)),
            None => None,
        }
    }

    /// The capacity in bytes, where the signature is an area's.
    pub fn capacity(&self, number: u32) -> Option<u32>
        ensures { result ≡ capacity_in (shape_at self.now number) }
    {
        match self.whole(number) {
            Some(signature) => capacity_of(signature),
            None => None,
        }
    }

    /// The data size of a generation with this REFER extent, in bytes; `u64::MAX` where it is more.
    pub fn size_with(&self, number: u32, extent: i32) -> Option<u64>
        ensures { result ≡ size_told (shape_at self.now number) extent }
    {
        match self.whole(number) {
            Some(signature) => Some(size_with(signature, extent)),
            None => None,
        }
    }

    /// The bytes that a generation with this REFER extent takes in an area; `u64::MAX` where they are more.
    #[tactic(auto, using(crate::proofs::Told::footprint_capped))]
    pub fn footprint(&self, number: u32, extent: i32) -> Option<u64>
        ensures { result ≡ footprint_told (shape_at self.now number) extent }
    {
        match self.whole(number) {
            Some(signature) => Some(footprint(size_with(signature, extent))),
            None => None,
        }
    }
}
