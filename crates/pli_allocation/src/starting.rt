// Generations as they begin.

ghost use Rattle.std.specs.Prelude.{◌≡◌, ◌+◌, ◌<◌, ◌≤◌, ◌^◌, length, replicate, true, None, is_some, IfOk};
ghost use Rattle.area_keeper.specs.Keeper.{Keeper};
ghost use Rattle.pli_allocation.specs.Beginnings.{written_leaf, written_leaves, Begins, IsBegun};
ghost use Rattle.pli_meaning.specs.Contents.{Generation};
ghost use Rattle.pli_serving.specs.AreaServices as areas;
ghost use Rattle.pli_serving.specs.AreaServices.{begun, begun_with};
ghost use Rattle.pli_serving.specs.Arguments.{capacity_of};
ghost use Rattle.pli_serving.specs.Bytes.{with_bytes};
ghost use Rattle.pli_serving.specs.Finding.{Call};
ghost use Rattle.pli_serving.specs.InitialValues.{initial_values};
ghost use Rattle.pli_serving.specs.Values.{generation_bytes};
ghost use Rattle.pli_signatures.specs.View.{kind_of};
ghost use Rattle.pli_signatures.specs.Whole.{shape_so_far};
ghost use Rattle.pli_storage.specs.Held.{with_held};
ghost use Rattle.pli_types.specs.View.{template_of};
ghost use Rattle.pli_typing.specs.Signatures.{leaf_size, leaves_size};
ghost use Rattle.pli_values.specs.Beginnings.{generation_of, leaf_of, leaves_of, lists_of, told_of};
ghost use Rattle.pli_values.specs.Calls.{call_of};
ghost use Rattle.pli_values.specs.Sizes.{written_size};

use crate::beginning::{Beginning, MOST_CAPACITY};
use crate::extents::{extent_fits, extent_given};
use crate::whole::whole;
use pli_signatures::element::ElementKind;
use pli_signatures::in_force::extent_told;
use pli_signatures::size::{count_in_force, kind_in_force};
use pli_storage::held::Held;
use pli_types::signature::Signature;
use pli_values::begun::{Begun, put_generation};
use pli_values::element::element_size;
use pli_values::lists::initial_lists;
use pli_values::source::Source;
use std::alloc::{AllocError, Global};

/// The bytes that are written of an element: of an area's none but those behind it.
fn written_bytes(kind: ElementKind) -> usize
    ensures { result ≡ written_size (kind_of kind) }
{
    match kind {
        ElementKind::Area { capacity } => element_size(kind) - capacity as usize,
        _ => element_size(kind),
    }
}

/// The extent, where REFER tells it of this leaf.
fn told(begun: &Begun, leaf: usize) -> Option<i32>
    requires there { leaf < length begun.now.signature.now.leaves.items }
    ensures { result ≡ told_of begun.now leaf }
{
    let signature = begun.signature;
    let count = signature.leaves.len();
    extent_told(signature.refer.is_some(), leaf, count, begun.extent)
}

/// The bytes that are written of a leaf.
fn written_of(begun: &Begun, leaf: usize) -> usize
    requires there { leaf < length begun.now.signature.now.leaves.items }
    requires inside { leaf_size (leaf_of begun.now leaf) < 2 ^ 63 }
    ensures { result ≡ written_leaf (leaf_of begun.now leaf) }
{
    let found = &begun.signature.leaves[leaf];
    let extent = told(begun, leaf);
    let elements = count_in_force(found, extent);
    written_bytes(kind_in_force(found, extent)) * elements as usize
}

/// The bytes that are written of a generation.
fn written(begun: &Begun) -> usize
    requires { leaves_size (leaves_of begun.now) < 2 ^ 63 }
    ensures { result ≡ written_leaves (leaves_of begun.now) }
{
    let mut bytes = 0;
    for leaf in 0..begun.signature.leaves.len() {
        bytes += written_of(begun, leaf);
    }
    bytes
}

/// So many bytes, zeros behind the data of a generation as it begins.
fn filled(alloc: Global, begun: &Begun, size: usize) -> Result<Vec<u8>, AllocError>
    requires right { is_some (lists_of begun.now) ≡ true }
    requires size { size ≡ leaves_size (leaves_of begun.now) }
    ensures { IfOk result (λ bytes. bytes.items ≡ with_bytes (generation_bytes (generation_of begun.now)) 0 (replicate size 0)) }
{
    let mut bytes = vec![in alloc; 0; size]?;
    put_generation(&mut bytes, 0, begun);
    Ok(bytes)
}

/// The bytes of a generation's data as it begins, which are so many at most.
pub fn bytes_of(alloc: Global, begun: &Begun, size: usize) -> Result<Vec<u8>, AllocError>
    requires right { is_some (lists_of begun.now) ≡ true }
    requires size { size ≡ leaves_size (leaves_of begun.now) }
    requires bounded { size < 2 ^ 63 }
    ensures { IfOk result (λ bytes. bytes.items ≡ generation_bytes (generation_of begun.now)) }
{
    let mut bytes = filled(alloc, begun, size)?;
    bytes.truncate(written(begun));
    Ok(bytes)
}

/// A generation as it begins.
fn beginning_of(alloc: Global, begun: &Begun) -> Result<Beginning, AllocError>
    requires { is_some (lists_of begun.now) ≡ true }
    ensures { IfOk result (λ b. IsBegun b (generation_of begun.now)) }
{
    let size = begun.data_size();
    if size > MOST_CAPACITY {
        return Ok(Beginning {
            size,
            extent: begun.extent,
            bytes: Vec::new(alloc),
        });
    }
    let bytes = bytes_of(alloc, begun, size as usize)?;
    Ok(Beginning {
        size,
        extent: begun.extent,
        bytes,
    })
}

/// A generation of a signature that can be placed, with the INITIAL values at an address; none where these aren't right.
fn begin_right(
    alloc: Global,
    source: &Source,
    signature: &Signature,
    extent: i32,
    initial: u32,
) -> Result<Option<Beginning>, AllocError>
    requires plain { capacity_of (shape_so_far (template_of signature.now)) ≡ None }
    requires fits { areas.extent_fits extent (shape_so_far (template_of signature.now)).signature.leaves (shape_so_far (template_of signature.now)).refer ≡ true }
    ensures { IfOk result (λ o. Begins o (begun_with (shape_so_far (template_of signature.now)) extent (initial_values (call_of source.now) (shape_so_far (template_of signature.now)).signature.leaves initial))) }
{
    let read = initial_lists(alloc, source, &signature.leaves, initial as usize)?;
    match read {
        Some(lists) => {
            let begun = Begun {
                signature,
                extent,
                member: signature.refer,
                source: *source,
                lists: &lists,
            };
            let beginning = beginning_of(alloc, &begun)?;
            Ok(Some(beginning))
        }
        None => Ok(None),
    }
}

/// The same, where the extent may be one that doesn't fit.
fn begin_with(
    alloc: Global,
    source: &Source,
    signature: &Signature,
    extent: i32,
    initial: u32,
) -> Result<Option<Beginning>, AllocError>
    requires { capacity_of (shape_so_far (template_of signature.now)) ≡ None }
    ensures { IfOk result (λ o. Begins o (begun_with (shape_so_far (template_of signature.now)) extent (initial_values (call_of source.now) (shape_so_far (template_of signature.now)).signature.leaves initial))) }
{
    if extent_fits(signature, extent) {
        begin_right(alloc, source, signature, extent, initial)
    } else {
        Ok(None)
    }
}

/// The generation of the signature of a number as it begins, with a REFER extent and the INITIAL values at an address; none where these
/// aren't right, no whole signature has the number, or it is an area's.
pub fn begin(
    held: &Held,
    alloc: Global,
    memory: &[u8],
    signature: u32,
    extent: u32,
    initial: u32,
) -> Result<Option<Beginning>, AllocError>
    requires { held.now.layout.end ≤ length memory.now }
    ensures { (k : Keeper) → (c : Call) → IfOk result (λ o. Begins o (begun (with_held k held.now memory.now c) signature extent initial)) }
{
    match whole(&held.signatures, signature) {
        Some(found) => {
            if held.signatures.capacity(signature).is_some() {
                return Ok(None);
            }
            let source = Source::new(held.layout, memory);
            let given = extent_given(found, extent);
            begin_with(alloc, &source, found, given, initial)
        }
        None => Ok(None),
    }
}
