// What the member of a REFER extent tells, by where its generation was found.

ghost use Rattle.std.specs.Prelude.{◌≡◌, ◌+◌, ◌^◌, ◌<◌, map, Some, MatchOption, MatchResult, ⊤};
ghost use Rattle.pli_allocation.specs.Referring.{first_lower, last_of, member_number};
ghost use Rattle.pli_meaning.specs.Contents.{number_in};
ghost use Rattle.pli_serving.specs.Templates.{shape_at};
ghost use Rattle.pli_serving.specs.Values.{value_at};
ghost use Rattle.pli_signatures.specs.View.{kind_of};
ghost use Rattle.pli_signatures.specs.Whole.{shape_so_far};
ghost use Rattle.pli_storage.specs.Findings.{found_of};
ghost use Rattle.pli_types.specs.Templates.{leaf_so_far};
ghost use Rattle.pli_types.specs.View.{leaf_of, template_of};
ghost use Rattle.pli_values.specs.View.{value_of};

use pli_answering::reply::Refusal;
use pli_signatures::element::ElementKind;
use pli_signatures::signatures::Signatures;
use pli_signatures::size::bounds_so_far;
use pli_storage::finding::Found;
use pli_types::signature::{Leaf, Signature};
use pli_values::element::{Value, value_at};
use std::alloc::Global;

/// The number that an element holds, 0 where it holds none.
fn number_of(value: Value) -> i32
    ensures { result ≡ number_in (value_of value.entry) }
{
    match value {
        Value::Number(number) => number,
        _ => 0,
    }
}

/// The number in an element of a kind at an address, none where memory doesn't reach so far.
fn number_at(memory: &[u8], at: usize, kind: ElementKind) -> Option<i32>
    ensures { MatchOption result ⊤ (λ number. number ≡ number_in (value_at (kind_of kind) at memory.now)) }
{
    let bytes = kind.value_bytes() as usize;
    if at.saturating_add(bytes) > memory.len() {
        return None;
    }
    Some(number_of(value_at(memory, at, kind)))
}

/// The sum of an address and a distance, where it is an address.
fn address_behind(at: usize, distance: u64) -> Option<u32>
    ensures { MatchOption result ⊤ (λ there. (there ≡ at + distance) × (there < 2 ^ 32)) }
{
    u32::try_from((at as u64).checked_add(distance)?).ok()
}

/// The number in a member of this kind, at a place of the data of what was found. A place outside memory has no memory.
fn number_in_data(
    memory: &[u8],
    found: Found,
    place: u64,
    kind: ElementKind,
) -> Result<i32, Refusal>
    ensures { MatchResult result (λ number. (place < 2 ^ 32) × (number ≡ number_in (value_at (kind_of kind) (found.at + place) memory.now))) (λ refusal. refusal ≡ Refusal.Memory) }
{
    let Some(at) = address_behind(found.at, place) else {
        return Err(Refusal::Memory);
    };
    match number_at(memory, at as usize, kind) {
        Some(number) => Ok(number),
        None => Err(Refusal::Memory),
    }
}

/// The number that a member of what was found holds; 0 where the member isn't there.
#[tactic(auto, using(crate::proofs::Members::member_is, crate::proofs::Members::no_member))]
pub fn member_told(
    alloc: Global,
    signatures: &Signatures,
    memory: &[u8],
    found: Found,
    member: u32,
) -> Result<i32, Refusal>
    ensures { MatchResult result (λ number. number ≡ member_number (shape_at signatures.now found.signature) (found_of found) member memory.now) (λ refusal. refusal ≡ Refusal.Memory) }
{
    let described = signatures.leaf(alloc, found.signature, member, found.extent)?;
    match described {
        Some(leaf) => match signatures.leaf_place(found.signature, member) {
            Some(place) => number_in_data(memory, found, place, leaf.kind),
            None => Err(Refusal::Memory),
        },
        None => Ok(0),
    }
}

/// The lower bound of a leaf's first dimension, where it has one.
fn first_lower(leaf: &Leaf) -> Option<i32>
    ensures { result ≡ first_lower (leaf_so_far (leaf_of leaf.now)).bounds }
{
    match leaf.bounds.first() {
        Some(bounds) => Some(bounds_so_far(*bounds).lower),
        None => None,
    }
}

/// The lower bound of the last leaf's first dimension, where it has one.
pub fn last_lower(signature: &Signature) -> Option<i32>
    ensures { result ≡ first_lower (last_of (shape_so_far (template_of signature.now)).signature.leaves).bounds }
{
    let count = signature.leaves.len();
    if count == 0 {
        return None;
    }
    first_lower(&signature.leaves[count - 1])
}
