// Parts of the generations that aggregates name.

ghost use Rattle.std.specs.Prelude.{◌≡◌, ◌+◌, Some, IfOk, length, map, nat_le, option_map, true};
ghost use Rattle.pli_meaning.specs.Contents.{Shape};
ghost use Rattle.pli_serving.specs.Aggregates.{part_of_leaves, subscripts_given};
ghost use Rattle.pli_serving.specs.Finding.{Call, FoundAt, named};
ghost use Rattle.pli_serving.specs.Templates.{shape_at};
ghost use Rattle.pli_storage.specs.Findings.{found_of};
ghost use Rattle.pli_storage.specs.Held.{with_held, IsLaid};
ghost use Rattle.pli_types.specs.View.{pair_of};
ghost use Rattle.pli_values.specs.View.{name_of};
ghost use Rattle.pli_aggregates.specs.Records.{aggregate_shown, generation_named, record_shown};
ghost use Rattle.pli_parts.specs.Leaves.{AreLeavesFound, IsLeafFound};
ghost use Rattle.pli_parts.specs.Found.{given_by, part_asked, part_in, IsPartIf};

use crate::leaf::{PartLeaf, part_leaf};
use area_heap::keeper::AreaKeeper;
use pli_aggregates::record::{Aggregate, aggregate_at, generation_of};
use pli_answering::reply::Refusal;
use pli_storage::finding::Found;
use pli_storage::held::Held;
use pli_types::signature::Bounds;
use pli_values::subscripts::subscripts_at;
use smallvec::SmallVec;
use std::alloc::{AllocError, Global};

/// A part as a service is asked for it: the address of the aggregate's record, the first leaf, how many leaves there are, and how many
/// subscripts are given.
#[derive(Clone, Copy, PartialEq, Eq, Debug)]
pub struct PartAsked {
    pub at: u32,
    pub first: u32,
    pub leaves: u32,
    pub given: u32,
}

/// The subscripts at a place among those of so many first dimensions, row by row. None where there are fewer dimensions; none are given
/// whatever the place.
#[tactic(auto, using(crate::proofs::Asked::none_given, crate::proofs::Asked::given_none, crate::proofs::Asked::given_some))]
fn subscripts_in(
    alloc: Global,
    bounds: &[Bounds],
    given: u32,
    place: u32,
) -> Result<Option<SmallVec<i32, 8>>, AllocError>
    ensures { IfOk result (λ o. option_map (λ subscripts. subscripts.items) o ≡ given_by (map pair_of bounds.now) place given) }
{
    if given as usize > bounds.len() {
        return Ok(None);
    }
    if given == 0 {
        return Ok(Some(SmallVec::new(alloc)));
    }
    subscripts_at(alloc, &bounds[..given as usize], u64::from(place))
}

/// The subscripts given to the first leaf of a part. One that isn't there has no dimensions.
fn subscripts_of(
    alloc: Global,
    held: &Held,
    aggregate: Aggregate,
    asked: PartAsked,
) -> Result<Option<SmallVec<i32, 8>>, AllocError>
    ensures { (s : Shape) → shape_at held.now.signatures aggregate.signature ≡ Some s → IfOk result (λ o. option_map (λ subscripts. subscripts.items) o ≡ subscripts_given (record_shown aggregate s) asked.first asked.given) }
{
    let signatures = &held.signatures;
    let leaf = signatures.leaf(alloc, aggregate.signature, asked.first, aggregate.extent)?;
    match leaf {
        Some(leaf) => subscripts_in(alloc, leaf.bounds.as_slice(), asked.given, aggregate.place),
        None => subscripts_in(alloc, &[], asked.given, aggregate.place),
    }
}

/// Whether an aggregate has so many leaves.
fn has_leaves(held: &Held, aggregate: Aggregate, count: u32) -> bool
    ensures { (s : Shape) → shape_at held.now.signatures aggregate.signature ≡ Some s → result ≡ nat_le count (length s.signature.leaves) }
{
    if count == 0 {
        return true;
    }
    let last = held.signatures.leaf_place(aggregate.signature, count - 1);
    last.is_some()
}

/// The leaf that stands so many behind the first one of a part. `Memory` where no register has its number.
fn nth_leaf(
    alloc: Global,
    held: &Held,
    aggregate: Aggregate,
    found: Found,
    first: u32,
    number: u32,
    given: &[i32],
) -> Result<Option<PartLeaf>, Refusal>
    ensures { (s : Shape) → shape_at held.now.signatures aggregate.signature ≡ Some s → IsLeafFound s aggregate.extent (found_of found) given.now held.now.layout.end (first + number) result }
{
    match first.checked_add(number) {
        Some(leaf) => part_leaf(alloc, held, aggregate, found, leaf, given),
        None => Err(Refusal::Memory),
    }
}

/// So many leaves from one on, with their elements behind the subscripts given. None where not all are there in full.
fn part_leaves(
    alloc: Global,
    held: &Held,
    aggregate: Aggregate,
    found: Found,
    first: u32,
    count: u32,
    given: &[i32],
) -> Result<Option<Vec<PartLeaf>>, Refusal>
    ensures { (s : Shape) → shape_at held.now.signatures aggregate.signature ≡ Some s → AreLeavesFound s aggregate.extent (found_of found) given.now held.now.layout.end first count result }
{
    let mut leaves = Vec::new(alloc);
    for number in 0..count {
        let there = nth_leaf(alloc, held, aggregate, found, first, number, given)?;
        match there {
            Some(next) => leaves.push(next)?,
            None => return Ok(None),
        }
    }
    Ok(Some(leaves))
}

/// A part of a generation that was found, by its subscripts.
fn part_behind(
    alloc: Global,
    held: &Held,
    aggregate: Aggregate,
    found: Found,
    asked: PartAsked,
) -> Result<Option<Vec<PartLeaf>>, Refusal>
    ensures { (c : Call) → (s : Shape) → shape_at held.now.signatures aggregate.signature ≡ Some s → named c (name_of aggregate.name) aggregate.signature ≡ FoundAt (found_of found) → nat_le asked.first (length s.signature.leaves) ≡ true →
        IsPartIf c (part_of_leaves c (record_shown aggregate s) asked.first asked.leaves asked.given) asked.first asked.leaves held.now.layout.end result }
{
    let subscripts = subscripts_of(alloc, held, aggregate, asked)?;
    match subscripts {
        Some(given) => part_leaves(
            alloc,
            held,
            aggregate,
            found,
            asked.first,
            asked.leaves,
            given.as_slice(),
        ),
        None => Ok(None),
    }
}

/// A part of a generation that was found.
fn part_found(
    alloc: Global,
    held: &Held,
    aggregate: Aggregate,
    found: Found,
    asked: PartAsked,
) -> Result<Option<Vec<PartLeaf>>, Refusal>
    ensures { (c : Call) → (s : Shape) → shape_at held.now.signatures aggregate.signature ≡ Some s → named c (name_of aggregate.name) aggregate.signature ≡ FoundAt (found_of found) →
        IsPartIf c (part_of_leaves c (record_shown aggregate s) asked.first asked.leaves asked.given) asked.first asked.leaves held.now.layout.end result }
{
    if has_leaves(held, aggregate, asked.first) {
        part_behind(alloc, held, aggregate, found, asked)
    } else {
        Ok(None)
    }
}

/// A part of the generation of an aggregate, if there is one.
fn part_if(
    alloc: Global,
    held: &Held,
    aggregate: Aggregate,
    found: Option<Found>,
    asked: PartAsked,
) -> Result<Option<Vec<PartLeaf>>, Refusal>
    ensures { (c : Call) → (s : Shape) → c.services.signatures ≡ held.now.signatures → shape_at held.now.signatures aggregate.signature ≡ Some s → option_map found_of found ≡ generation_named c (name_of aggregate.name) aggregate.signature →
        IsPartIf c (part_of_leaves c (record_shown aggregate s) asked.first asked.leaves asked.given) asked.first asked.leaves held.now.layout.end result }
{
    match found {
        Some(found) => part_found(alloc, held, aggregate, found, asked),
        None => Ok(None),
    }
}

/// A part of an aggregate whose signature is whole.
fn part_whole<K: AreaKeeper>(
    alloc: Global,
    held: &Held,
    memory: &[u8],
    aggregate: Aggregate,
    asked: PartAsked,
) -> Result<Option<Vec<PartLeaf>>, Refusal>
    requires { IsLaid K.keeper held.now.layout memory.now }
    ensures { (c : Call) → (s : Shape) → shape_at held.now.signatures aggregate.signature ≡ Some s →
        IsPartIf (with_held K.keeper held.now memory.now c) (part_of_leaves (with_held K.keeper held.now memory.now c) (record_shown aggregate s) asked.first asked.leaves asked.given) asked.first asked.leaves held.now.layout.end result }
{
    match generation_of::<K>(held, memory, aggregate) {
        Ok(found) => part_if(alloc, held, aggregate, found, asked),
        Err(_) => Err(Refusal::Memory),
    }
}

/// A part of an aggregate.
fn part_of<K: AreaKeeper>(
    alloc: Global,
    held: &Held,
    memory: &[u8],
    aggregate: Aggregate,
    asked: PartAsked,
) -> Result<Option<Vec<PartLeaf>>, Refusal>
    requires { IsLaid K.keeper held.now.layout memory.now }
    ensures { (c : Call) → IsPartIf (with_held K.keeper held.now memory.now c) (part_in (with_held K.keeper held.now memory.now c) (aggregate_shown held.now.signatures aggregate) asked) asked.first asked.leaves held.now.layout.end result }
{
    if held.signatures.is_whole(aggregate.signature) {
        part_whole::<K>(alloc, held, memory, aggregate, asked)
    } else {
        Ok(None)
    }
}

/// The leaves of a part with their elements, each in memory. None where there is no such aggregate, or no generation that has all of the
/// part in full. `Memory` also where an element isn't in memory.
pub fn find_part<K: AreaKeeper>(
    alloc: Global,
    held: &Held,
    memory: &[u8],
    asked: PartAsked,
) -> Result<Option<Vec<PartLeaf>>, Refusal>
    requires { IsLaid K.keeper held.now.layout memory.now }
    ensures { (c : Call) → IsPartIf (with_held K.keeper held.now memory.now c) (part_asked (with_held K.keeper held.now memory.now c) asked) asked.first asked.leaves held.now.layout.end result }
{
    match aggregate_at::<K>(held, memory, asked.at) {
        Some(aggregate) => part_of::<K>(alloc, held, memory, aggregate, asked),
        None => Ok(None),
    }
}
