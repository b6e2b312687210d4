// Where an element of a generation stands.

ghost use Rattle.std.specs.Prelude.{◌≡◌, ◌+◌, ◌*◌, ℕ, Some, MatchOption, ⊤};
ghost use Rattle.pli_typing.specs.Signatures.{capped};
ghost use Rattle.pli_meaning.specs.Contents.{Shape, leaves_with};
ghost use Rattle.pli_meaning.specs.Evaluating as evaluating;
ghost use Rattle.pli_meaning.specs.Streaming as streaming;
ghost use Rattle.pli_serving.specs.Finding.{Call, named};
ghost use Rattle.pli_serving.specs.Templates.{shape_at};
ghost use Rattle.pli_serving.specs.Values.{element_size, leaf_place};
ghost use Rattle.pli_signatures.specs.View.{kind_of, leaf_in_force};
ghost use Rattle.pli_signatures.specs.Whole.{leaf_in};
ghost use Rattle.pli_storage.specs.Findings.{finding_of, found_of};
ghost use Rattle.pli_storage.specs.Held.{with_held, IsLaid};
ghost use Rattle.pli_values.specs.View.{name_of};
ghost use Rattle.pli_aggregates.specs.Records.{record_shown};
ghost use Rattle.pli_serving.specs.Finding as F;
ghost use Rattle.pli_elements.specs.Outcomes.{IsOutcome, IsStanding, IsWith};

use crate::leaves::leaf_with;
use area_heap::keeper::AreaKeeper;
use pli_aggregates::record::Aggregate;
use pli_answering::reply::Refusal;
use pli_signatures::element::{ElementKind, LeafInForce, element_place};
use pli_storage::finding::{Finding, Found};
use pli_storage::held::Held;
use std::alloc::Global;

/// The number that means the signature that a variable's generation has.
const OWN_SIGNATURE: u32 = u32::MAX;

/// The status where the generation doesn't live.
const NO_GENERATION: u32 = 101;

/// The status where it doesn't have the element in full.
const NO_EXTENT: u32 = 107;

/// What comes of an element: where it stands and 0, or what the register had and a status.
#[derive(Clone, Copy, PartialEq, Eq, Debug)]
pub struct Outcome {
    pub register: u32,
    pub status: u32,
}

/// Whether an element of a kind that was allocated holds the values of the kind in force.
fn kind_holds(allocated: ElementKind, in_force: ElementKind) -> bool
    ensures { result ≡ streaming.kind_holds (kind_of allocated) (kind_of in_force) }
{
    match allocated {
        ElementKind::Character { length: most } => match in_force {
            ElementKind::Character { length } => length <= most,
            _ => true,
        },
        _ => true,
    }
}

/// Where a leaf begins that stands so far behind an address, none where no register holds that.
fn base_of(at: usize, behind: u64) -> Option<u64>
    ensures { (real : ℕ) → behind ≡ capped real → MatchOption result ⊤ (λ base. base ≡ at + real) }
{
    let base = (at as u64).checked_add(behind)?;
    if base > u64::from(u32::MAX) {
        return None;
    }
    Some(base)
}

/// Where the element of a place stands among those of a kind from a base on, none where no register holds that.
fn address(base: u64, kind: ElementKind, place: u64) -> Option<u32>
    ensures { (p : ℕ) → place ≡ capped p → MatchOption result ⊤ (λ a. a ≡ base + element_size (kind_of kind) * p) }
{
    let behind = kind.size().checked_mul(place)?;
    let address = base.checked_add(behind)?;
    if address > u64::from(u32::MAX) {
        return None;
    }
    Some(address as u32)
}

/// Where the element of these subscripts stands, of a leaf that was allocated from a base on. None where that doesn't have it in full
/// for the kind in force.
fn standing(
    base: u64,
    allocated: &LeafInForce,
    kind: ElementKind,
    subscripts: &[i32],
) -> Result<Option<u32>, Refusal>
    ensures { IsStanding base allocated.now (kind_of kind) subscripts.now result }
{
    if !kind_holds(allocated.kind, kind) {
        return Ok(None);
    }
    match element_place(allocated.bounds.as_slice(), subscripts) {
        Some(place) => match address(base, allocated.kind, place) {
            Some(address) => Ok(Some(address)),
            None => Err(Refusal::Memory),
        },
        None => Ok(None),
    }
}

/// What comes of an element that may stand at an address.
fn outcome_with(address: Option<u32>, register: u32) -> Outcome
    ensures { IsWith register address result }
{
    match address {
        Some(address) => Outcome {
            register: address,
            status: 0,
        },
        None => Outcome {
            register,
            status: NO_EXTENT,
        },
    }
}

/// Where a leaf of a generation begins, none where no register holds that.
fn leaf_base(held: &Held, aggregate: Aggregate, found: Found, leaf: u32) -> Option<u64>
    ensures { (s : Shape) → shape_at held.now.signatures aggregate.signature ≡ Some s → MatchOption result ⊤ (λ base. base ≡ found.at + leaf_place (leaves_with found.extent s) leaf) }
{
    match held.signatures.leaf_place(aggregate.signature, leaf) {
        Some(behind) => base_of(found.at, behind),
        None => None,
    }
}

/// What comes of an element of a generation's leaf, which is given as it was allocated, with the kind in force.
fn outcome_placed(
    held: &Held,
    aggregate: Aggregate,
    found: Found,
    leaf: u32,
    allocated: &LeafInForce,
    kind: ElementKind,
    register: u32,
    subscripts: &[i32],
) -> Result<Outcome, Refusal>
    requires { Some (leaf_in_force allocated.now) ≡ leaf_in (shape_at held.now.signatures aggregate.signature) leaf found.extent }
    ensures { (c : Call) → (s : Shape) → shape_at held.now.signatures aggregate.signature ≡ Some s → (evaluating.leaf_at s aggregate.extent leaf).kind ≡ kind_of kind →
        IsOutcome c register (record_shown aggregate s) leaf subscripts.now (F.FoundAt (found_of found)) result }
{
    let Some(base) = leaf_base(held, aggregate, found, leaf) else {
        return Err(Refusal::Memory);
    };
    match standing(base, allocated, kind, subscripts) {
        Ok(address) => Ok(outcome_with(address, register)),
        Err(_) => Err(Refusal::Memory),
    }
}

/// The same where the leaf was allocated with another extent than that in force.
fn outcome_other(
    alloc: Global,
    held: &Held,
    aggregate: Aggregate,
    found: Found,
    leaf: u32,
    kind: ElementKind,
    register: u32,
    subscripts: &[i32],
) -> Result<Outcome, Refusal>
    ensures { (c : Call) → (s : Shape) → shape_at held.now.signatures aggregate.signature ≡ Some s → (evaluating.leaf_at s aggregate.extent leaf).kind ≡ kind_of kind →
        IsOutcome c register (record_shown aggregate s) leaf subscripts.now (F.FoundAt (found_of found)) result }
{
    let allocated = leaf_with(alloc, held, aggregate.signature, leaf, found.extent)?;
    match allocated {
        Some(allocated) => outcome_placed(
            held, aggregate, found, leaf, &allocated, kind, register, subscripts,
        ),
        None => Err(Refusal::Memory),
    }
}

/// What comes of an element of a generation that was found. Its leaf is given as it is in force.
fn outcome_found(
    alloc: Global,
    held: &Held,
    aggregate: Aggregate,
    found: Found,
    register: u32,
    leaf: u32,
    in_force: &LeafInForce,
    subscripts: &[i32],
) -> Result<Outcome, Refusal>
    requires { Some (leaf_in_force in_force.now) ≡ leaf_in (shape_at held.now.signatures aggregate.signature) leaf aggregate.extent }
    ensures { (c : Call) → (s : Shape) → shape_at held.now.signatures aggregate.signature ≡ Some s → IsOutcome c register (record_shown aggregate s) leaf subscripts.now (F.FoundAt (found_of found)) result }
{
    let kind = in_force.kind;
    if found.extent == aggregate.extent {
        return outcome_placed(
            held, aggregate, found, leaf, in_force, kind, register, subscripts,
        );
    }
    outcome_other(
        alloc, held, aggregate, found, leaf, kind, register, subscripts,
    )
}

/// What comes of an element of what was found.
fn outcome_of(
    alloc: Global,
    held: &Held,
    aggregate: Aggregate,
    finding: Finding,
    register: u32,
    leaf: u32,
    in_force: &LeafInForce,
    subscripts: &[i32],
) -> Result<Outcome, Refusal>
    requires { Some (leaf_in_force in_force.now) ≡ leaf_in (shape_at held.now.signatures aggregate.signature) leaf aggregate.extent }
    ensures { (c : Call) → (s : Shape) → shape_at held.now.signatures aggregate.signature ≡ Some s → IsOutcome c register (record_shown aggregate s) leaf subscripts.now (finding_of finding) result }
{
    match finding {
        Finding::At(found) => outcome_found(
            alloc, held, aggregate, found, register, leaf, in_force, subscripts,
        ),
        Finding::NotLiving => Ok(Outcome {
            register,
            status: NO_GENERATION,
        }),
        Finding::NoArea => Err(Refusal::Bad),
    }
}

/// What comes of an element of an aggregate's generation. All signatures but the last number are known by theirs; for that one there
/// is no memory.
pub fn outcome_in<K: AreaKeeper>(
    alloc: Global,
    held: &Held,
    memory: &[u8],
    aggregate: Aggregate,
    register: u32,
    leaf: u32,
    in_force: &LeafInForce,
    subscripts: &[i32],
) -> Result<Outcome, Refusal>
    requires laid { IsLaid K.keeper held.now.layout memory.now }
    requires known { Some (leaf_in_force in_force.now) ≡ leaf_in (shape_at held.now.signatures aggregate.signature) leaf aggregate.extent }
    ensures { (c : Call) → (s : Shape) → shape_at held.now.signatures aggregate.signature ≡ Some s →
        IsOutcome (with_held K.keeper held.now memory.now c) register (record_shown aggregate s) leaf subscripts.now (named (with_held K.keeper held.now memory.now c) (name_of aggregate.name) aggregate.signature) result }
{
    if aggregate.signature == OWN_SIGNATURE {
        return Err(Refusal::Memory);
    }
    match held.asked::<K>(memory, aggregate.name, aggregate.signature) {
        Some(finding) => outcome_of(
            alloc, held, aggregate, finding, register, leaf, in_force, subscripts,
        ),
        None => Err(Refusal::Memory),
    }
}
