// A scalar that is stored into each element of an array: service 41.

ghost use Rattle.std.specs.Prelude.{◌≡◌, ℕ, List, Ok, Some, length, option_map, MatchOption, ⊤};
ghost use Rattle.pli_typing.specs.Signatures.{leaf_bytes};
ghost use Rattle.pli_answering.specs.Answering.{Answers};
ghost use Rattle.pli_serving.specs.AggregateServices as services;
ghost use Rattle.pli_serving.specs.Aggregates as A;
ghost use Rattle.pli_serving.specs.Finding.{Call, FoundAt, named};
ghost use Rattle.pli_serving.specs.Finding as F;
ghost use Rattle.pli_serving.specs.Outcomes.{or_bad};
ghost use Rattle.pli_serving.specs.ServiceState.{Entry};
ghost use Rattle.pli_serving.specs.Templates.{shape_at};
ghost use Rattle.pli_signatures.specs.View.{kind_of};
ghost use Rattle.pli_storage.specs.Findings.{found_of};
ghost use Rattle.pli_storage.specs.Held.{IsLaid};
ghost use Rattle.pli_values.specs.View.{name_of};
ghost use Rattle.pli_aggregates.specs.Parts.{IsPlaced, IsReady};
ghost use Rattle.pli_aggregates.specs.Records.{aggregate_shown, generation_named};
ghost use Rattle.pli_aggregates.specs.Runs.{standing};
ghost use Rattle.pli_aggregates.specs.Scalars.{name_into, scalar_into, scalar_of, text_into, with_all};
ghost use Rattle.pli_aggregates.specs.Standing.{CountsAs, IsWritable};

use crate::part::{PlacedLeaf, placed_leaf};
use crate::record::{Aggregate, aggregate_at, generation_of};
use crate::runs::Run;
use crate::storing::store_all;
use area_heap::keeper::AreaKeeper;
use pli_answering::reply::{Refusal, Reply};
use pli_entries::entries::Entries;
use pli_signatures::element::ElementKind;
use pli_storage::finding::Found;
use pli_storage::held::Held;
use pli_values::element::Value;
use pli_values::name::offset_of;
use std::alloc::Global;

/// Stores the newest text in elements, and drops it.
fn set_text<K: AreaKeeper>(
    held: &Held,
    entries: &mut Entries,
    memory: &mut [u8],
    run: Run,
    kind: ElementKind,
    first: u32,
    second: u32,
) -> Result<Reply, Refusal>
    requires { IsWritable (kind_of kind) (length memory.old) run }
    ensures { (n : ℕ) → CountsAs (kind_of kind) run n → (c : Call) → Answers (λ c. text_into c first second (standing run.at run.step n) (kind_of kind)) (with_all K.keeper held.now memory.old entries.old c) result (with_all K.keeper held.now memory.new entries.new c) }
{
    let Some(text) = entries.newest_text() else {
        return Err(Refusal::Bad);
    };
    store_all(memory, run, kind, Value::Text(text));
    entries.drop_text();
    Ok(Reply::Done(first, second))
}

/// Stores the name at an address in elements.
fn set_name<K: AreaKeeper>(
    held: &Held,
    memory: &mut [u8],
    run: Run,
    kind: ElementKind,
    value: u32,
    first: u32,
    second: u32,
) -> Result<Reply, Refusal>
    requires laid { IsLaid K.keeper held.now.layout memory.old }
    requires within { IsWritable (kind_of kind) (length memory.old) run }
    ensures { (n : ℕ) → CountsAs (kind_of kind) run n → (c : Call) → (entries : List Entry) → Answers (λ c. name_into c first second value (standing run.at run.step n) (kind_of kind)) (with_all K.keeper held.now memory.old entries c) result (with_all K.keeper held.now memory.new entries c) }
{
    match held.name_at::<K>(memory, value) {
        Some(name) => {
            store_all(memory, run, kind, Value::Pointer(name));
            Ok(Reply::Done(first, second))
        }
        None => Err(Refusal::Bad),
    }
}

/// Stores a scalar in elements of a kind: a number, bit or OFFSET value itself, a name by where it stands, and the newest text.
fn set<K: AreaKeeper>(
    held: &Held,
    entries: &mut Entries,
    memory: &mut [u8],
    run: Run,
    kind: ElementKind,
    value: u32,
    first: u32,
    second: u32,
) -> Result<Reply, Refusal>
    requires laid { IsLaid K.keeper held.now.layout memory.old }
    requires within { IsWritable (kind_of kind) (length memory.old) run }
    ensures { (n : ℕ) → CountsAs (kind_of kind) run n → (c : Call) → Answers (λ c. scalar_into c first second value (standing run.at run.step n) (kind_of kind)) (with_all K.keeper held.now memory.old entries.old c) result (with_all K.keeper held.now memory.new entries.new c) }
{
    match kind {
        ElementKind::Fixed { .. } => {
            store_all(memory, run, kind, Value::Number(value.cast_signed()));
            Ok(Reply::Done(first, second))
        }
        ElementKind::Character { .. } => set_text::<K>(
            held, entries, memory, run, kind, first, second,
        ),
        ElementKind::Varying { .. } => set_text::<K>(
            held, entries, memory, run, kind, first, second,
        ),
        ElementKind::Bit => {
            store_all(memory, run, kind, Value::Bit(value == 1));
            Ok(Reply::Done(first, second))
        }
        ElementKind::Pointer => set_name::<K>(held, memory, run, kind, value, first, second),
        ElementKind::Offset => {
            store_all(memory, run, kind, Value::Offset(offset_of(value)));
            Ok(Reply::Done(first, second))
        }
        ElementKind::Area { .. } => Err(Refusal::Bad),
    }
}

/// Stores a scalar in elements that were found, if they were.
fn scalar_elements<K: AreaKeeper>(
    held: &Held,
    entries: &mut Entries,
    memory: &mut [u8],
    kind: ElementKind,
    found: Option<Run>,
    first: u32,
    leaf: u32,
    value: u32,
) -> Result<Reply, Refusal>
    requires laid { IsLaid K.keeper held.now.layout memory.old }
    requires within { MatchOption found ⊤ (λ run. IsWritable (kind_of kind) (length memory.old) run) }
    ensures { (n : ℕ) → MatchOption found ⊤ (λ run. CountsAs (kind_of kind) run n) → (c : Call) → Answers (λ c. or_bad (option_map (λ run. standing run.at run.step n) found) (λ addresses. scalar_into c first leaf value addresses (kind_of kind))) (with_all K.keeper held.now memory.old entries.old c) result (with_all K.keeper held.now memory.new entries.new c) }
{
    match found {
        Some(run) => set::<K>(held, entries, memory, run, kind, value, first, leaf),
        None => Err(Refusal::Bad),
    }
}

/// Stores a scalar in all elements of a leaf that was placed.
fn scalar_placed<K: AreaKeeper>(
    held: &Held,
    entries: &mut Entries,
    memory: &mut [u8],
    placed: &PlacedLeaf,
    first: u32,
    leaf: u32,
    value: u32,
) -> Result<Reply, Refusal>
    requires laid { IsLaid K.keeper held.now.layout memory.old }
    requires end { placed.now.place.end ≡ held.now.layout.end }
    requires bytes { placed.now.place.bytes ≡ leaf_bytes (kind_of placed.now.in_force.kind) }
    ensures { (c : Call) → (a : A.Aggregate) → (f : F.Found) → IsReady (with_all K.keeper held.now memory.old entries.old c) a f leaf placed.now →
        Answers (λ c. scalar_of c first leaf value a) (with_all K.keeper held.now memory.old entries.old c) result (with_all K.keeper held.now memory.new entries.new c) }
{
    match placed.run(&[]) {
        Ok(found) => {
            let kind = placed.in_force.kind;
            scalar_elements::<K>(held, entries, memory, kind, found, first, leaf, value)
        }
        Err(_) => Err(Refusal::Memory),
    }
}

/// Stores a scalar in all elements of a leaf of a generation, if there is such a leaf.
fn scalar_leaf<K: AreaKeeper>(
    held: &Held,
    entries: &mut Entries,
    memory: &mut [u8],
    aggregate: Aggregate,
    found: Found,
    placed: Option<PlacedLeaf>,
    first: u32,
    leaf: u32,
    value: u32,
) -> Result<Reply, Refusal>
    requires laid { IsLaid K.keeper held.now.layout memory.old }
    requires placed { IsPlaced (shape_at held.now.signatures aggregate.signature) aggregate.extent leaf (found_of found) held.now.layout.end (Ok placed) }
    ensures { (c : Call) → named (with_all K.keeper held.now memory.old entries.old c) (name_of aggregate.name) aggregate.signature ≡ FoundAt (found_of found) →
        Answers (λ c. or_bad (aggregate_shown held.now.signatures aggregate) (scalar_of c first leaf value)) (with_all K.keeper held.now memory.old entries.old c) result (with_all K.keeper held.now memory.new entries.new c) }
{
    match placed {
        Some(placed) => scalar_placed::<K>(held, entries, memory, &placed, first, leaf, value),
        None => Err(Refusal::Bad),
    }
}

/// Stores a scalar in all elements of a leaf of a generation, if one was found.
#[tactic(auto, using(crate::proofs::Parting::named_so, crate::proofs::Parting::without_generation))]
fn scalar_found<K: AreaKeeper>(
    alloc: Global,
    held: &Held,
    entries: &mut Entries,
    memory: &mut [u8],
    aggregate: Aggregate,
    found: Option<Found>,
    first: u32,
    leaf: u32,
    value: u32,
) -> Result<Reply, Refusal>
    requires { IsLaid K.keeper held.now.layout memory.old }
    ensures { (c : Call) → option_map found_of found ≡ generation_named (with_all K.keeper held.now memory.old entries.old c) (name_of aggregate.name) aggregate.signature →
        Answers (λ c. or_bad (aggregate_shown held.now.signatures aggregate) (scalar_of c first leaf value)) (with_all K.keeper held.now memory.old entries.old c) result (with_all K.keeper held.now memory.new entries.new c) }
{
    match found {
        Some(found) => match placed_leaf(alloc, held, aggregate, found, leaf) {
            Ok(placed) => scalar_leaf::<K>(
                held, entries, memory, aggregate, found, placed, first, leaf, value,
            ),
            Err(_) => Err(Refusal::Memory),
        },
        None => Err(Refusal::Bad),
    }
}

/// Stores a scalar in all elements of a leaf of an aggregate.
fn scalar_in<K: AreaKeeper>(
    alloc: Global,
    held: &Held,
    entries: &mut Entries,
    memory: &mut [u8],
    aggregate: Aggregate,
    first: u32,
    leaf: u32,
    value: u32,
) -> Result<Reply, Refusal>
    requires { IsLaid K.keeper held.now.layout memory.old }
    ensures { (c : Call) → Answers (λ c. or_bad (aggregate_shown held.now.signatures aggregate) (scalar_of c first leaf value)) (with_all K.keeper held.now memory.old entries.old c) result (with_all K.keeper held.now memory.new entries.new c) }
{
    match generation_of::<K>(held, memory, aggregate) {
        Ok(found) => scalar_found::<K>(
            alloc, held, entries, memory, aggregate, found, first, leaf, value,
        ),
        Err(_) => Err(Refusal::Memory),
    }
}

/// 41: a scalar is stored into each element of an array, a leaf of the aggregate whose record stands at an address.
pub fn scalar<K: AreaKeeper>(
    alloc: Global,
    held: &Held,
    entries: &mut Entries,
    memory: &mut [u8],
    at: u32,
    leaf: u32,
    value: u32,
) -> Result<Reply, Refusal>
    requires { IsLaid K.keeper held.now.layout memory.old }
    ensures { (c : Call) → Answers (λ c. services.scalar_served c at leaf value) (with_all K.keeper held.now memory.old entries.old c) result (with_all K.keeper held.now memory.new entries.new c) }
{
    match aggregate_at::<K>(held, memory, at) {
        Some(aggregate) => scalar_in::<K>(alloc, held, entries, memory, aggregate, at, leaf, value),
        None => Err(Refusal::Bad),
    }
}
