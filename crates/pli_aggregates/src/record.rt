// Aggregates as services are given them, and the generations that they name.

ghost use Rattle.std.specs.Prelude.{◌≡◌, ℕ, List, ◌+◌, ◌≤◌, Some, length, is_some, option_map, slice_get, if◌then◌else◌, MatchResult};
ghost use Rattle.area_keeper.specs.Keeper.{Keeper};
ghost use Rattle.rv_meaning.specs.Words.{signed};
ghost use Rattle.pli_meaning.specs.Contents.{Shape};
ghost use Rattle.pli_serving.specs.Aggregates as aggregates;
ghost use Rattle.pli_serving.specs.Bytes as bytes;
ghost use Rattle.pli_serving.specs.Finding.{Call, named};
ghost use Rattle.pli_serving.specs.Outcomes.{then_found};
ghost use Rattle.pli_storage.specs.Findings.{found_of};
ghost use Rattle.pli_storage.specs.Held.{with_held, IsLaid};
ghost use Rattle.pli_values.specs.View.{name_of};
ghost use Rattle.pli_aggregates.specs.Records.{aggregate_shown, generation_named, names_meant, record_shown};

use area_heap::keeper::AreaKeeper;
use pli_answering::reply::Refusal;
use pli_storage::finding::{Finding, Found};
use pli_storage::held::Held;
use pli_values::name::Name;
use pli_values::word::word_at;

/// The number that means the signature that a variable's generation has.
const OWN_SIGNATURE: u32 = u32::MAX;

/// The bytes of a record.
const RECORD_BYTES: usize = 16;

/// An aggregate: a name, the number of its signature, the place of the subscripts given among all, row by row, and the REFER extent
/// in force.
#[derive(Clone, Copy, PartialEq, Eq, Debug)]
pub struct Aggregate {
    pub name: Name,
    pub signature: u32,
    pub place: u32,
    pub extent: i32,
}

/// The signature that a number means: the one that its generation has for a variable alone.
fn signature_meant(held: &Held, name: Name, number: u32) -> Option<u32>
    ensures { (k : Keeper) → (m : List ℕ) → (c : Call) → aggregates.signature_meant (with_held k held.now m c).services (name_of name) number ≡ result }
{
    if number != OWN_SIGNATURE {
        return Some(number);
    }
    match name {
        Name::Variable { serial } => match held.variables.root(serial) {
            Some(root) => Some(root.signature),
            None => None,
        },
        Name::Null => Some(number),
        Name::Based { .. } => Some(number),
    }
}

/// The REFER extent that stands at an address.
fn extent_at(memory: &[u8], at: usize) -> i32
    requires { at + 4 ≤ length memory.now }
    ensures { result ≡ signed (bytes.word_at at memory.now) }
{
    word_at(memory, at).cast_signed()
}

fn aggregate_with(name: Name, signature: u32, place: u32, extent: i32) -> Aggregate
    ensures shown { (s : Shape) → record_shown result s ≡ record { name = name_of name; signature = signature; shape = s; subscripts_place = place; extent = extent } }
    ensures signature { result.signature ≡ signature }
{
    Aggregate {
        name,
        signature,
        place,
        extent,
    }
}

/// The record at an address, which is data, with its name and its signature.
fn record_with(memory: &[u8], at: usize, name: Name, signature: u32) -> Aggregate
    requires { at + 16 ≤ length memory.now }
    ensures shown { (c : Call) → (s : Shape) → c.memory ≡ memory.now → record_shown result s ≡ aggregates.aggregate_of c at (name_of name) signature s }
    ensures signature { result.signature ≡ signature }
{
    let place = word_at(memory, at + 8);
    let extent = extent_at(memory, at + 12);
    aggregate_with(name, signature, place, extent)
}

/// The record at an address, which is data, of a name.
fn record_of(held: &Held, memory: &[u8], at: usize, name: Name) -> Option<Aggregate>
    requires { at + 16 ≤ length memory.now }
    ensures { (k : Keeper) → (c : Call) → names_meant (with_held k held.now memory.now c) at (name_of name) ≡ then_found result (aggregate_shown held.now.signatures) }
{
    match signature_meant(held, name, word_at(memory, at + 4)) {
        Some(signature) => Some(record_with(memory, at, name, signature)),
        None => None,
    }
}

/// The aggregate of the record at an address, none outside data or without a name.
pub fn aggregate_at<K: AreaKeeper>(held: &Held, memory: &[u8], at: u32) -> Option<Aggregate>
    requires { IsLaid K.keeper held.now.layout memory.now }
    ensures { (c : Call) → aggregates.aggregate_at (with_held K.keeper held.now memory.now c) at ≡ then_found result (aggregate_shown held.now.signatures) }
{
    if !held.layout.is_data(at as usize, RECORD_BYTES) {
        return None;
    }
    match held.name_at::<K>(memory, word_at(memory, at as usize)) {
        Some(name) => record_of(held, memory, at as usize, name),
        None => None,
    }
}

/// The generation that an aggregate's name names, where that has its signature. All signatures but the last number are known by
/// theirs; for that one there is no memory.
pub fn generation_of<K: AreaKeeper>(
    held: &Held,
    memory: &[u8],
    aggregate: Aggregate,
) -> Result<Option<Found>, Refusal>
    requires { IsLaid K.keeper held.now.layout memory.now }
    ensures { (c : Call) → MatchResult result (λ o. option_map found_of o ≡ generation_named (with_held K.keeper held.now memory.now c) (name_of aggregate.name) aggregate.signature) (λ e. e ≡ Refusal.Memory) }
{
    if aggregate.signature == OWN_SIGNATURE {
        return Err(Refusal::Memory);
    }
    match held.asked::<K>(memory, aggregate.name, aggregate.signature) {
        Some(Finding::At(found)) => Ok(Some(found)),
        Some(Finding::NotLiving) => Ok(None),
        Some(Finding::NoArea) => Ok(None),
        None => Ok(None),
    }
}
