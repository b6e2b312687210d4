// Whether a variable can be made, and with what.

ghost use Rattle.std.specs.Prelude.{◌≡◌, ◌≢◌, ◌+◌, ◌≤◌, ◌==◌, ℕ, List, Some, false, is_some, length, nat_lt, true, IfOk, if◌then◌else◌};
ghost use Rattle.controlled_gens.specs.Rooted.{livings};
ghost use Rattle.pli_meaning.specs.StorageState.{most_automatic};
ghost use Rattle.pli_serving.specs.Finding.{Call};
ghost use Rattle.pli_serving.specs.InitialValues.{initial_values};
ghost use Rattle.pli_serving.specs.Making.{automatic_in_use, limited};
ghost use Rattle.pli_serving.specs.ServiceState.{Living};
ghost use Rattle.pli_serving.specs.Templates.{shape_at};
ghost use Rattle.pli_signatures.specs.Whole.{shape_so_far};
ghost use Rattle.pli_storage.specs.Held.{with_held};
ghost use Rattle.pli_types.specs.Templates.{Template};
ghost use Rattle.pli_types.specs.View.{template_of};
ghost use Rattle.pli_typing.specs.Signatures.{capped};
ghost use Rattle.pli_values.specs.Beginnings.{lists_of, shape_of};
ghost use Rattle.pli_values.specs.Calls.{call_of};
ghost use Rattle.pli_making.specs.InUse.{newest_total, IsCounted};
ghost use Rattle.pli_making.specs.Making.{fresh_of, owner_made, values_made, IsFirst, IsStarted, Starts};

use crate::content::{Fresh, prepare};
use crate::in_use::InUse;
use crate::wanted::Making;
use area_heap::keeper::AreaKeeper;
use pli_allocation::whole::whole;
use pli_answering::reply::Refusal;
use pli_storage::held::Held;
use pli_types::signature::Signature;
use pli_types::size::footprint;
use pli_values::begun::Begun;
use pli_values::lists::initial_lists;
use pli_values::source::Source;
use std::alloc::Global;

/// AUTOMATIC variables count for so many bytes at most.
const MOST_AUTOMATIC: u64 = 1 << 20;

/// What becomes of a variable that is wanted: the run ends by the limit, or it is made of data, and counts for so many bytes.
#[derive(Drop)]
pub enum Started {
    Limited,
    Ready { fresh: Fresh, counts: u64 },
}

/// Whether a variable passes the limit, by its owner and the bytes that it counts for, `u64::MAX` where they are more.
#[tactic(auto, using(crate::proofs::Limits::limit_capped, crate::proofs::Counts::newest_is_all))]
fn passes_limit(in_use: &InUse, owner: u32, bytes: u64) -> bool
    ensures limit { (templates : List Template) → (ls : List Living) → (n : ℕ) → IsCounted templates ls in_use.now → bytes ≡ capped n →
        result ≡ (if owner == 0 then false else nat_lt most_automatic (automatic_in_use templates ls + n)) }
    ensures few { result ≡ false → owner ≢ 0 → newest_total in_use.now + bytes ≤ most_automatic }
{
    if owner == 0 {
        return false;
    }
    in_use.all().saturating_add(bytes) > MOST_AUTOMATIC
}

/// Starts a variable, by what its generation begins with.
fn start_begun<K: AreaKeeper>(
    held: &Held,
    in_use: &InUse,
    alloc: Global,
    wanted: Making,
    owner: u32,
    begun: &Begun,
) -> Result<Started, Refusal>
    requires counted { IsCounted held.now.signatures (livings held.now.variables.roots) in_use.now }
    requires whole { shape_at held.now.signatures wanted.signature ≡ Some (shape_of begun.now) }
    requires right { is_some (lists_of begun.now) ≡ true }
    requires first { IsFirst begun.now }
    ensures answer { (m : List ℕ) → (c : Call) →
        Starts (limited (with_held K.keeper held.now m c) wanted.name wanted.signature wanted.place owner (fresh_of begun.now)) (with_held K.keeper held.now m c) wanted owner result }
    ensures started { IfOk result (IsStarted K.keeper held.now in_use.now wanted owner) }
{
    let counts = footprint(begun.data_size());
    if passes_limit(in_use, owner, counts) {
        return Ok(Started::Limited);
    }
    match prepare::<K>(held, alloc, wanted, begun) {
        Ok(fresh) => Ok(Started::Ready { fresh, counts }),
        Err(refusal) => Err(refusal),
    }
}

/// Starts a variable of a signature of which no extent is open.
fn start_whole<K: AreaKeeper>(
    held: &Held,
    in_use: &InUse,
    alloc: Global,
    source: &Source,
    wanted: Making,
    owner: u32,
    signature: &Signature,
) -> Result<Started, Refusal>
    requires counted { IsCounted held.now.signatures (livings held.now.variables.roots) in_use.now }
    requires whole { shape_at held.now.signatures wanted.signature ≡ Some (shape_so_far (template_of signature.now)) }
    ensures answer { (m : List ℕ) → (c : Call) →
        Starts (values_made (with_held K.keeper held.now m c) wanted owner (shape_so_far (template_of signature.now)) (initial_values (call_of source.now) (shape_so_far (template_of signature.now)).signature.leaves wanted.initial)) (with_held K.keeper held.now m c) wanted owner result }
    ensures started { IfOk result (IsStarted K.keeper held.now in_use.now wanted owner) }
{
    let read = initial_lists(alloc, source, &signature.leaves, wanted.initial as usize)?;
    match read {
        Some(lists) => {
            let begun = Begun {
                signature,
                extent: 0,
                member: None,
                source: *source,
                lists: &lists,
            };
            start_begun::<K>(held, in_use, alloc, wanted, owner, &begun)
        }
        None => Err(Refusal::Bad),
    }
}

/// Starts a variable: finds what it begins with, looks at the limit for those that end with an activation, and then at its places.
pub fn start<K: AreaKeeper>(
    held: &Held,
    in_use: &InUse,
    alloc: Global,
    memory: &[u8],
    wanted: Making,
    owner: u32,
) -> Result<Started, Refusal>
    requires laid { held.now.layout.end ≤ length memory.now }
    requires counted { IsCounted held.now.signatures (livings held.now.variables.roots) in_use.now }
    ensures answer { (c : Call) →
        Starts (owner_made (with_held K.keeper held.now memory.now c) wanted owner) (with_held K.keeper held.now memory.now c) wanted owner result }
    ensures started { IfOk result (IsStarted K.keeper held.now in_use.now wanted owner) }
{
    match whole(&held.signatures, wanted.signature) {
        Some(signature) => {
            let source = Source::new(held.layout, memory);
            start_whole::<K>(held, in_use, alloc, &source, wanted, owner, signature)
        }
        None => Err(Refusal::Bad),
    }
}
