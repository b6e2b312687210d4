// Bounds and values of a part are taken onto the stack: service 40 with mode 0.

ghost use Rattle.std.specs.Prelude.{◌≡◌, ℕ, List, MatchOption, MatchResult, length, map, option_map, ⊤};
ghost use Rattle.area_keeper.specs.Keeper.{Keeper};
ghost use Rattle.pli_answering.specs.Answering.{Answers};
ghost use Rattle.pli_entries.specs.Kept.{leaf_of};
ghost use Rattle.pli_serving.specs.AggregateServices as services;
ghost use Rattle.pli_serving.specs.Finding.{Call};
ghost use Rattle.pli_serving.specs.Outcomes.{or_bad};
ghost use Rattle.pli_signatures.specs.View.{kind_of};
ghost use Rattle.pli_storage.specs.Held.{IsLaid};
ghost use Rattle.pli_storage.specs.declared.held.Held.{Held as HeldShown};
ghost use Rattle.pli_aggregates.specs.Scalars.{with_all};
ghost use Rattle.pli_parts.specs.Leaves.{AreReadable, IsReadable};
ghost use Rattle.pli_parts.specs.Served.{leaves_taken, taken_pushed};
ghost use Rattle.pli_parts.specs.Taking.{have_values, leaf_taken};
ghost use Rattle.pli_parts.specs.Taking as S;

use crate::gathering::gather;
use crate::leaf::PartLeaf;
use crate::part::{PartAsked, find_part};
use area_heap::keeper::AreaKeeper;
use pli_answering::reply::{Refusal, Reply};
use pli_entries::entries::Entries;
use pli_entries::taken::TakenLeaf;
use pli_signatures::element::ElementKind;
use pli_storage::held::Held;
use smallvec::SmallVec;
use std::alloc::Global;

/// Whether elements of a kind have values.
fn has_value(kind: ElementKind) -> bool
    ensures { result ≡ S.has_value (kind_of kind) }
{
    match kind {
        ElementKind::Area { .. } => false,
        _ => true,
    }
}

/// Whether all leaves have values.
fn have_values(leaves: &[PartLeaf]) -> bool
    ensures { result ≡ have_values leaves.now }
{
    for leaf in leaves {
        if !has_value(leaf.kind) {
            return false;
        }
    }
    true
}

/// The values of a leaf as they stand in memory.
fn take_leaf(alloc: Global, memory: &[u8], leaf: &PartLeaf) -> Result<TakenLeaf, Refusal>
    requires { IsReadable (length memory.now) leaf.now }
    ensures { MatchResult result (λ taken. leaf_of taken ≡ leaf_taken memory.now leaf.now) (λ e. e ≡ Refusal.Memory) }
{
    let bytes = gather(alloc, memory, leaf.run, leaf.kind)?;
    let bounds = SmallVec::from_slice(alloc, leaf.bounds.as_slice())?;
    Ok(TakenLeaf {
        kind: leaf.kind,
        bounds,
        bytes,
    })
}

/// The values of leaves as they stand in memory.
fn take_leaves(alloc: Global, memory: &[u8], leaves: &[PartLeaf]) -> Result<Vec<TakenLeaf>, Refusal>
    requires { AreReadable (length memory.now) leaves.now }
    ensures { MatchResult result (λ taken. map leaf_of taken.items ≡ map (leaf_taken memory.now) leaves.now) (λ e. e ≡ Refusal.Memory) }
{
    let mut taken = Vec::new(alloc);
    for leaf in leaves {
        taken.push(take_leaf(alloc, memory, leaf)?)?;
    }
    Ok(taken)
}

/// Leaves that were taken come onto the stack as one entry.
fn push(entries: &mut Entries, taken: Vec<TakenLeaf>, at: u32) -> Result<Reply, Refusal>
    ensures { (k : Keeper) (h : HeldShown) (m : List ℕ) (c : Call) → Answers (taken_pushed at (map leaf_of taken.items)) (with_all k h m entries.old c) result (with_all k h m entries.new c) }
{
    match entries.push_aggregate(taken) {
        Ok(()) => Ok(Reply::Done(at, 0)),
        Err(_) => Err(Refusal::Memory),
    }
}

/// The leaves of a part are taken onto the stack as one entry, where all have values.
fn take_part(
    alloc: Global,
    entries: &mut Entries,
    memory: &[u8],
    leaves: &[PartLeaf],
    at: u32,
) -> Result<Reply, Refusal>
    requires { AreReadable (length memory.now) leaves.now }
    ensures { (k : Keeper) (h : HeldShown) (c : Call) → Answers (leaves_taken at leaves.now) (with_all k h memory.now entries.old c) result (with_all k h memory.now entries.new c) }
{
    if !have_values(leaves) {
        return Err(Refusal::Bad);
    }
    match take_leaves(alloc, memory, leaves) {
        Ok(taken) => push(entries, taken, at),
        Err(_) => Err(Refusal::Memory),
    }
}

/// The same where the part may not be there.
fn take_found(
    alloc: Global,
    entries: &mut Entries,
    memory: &[u8],
    found: Option<Vec<PartLeaf>>,
    at: u32,
) -> Result<Reply, Refusal>
    requires { MatchOption found ⊤ (λ leaves. AreReadable (length memory.now) leaves.items) }
    ensures { (k : Keeper) (h : HeldShown) (c : Call) → Answers (λ c. or_bad (option_map (λ leaves. leaves.items) found) (λ leaves. leaves_taken at leaves c)) (with_all k h memory.now entries.old c) result (with_all k h memory.now entries.new c) }
{
    match found {
        Some(leaves) => take_part(alloc, entries, memory, &leaves, at),
        None => Err(Refusal::Bad),
    }
}

/// 40 with mode 0: bounds and values of a part are taken onto the stack as one entry.
pub fn take_aggregate<K: AreaKeeper>(
    alloc: Global,
    held: &Held,
    entries: &mut Entries,
    memory: &[u8],
    asked: PartAsked,
) -> Result<Reply, Refusal>
    requires { IsLaid K.keeper held.now.layout memory.now }
    ensures { (c : Call) → Answers (λ c. services.aggregate_served c asked.at asked.first asked.leaves asked.given 0) (with_all K.keeper held.now memory.now entries.old c) result (with_all K.keeper held.now memory.now entries.new c) }
{
    match find_part::<K>(alloc, held, memory, asked) {
        Ok(found) => take_found(alloc, entries, memory, found, asked.at),
        Err(_) => Err(Refusal::Memory),
    }
}
