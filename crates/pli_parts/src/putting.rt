// The entry of an aggregate that was taken is stored in a part: service 40 with mode 1.

ghost use Rattle.std.specs.Prelude.{◌≡◌, ◌∷◌, List, MatchOption, length, option_map, ⊤};
ghost use Rattle.area_keeper.specs.Keeper.{Keeper};
ghost use Rattle.pli_answering.specs.Answering.{Answers};
ghost use Rattle.pli_serving.specs.AggregateServices as services;
ghost use Rattle.pli_serving.specs.Finding.{Call};
ghost use Rattle.pli_serving.specs.Outcomes.{or_bad};
ghost use Rattle.pli_serving.specs.ServiceState.{Entry};
ghost use Rattle.pli_storage.specs.Held.{IsLaid};
ghost use Rattle.pli_storage.specs.declared.held.Held.{Held as HeldShown};
ghost use Rattle.pli_aggregates.specs.Scalars.{with_all};
ghost use Rattle.pli_parts.specs.Leaves.{AreReadable};
ghost use Rattle.pli_parts.specs.Served.{entries_left, entry_of, taken_put};

use crate::leaf::PartLeaf;
use crate::matching::{all_same_bounds, go_into};
use crate::part::{PartAsked, find_part};
use crate::storing::{are_whole, put_leaves};
use area_heap::keeper::AreaKeeper;
use pli_answering::reply::{Refusal, Reply};
use pli_entries::taken::TakenLeaf;
use pli_storage::held::Held;
use std::alloc::Global;

/// The code of an error: the bounds differ.
const SHAPE: u32 = 109;

/// Stores leaves that were taken in those of a part, where bounds and kinds match.
fn put_part(
    memory: &mut [u8],
    leaves: &[PartLeaf],
    taken: &[TakenLeaf],
    at: u32,
) -> Result<Reply, Refusal>
    requires { AreReadable (length memory.old) leaves.now }
    ensures { (k : Keeper) (h : HeldShown) (c : Call) (below : List Entry) → Answers (taken_put at leaves.now taken.now below) (with_all k h memory.old (entry_of taken.now ∷ below) c) result (with_all k h memory.new (entries_left result (entry_of taken.now ∷ below)) c) }
{
    if !all_same_bounds(leaves, taken) {
        return Ok(Reply::Done(at, SHAPE));
    }
    if !go_into(leaves, taken) {
        return Err(Refusal::Bad);
    }
    if !are_whole(leaves, taken) {
        return Err(Refusal::Memory);
    }
    put_leaves(memory, leaves, taken);
    Ok(Reply::Done(at, 0))
}

/// The same where the part may not be there.
fn put_found(
    memory: &mut [u8],
    found: Option<Vec<PartLeaf>>,
    taken: &[TakenLeaf],
    at: u32,
) -> Result<Reply, Refusal>
    requires { MatchOption found ⊤ (λ leaves. AreReadable (length memory.old) leaves.items) }
    ensures { (k : Keeper) (h : HeldShown) (c : Call) (below : List Entry) → Answers (λ c. or_bad (option_map (λ leaves. leaves.items) found) (λ leaves. taken_put at leaves taken.now below c)) (with_all k h memory.old (entry_of taken.now ∷ below) c) result (with_all k h memory.new (entries_left result (entry_of taken.now ∷ below)) c) }
{
    match found {
        Some(leaves) => put_part(memory, &leaves, taken, at),
        None => Err(Refusal::Bad),
    }
}

/// 40 with mode 1: an aggregate that was taken, whose leaves are those of the newest entry, is stored in a part. Where the reply's
/// second word is 0, the caller is to drop that entry; else nothing changed.
pub fn put_aggregate<K: AreaKeeper>(
    alloc: Global,
    held: &Held,
    memory: &mut [u8],
    taken: &[TakenLeaf],
    asked: PartAsked,
) -> Result<Reply, Refusal>
    requires { IsLaid K.keeper held.now.layout memory.old }
    ensures { (c : Call) (below : List Entry) → Answers (λ c. services.aggregate_served c asked.at asked.first asked.leaves asked.given 1) (with_all K.keeper held.now memory.old (entry_of taken.now ∷ below) c) result (with_all K.keeper held.now memory.new (entries_left result (entry_of taken.now ∷ below)) c) }
{
    match find_part::<K>(alloc, held, memory, asked) {
        Ok(found) => put_found(memory, found, taken, asked.at),
        Err(_) => Err(Refusal::Memory),
    }
}
