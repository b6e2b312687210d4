// Where the INITIAL values of leaves stand.

ghost use Rattle.std.specs.Prelude.{◌≡◌, IfOk, MatchOption, Some, is_some, length, slice_get, true, ⊤};
ghost use Rattle.pli_serving.specs.InitialValues.{initial_values, items_at, leaves_at, none_initial};
ghost use Rattle.pli_serving.specs.Finding.{Call};
ghost use Rattle.pli_values.specs.Calls.{call_of};
ghost use Rattle.pli_values.specs.Leaves.{leaves_of};
ghost use Rattle.pli_values.specs.LeafLists.{list_for, lists_read};

use crate::initial::are_items;
use crate::source::Source;
use crate::word::word_at;
use pli_signatures::size::element_kind;
use pli_types::signature::Leaf;
use std::alloc::{AllocError, Global};

/// So many INITIAL values of a leaf, from an address on; 0 where it has none.
#[derive(Clone, Copy, PartialEq, Eq, Debug)]
pub struct ItemList {
    pub count: u32,
    pub at: usize,
}

/// The values of the leaf of a number, behind the word with how many they are; none where no such values stand there.
fn leaf_list(source: &Source, leaves: &[Leaf], leaf: u32, at: usize) -> Option<ItemList>
    ensures right { is_some result ≡ is_some (items_at (call_of source.now) (slice_get (leaves_of leaves.now) leaf) at) }
    ensures list { MatchOption result ⊤ (λ p. list_for (call_of source.now) (slice_get (leaves_of leaves.now) leaf) p ≡ items_at (call_of source.now) (slice_get (leaves_of leaves.now) leaf) at) }
{
    let found = leaves.get(leaf as usize)?;
    if !source.layout.is_data(at, 4) {
        return None;
    }
    let list = ItemList {
        count: word_at(source.memory, at),
        at: at + 4,
    };
    if !are_items(source, element_kind(found.kind), list.count, list.at) {
        return None;
    }
    Some(list)
}

/// Notes the values of each leaf that is named at an address, from the last one on, so that of two lists for a leaf the first counts.
/// It answers false where no such values stand there.
fn note_lists(lists: &mut [ItemList], source: &Source, leaves: &[Leaf], at: usize) -> bool
    requires even { length lists.old ≡ length leaves.now }
    requires none { lists_read (call_of source.now) (leaves_of leaves.now) lists.old ≡ Some (none_initial (leaves_of leaves.now)) }
    ensures right { result ≡ is_some (leaves_at (call_of source.now) (leaves_of leaves.now) at) }
    ensures lists { result ≡ true → lists_read (call_of source.now) (leaves_of leaves.now) lists.new ≡ leaves_at (call_of source.now) (leaves_of leaves.now) at }
{
    if !source.layout.is_data(at, 4) {
        return false;
    }
    let count = word_at(source.memory, at);
    if !source.layout.is_data(at + 4, 8 * count as usize) {
        return false;
    }
    let mut left = count;
    while left > 0 {
        left -= 1;
        let entry = at + 4 + 8 * left as usize;
        let leaf = word_at(source.memory, entry);
        let distance = word_at(source.memory, entry + 4) as usize;
        let Some(list) = leaf_list(source, leaves, leaf, at + distance) else {
            return false;
        };
        lists[leaf as usize] = list;
    }
    true
}

/// A list of none for each leaf.
fn no_lists(alloc: Global, leaves: &[Leaf]) -> Result<Vec<ItemList>, AllocError>
    ensures even { IfOk result (λ lists. length lists.items ≡ length leaves.now) }
    ensures none { (c : Call) → IfOk result (λ lists. lists_read c (leaves_of leaves.now) lists.items ≡ Some (none_initial (leaves_of leaves.now))) }
{
    let none = ItemList { count: 0, at: 0 };
    Ok(vec![in alloc; none; leaves.len()]?)
}

/// Where the INITIAL values of each leaf stand, as a list of all at an address says; with 0 as address none has any. None where no
/// values that these leaves can have stand there. Each leaf that is named takes 8 bytes and each of its values 12 at least, so a walk
/// over one list ends where memory does; lists that overlap are walked as often as they are named.
pub fn initial_lists(
    alloc: Global,
    source: &Source,
    leaves: &[Leaf],
    at: usize,
) -> Result<Option<Vec<ItemList>>, AllocError>
    ensures right { IfOk result (λ o. is_some o ≡ is_some (initial_values (call_of source.now) (leaves_of leaves.now) at)) }
    ensures lists { IfOk result (λ o. MatchOption o ⊤ (λ lists. lists_read (call_of source.now) (leaves_of leaves.now) lists.items ≡ initial_values (call_of source.now) (leaves_of leaves.now) at)) }
{
    let mut lists = no_lists(alloc, leaves)?;
    if at == 0 {
        return Ok(Some(lists));
    }
    if note_lists(&mut lists, source, leaves, at) {
        return Ok(Some(lists));
    }
    Ok(None)
}
