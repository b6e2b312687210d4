// Format lists.

ghost use Rattle.std.specs.Prelude.{◌≡◌, ◌+◌, ◌*◌, ◌≤◌, ◌<◌, ◌^◌, IfOk, MatchOption, length, option_map, ⊤};
ghost use Rattle.pli_serving.specs.FormatLists.{formats_at};
ghost use Rattle.pli_edit.specs.FormatPlaces.{items_of};
ghost use Rattle.pli_formats.specs.Reading.{items_in, nodes_at};
ghost use Rattle.pli_values.specs.Calls.{call_of};

use crate::node::{NODE_BYTES, node_at};
use crate::sizes::put_sizes;
use pli_edit::format::Node;
use pli_values::source::Source;
use pli_values::word::word_at;
use std::alloc::{AllocError, Global};

/// Room is made at once for so many nodes, where there are as many: a count in memory may be any number.
const MOST_AT_ONCE: usize = 64;

/// How many items are in a node.
fn items_in(node: Node) -> u32
    ensures { result ≡ items_in node }
{
    match node {
        Node::Item(_, _) => 0,
        Node::List(_, count) => count,
    }
}

/// Where memory ends.
fn end_of(source: &Source) -> u32
    ensures { result ≡ source.now.layout.end }
{
    source.layout.end
}

/// The nodes of so many items from an address on, a list's with the number of its items. None where these aren't items.
fn nodes_at(
    alloc: Global,
    source: &Source,
    count: u32,
    at: usize,
) -> Result<Option<Vec<Node>>, AllocError>
    ensures nodes { IfOk result (λ o. option_map (λ nodes. nodes.items) o ≡ nodes_at source.now.layout.end (call_of source.now) count at) }
    ensures within { IfOk result (λ o. MatchOption o ⊤ (λ nodes. 12 * length nodes.items ≤ source.now.layout.end)) }
    ensures few { IfOk result (λ o. MatchOption o ⊤ (λ nodes. length nodes.items < 2 ^ 32)) }
{
    let most = end_of(source);
    let mut nodes = Vec::with_capacity(alloc, MOST_AT_ONCE.min(count as usize))?;
    let mut left = u64::from(count);
    let mut here = at;
    while left > 0 {
        let Some(node) = node_at(source, here) else {
            return Ok(None);
        };
        nodes.push(node)?;
        left = left - 1 + u64::from(items_in(node));
        here += NODE_BYTES;
    }
    Ok(Some(nodes))
}

/// The format list at an address, as nodes of which each list's own stand behind it. None where it isn't one. Repetitions aren't
/// written out, and nothing is read twice.
pub fn format_list(
    alloc: Global,
    source: &Source,
    at: usize,
) -> Result<Option<Vec<Node>>, AllocError>
    ensures items { IfOk result (λ o. option_map (λ nodes. items_of nodes.items) o ≡ formats_at (call_of source.now) at) }
    ensures within { IfOk result (λ o. MatchOption o ⊤ (λ nodes. 12 * length nodes.items ≤ source.now.layout.end)) }
    ensures few { IfOk result (λ o. MatchOption o ⊤ (λ nodes. length nodes.items < 2 ^ 32)) }
{
    if !source.layout.is_data(at, 4) {
        return Ok(None);
    }
    let count = word_at(source.memory, at);
    if count == 0 {
        return Ok(None);
    }
    let Some(mut nodes) = nodes_at(alloc, source, count, at + 4)? else {
        return Ok(None);
    };
    put_sizes(&mut nodes);
    Ok(Some(nodes))
}
