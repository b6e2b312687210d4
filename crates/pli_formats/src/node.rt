// One node of a format list.

ghost use Rattle.std.specs.Prelude.{◌≡◌, ◌+◌, ◌≤◌, MatchOption, ⊤};
ghost use Rattle.pli_language.specs.Formats.{is_times, is_width};
ghost use Rattle.pli_serving.specs.FormatLists.{ReadOne, item_of, read_if, text_item};
ghost use Rattle.pli_edit.specs.FormatPlaces as places;
ghost use Rattle.pli_formats.specs.Reading.{node_at, node_of};
ghost use Rattle.pli_values.specs.Calls.{call_of};

use pli_edit::format::{Format, Node};
use pli_values::source::Source;
use pli_values::word::word_at;

/// The bytes of a node.
pub const NODE_BYTES: usize = 12;

fn is_width(number: u32) -> bool
    ensures { result ≡ is_width number }
{
    1 <= number && number <= 1024
}

fn is_times(number: u32) -> bool
    ensures { result ≡ is_times number }
{
    1 <= number && number <= 1000
}

fn item_if(holds: bool, times: u32, format: Format) -> Option<Node>
    ensures { result ≡ node_of (read_if holds (ReadOne (places.item_of format))) times }
{
    if holds {
        Some(Node::Item(times, format))
    } else {
        None
    }
}

fn text_node(times: u32, number: u32) -> Option<Node>
    ensures { result ≡ node_of (text_item number) times }
{
    if number == 0 {
        Some(Node::Item(times, Format::Text(None)))
    } else {
        item_if(is_width(number), times, Format::Text(Some(number)))
    }
}

fn list_node(times: u32, count: u32) -> Option<Node>
    ensures { result ≡ node_of (item_of 6 count) times }
{
    if count == 0 {
        None
    } else {
        Some(Node::List(times, count))
    }
}

/// The node of a kind, a repetition, and a width, number or count of items.
fn node_of(kind: u32, times: u32, number: u32) -> Option<Node>
    ensures { result ≡ node_of (item_of kind number) times }
{
    match kind {
        1 => item_if(is_width(number), times, Format::Fixed(number)),
        2 => text_node(times, number),
        3 => item_if(is_times(number), times, Format::Space(number)),
        4 => item_if(is_times(number), times, Format::Skip(number)),
        5 => item_if(is_times(number), times, Format::Column(number)),
        6 => list_node(times, number),
        _ => None,
    }
}

/// The node at an address, where one stands there.
pub fn node_at(source: &Source, at: usize) -> Option<Node>
    ensures node { result ≡ node_at (call_of source.now) at }
    ensures within { MatchOption result ⊤ (λ _. at + 12 ≤ source.now.layout.end) }
{
    if !source.layout.is_data(at, NODE_BYTES) {
        return None;
    }
    let times = word_at(source.memory, at + 4);
    if !is_times(times) {
        return None;
    }
    node_of(
        word_at(source.memory, at),
        times,
        word_at(source.memory, at + 8),
    )
}
