// The number of nodes in each list.

ghost use Rattle.std.specs.Prelude.{◌≡◌, ◌+◌, ◌≤◌, ◌<◌, ◌^◌, drop, length};
ghost use Rattle.pli_formats.specs.Sizes.{AreWithin, nodes_in, size_of, with_sizes};

use pli_edit::format::Node;

/// A node and those in it, where it tells the number of these.
fn size_of(node: Node) -> usize
    ensures { result ≡ size_of node }
{
    match node {
        Node::Item(_, _) => 1,
        Node::List(_, inner) => 1 + inner as usize,
    }
}

/// How many nodes so many items from a place on take.
fn nodes_in(nodes: &[Node], start: usize, count: u32) -> usize
    requires within { AreWithin (drop start nodes.now) }
    requires there { start ≤ length nodes.now }
    ensures count { result ≡ nodes_in count (drop start nodes.now) }
    ensures inside { start + result ≤ length nodes.now }
{
    let mut place = start;
    let mut left = count;
    while left > 0 {
        let Some(node) = nodes.get(place) else {
            return place - start;
        };
        place += size_of(*node);
        left -= 1;
    }
    place - start
}

/// Puts the number of its nodes into each list that tells the number of its items.
pub fn put_sizes(nodes: &mut [Node])
    requires { length nodes.old < 2 ^ 32 }
    ensures { nodes.new ≡ with_sizes nodes.old }
{
    let mut left = nodes.len();
    while left > 0 {
        left -= 1;
        if let Node::List(times, count) = nodes[left] {
            let inner = nodes_in(nodes, left + 1, count);
            nodes[left] = Node::List(times, inner as u32);
        }
    }
}
