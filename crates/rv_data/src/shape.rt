// The shape of an aggregate in GET and PUT: the dimensions that its subscripts leave, and the members in it.

ghost use Rattle.std.specs.Prelude.{◌≡◌, ℕ, suc, ◌+◌, ◌-◌, ◌<◌, ◌≤◌, [], ◌∷◌, ◌++◌, Some, map, length, drop, max, nat_le, nat_lt, slice_get, option_map, OnOk, IfOk, ◌==◌, if◌then◌else◌, None};
ghost use Rattle.rv_meaning.specs.Memory.{bytes_of_words};
ghost use Rattle.pli_typing.specs.TypedView.{part_of};
ghost use Rattle.pli_typing.specs.TypedStatementView.{member_of};
ghost use Rattle.pli_meaning.specs.StreamOrder.{behind_deeper, deeper, leaves_inside, nest_of};
ghost use Rattle.pli_coding.specs.StaticForms as form;
ghost use Rattle.rv_assembly.specs.View.{datum_of};
ghost use Rattle.rv_data.specs.Shapes.{AreNodes, AreSiblings, IsNode, found_words, inside_first, is_past};

use crate::bytes::{put_triple, put_word};
use pli_typing::typed::{Member, Part};
use rv_assembly::item::Datum;
use std::alloc::{AllocError, Global};

/// What is told of a member: how many members stand in it, how many leaves, and the place of the member behind those.
#[derive(Clone, Copy, PartialEq, Eq, Debug)]
pub struct Node {
    pub inside: usize,
    pub leaves: usize,
    pub behind: usize,
}

/// A member that is the part, with its dimensions, those around it included, and its first leaf.
#[derive(Clone, Copy, PartialEq, Eq, Debug)]
pub struct Found {
    pub member: usize,
    pub dimensions: usize,
    pub leaf: usize,
}

fn member_at(members: &[Member], at: usize) -> Option<Member>
    ensures { option_map member_of result ≡ slice_get (map member_of members.now) at }
{
    members.get(at).copied()
}

/// The node of a member, where nodes stand from the last member's on.
fn node_at(members: &[Member], nodes: &[Node], at: usize) -> Result<Node, AllocError>
    ensures { IfOk result (λ x. slice_get nodes.now (length members.now - suc at) ≡ Some x) }
{
    let behind = members.len().saturating_sub(at.saturating_add(1));
    nodes.get(behind).copied().ok_or(AllocError)
}

fn sum(left: usize, right: usize) -> Result<usize, AllocError>
    ensures { IfOk result (λ n. n ≡ left + right) }
{
    left.checked_add(right).ok_or(AllocError)
}

/// What stands behind a place in a structure of this depth: how many members and leaves, and where its siblings go on.
#[tactic(auto, using(crate::proofs::Told::begun, crate::proofs::Told::next_sibling, crate::proofs::Told::no_sibling, crate::proofs::Told::at_end))]
fn siblings(
    members: &[Member],
    nodes: &[Node],
    start: usize,
    depth: usize,
) -> Result<Node, AllocError>
    requires told { AreNodes (map member_of members.now) nodes.now }
    requires inside { start ≤ length members.now }
    ensures { IfOk result (λ node. AreSiblings (map member_of members.now) depth start node) }
{
    let mut node = Node {
        inside: 0,
        leaves: 0,
        behind: start,
    };
    while let Some(member) = member_at(members, node.behind) {
        if member.depth <= depth {
            break;
        }
        let next = node_at(members, nodes, node.behind)?;
        node = Node {
            inside: sum(node.inside, 1)?,
            leaves: sum(node.leaves, next.leaves)?,
            behind: next.behind,
        };
    }
    Ok(node)
}

fn whole_node(inside: Node) -> Node
    ensures inside { result.inside ≡ inside.inside }
    ensures leaves { result.leaves ≡ max inside.leaves 1 }
    ensures behind { result.behind ≡ inside.behind }
{
    Node {
        leaves: inside.leaves.max(1),
        ..inside
    }
}

/// What is told of a member, where the nodes of those behind it stand.
#[tactic(auto, using(crate::proofs::Told::node_told))]
fn node_of(members: &[Member], nodes: &[Node], at: usize) -> Result<Node, AllocError>
    requires told { AreNodes (map member_of members.now) nodes.now }
    requires inside { at < length members.now }
    ensures { IfOk result (λ node. IsNode (map member_of members.now) at node) }
{
    let Some(member) = member_at(members, at) else {
        return Err(AllocError);
    };
    let inside = siblings(members, nodes, at + 1, member.depth)?;
    Ok(whole_node(inside))
}

/// The nodes of all members, from the last one on.
#[tactic(auto, using(crate::proofs::Told::one_more_told, crate::proofs::Told::none_told))]
fn nodes_of(alloc: Global, members: &[Member]) -> Result<Vec<Node>, AllocError>
    ensures { IfOk result (λ nodes. AreNodes (map member_of members.now) nodes.items) }
{
    let mut nodes = Vec::new(alloc);
    let mut left = members.len();
    while left > 0 {
        left -= 1;
        let node = node_of(members, &nodes, left)?;
        nodes.push(node)?;
    }
    Ok(nodes)
}

fn is_past(limit: Option<usize>, depth: usize) -> bool
    ensures { result ≡ is_past limit depth }
{
    match limit {
        Some(limit) => depth <= limit,
        None => false,
    }
}

/// The member itself where it is the part, else what was found around it.
fn found_at(part: Part, here: Found, leaves: usize, found: Option<Found>) -> Option<Found>
    ensures { result ≡ (if form.is_part (part_of part) here.leaf leaves then Some here else found) }
{
    if part.first == here.leaf && part.count == leaves {
        Some(here)
    } else {
        found
    }
}

/// The innermost member that is the part.
fn part_found(members: &[Member], nodes: &[Node], part: Part) -> Result<Option<Found>, AllocError>
    requires told { AreNodes (map member_of members.now) nodes.now }
    ensures { IfOk result (λ f. (given : ℕ) → found_words (map member_of members.now) given f ≡ form.part_in (part_of part) given 0 0 (nest_of (map member_of members.now))) }
{
    let (mut at, mut limit) = (0, None);
    let (mut dimensions, mut leaf) = (0, 0);
    let mut found = None;
    while let Some(member) = member_at(members, at) {
        if is_past(limit, member.depth) {
            break;
        }
        let node = node_at(members, nodes, at)?;
        let behind = sum(node.leaves, leaf)?;
        if behind <= part.first {
            leaf = behind;
            at = node.behind;
        } else {
            dimensions = sum(dimensions, member.dimensions)?;
            let here = Found {
                member: at,
                dimensions,
                leaf,
            };
            found = found_at(part, here, node.leaves, found);
            limit = Some(member.depth);
            at = sum(at, 1)?;
        }
    }
    Ok(found)
}

/// The first leaf of what stands behind a member, before those in it.
fn next_leaf(leaf: usize, inside: usize) -> Result<usize, AllocError>
    ensures { IfOk result (λ n. n ≡ (if inside == 0 then suc leaf else leaf)) }
{
    if inside == 0 { sum(leaf, 1) } else { Ok(leaf) }
}

/// The members in a structure of this depth, from a place on, each as its own dimensions, the members in it, and its first leaf.
fn put_members(
    bytes: &mut Vec<u8>,
    members: &[Member],
    nodes: &[Node],
    found: Found,
    depth: usize,
) -> Result<(), AllocError>
    requires told { AreNodes (map member_of members.now) nodes.now }
    ensures { OnOk result (bytes.new.items ≡ bytes.old.items ++ bytes_of_words (form.nest_words found.leaf (deeper depth (nest_of (drop (suc found.member) (map member_of members.now)))))) }
{
    let mut at = sum(found.member, 1)?;
    let mut leaf = found.leaf;
    while let Some(member) = member_at(members, at) {
        if member.depth <= depth {
            break;
        }
        let node = node_at(members, nodes, at)?;
        put_triple(
            bytes,
            member.dimensions as u64,
            node.inside as u64,
            leaf as u64,
        )?;
        leaf = next_leaf(leaf, node.inside)?;
        at = sum(at, 1)?;
    }
    Ok(())
}

fn put_part(
    bytes: &mut Vec<u8>,
    members: &[Member],
    nodes: &[Node],
    found: Found,
    given: usize,
) -> Result<(), AllocError>
    requires told { AreNodes (map member_of members.now) nodes.now }
    ensures { OnOk result (bytes.new.items ≡ bytes.old.items ++ bytes_of_words (form.part_words (found.dimensions - given) found.leaf (inside_first (drop found.member (map member_of members.now))))) }
{
    let Some(member) = member_at(members, found.member) else {
        return Err(AllocError);
    };
    let node = node_at(members, nodes, found.member)?;
    let left = found.dimensions.saturating_sub(given);
    put_triple(bytes, left as u64, node.inside as u64, found.leaf as u64)?;
    put_members(bytes, members, nodes, found, member.depth)?;
    Ok(())
}

/// The number of subscripts given, and the part with its members. (X3.53 chapter 8.)
pub fn shape_datum(
    alloc: Global,
    members: &[Member],
    part: Part,
    given: usize,
) -> Result<Datum, AllocError>
    ensures { IfOk result (λ d. datum_of d ≡ form.shape_datum (map member_of members.now) (part_of part) given) }
{
    let nodes = nodes_of(alloc, members)?;
    let mut bytes = Vec::new(alloc);
    put_word(&mut bytes, given as u64)?;
    if let Some(found) = part_found(members, &nodes, part)? {
        put_part(&mut bytes, members, &nodes, found, given)?;
    }
    Ok(Datum::ConstantBytes(bytes))
}
