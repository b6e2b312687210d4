// Whether two signatures are equal.

ghost use Rattle.std.specs.Prelude.{◌≡◌, map, length};
ghost use Rattle.pli_meaning.specs.Contents.{same_offset, same_class};
ghost use Rattle.pli_types.specs.View.{bounds_of, class_of, leaf_kind_of, leaf_of, template_of};
ghost use Rattle.pli_signatures.specs.Numbering.{same_leaf};
ghost use Rattle.pli_serving.specs.SignatureService.{same_open_kind, same_pair, same_pairs, same_open_leaves, same_template, number_of};

use pli_types::signature::{Bounds, Class, Leaf, LeafKind, Signature};

fn same_number(a: Option<u64>, b: Option<u64>) -> bool
    ensures { result ≡ same_offset a b }
{
    match (a, b) {
        (None, None) => true,
        (Some(a), Some(b)) => a == b,
        _ => false,
    }
}

fn same_length(a: Option<u16>, b: Option<u16>) -> bool
    ensures { result ≡ same_offset a b }
{
    same_number(a.map(u64::from), b.map(u64::from))
}

fn same_capacity(a: Option<u32>, b: Option<u32>) -> bool
    ensures { result ≡ same_offset a b }
{
    same_number(a.map(u64::from), b.map(u64::from))
}

fn same_kind(a: LeafKind, b: LeafKind) -> bool
    ensures { result ≡ same_open_kind (leaf_kind_of a) (leaf_kind_of b) }
{
    match (a, b) {
        (LeafKind::Fixed { precision: p }, LeafKind::Fixed { precision: q }) => p == q,
        (LeafKind::Character { length: m }, LeafKind::Character { length: n }) => same_length(m, n),
        (LeafKind::Varying { length: m }, LeafKind::Varying { length: n }) => same_length(m, n),
        (LeafKind::Area { capacity: m }, LeafKind::Area { capacity: n }) => same_capacity(m, n),
        (LeafKind::Bit, LeafKind::Bit) => true,
        (LeafKind::Pointer, LeafKind::Pointer) => true,
        (LeafKind::Offset, LeafKind::Offset) => true,
        _ => false,
    }
}

fn same_pair(a: Option<Bounds>, b: Option<Bounds>) -> bool
    ensures { result ≡ same_pair (bounds_of a) (bounds_of b) }
{
    match (a, b) {
        (None, None) => true,
        (Some(a), Some(b)) => a.lower == b.lower && a.upper == b.upper,
        _ => false,
    }
}

fn same_pairs(a: &[Option<Bounds>], b: &[Option<Bounds>]) -> bool
    ensures { result ≡ same_pairs (map bounds_of a.now) (map bounds_of b.now) }
{
    if a.len() != b.len() {
        return false;
    }
    for place in 0..a.len() {
        if !same_pair(a[place], b[place]) {
            return false;
        }
    }
    true
}

fn same_leaf(a: &Leaf, b: &Leaf) -> bool
    ensures { result ≡ same_leaf (leaf_of a.now) (leaf_of b.now) }
{
    same_kind(a.kind, b.kind) && same_pairs(&a.bounds, &b.bounds)
}

fn same_leaves(a: &[Leaf], b: &[Leaf]) -> bool
    ensures { result ≡ same_open_leaves (map leaf_of a.now) (map leaf_of b.now) }
{
    if a.len() != b.len() {
        return false;
    }
    for place in 0..a.len() {
        if !same_leaf(&a[place], &b[place]) {
            return false;
        }
    }
    true
}

fn same_class(a: Class, b: Class) -> bool
    ensures { result ≡ same_class (class_of a) (class_of b) }
{
    match (a, b) {
        (Class::Plain, Class::Plain) => true,
        (Class::Controlled, Class::Controlled) => true,
        _ => false,
    }
}

fn same_refer(a: Option<usize>, b: Option<usize>) -> bool
    ensures { result ≡ same_offset a b }
{
    match (a, b) {
        (None, None) => true,
        (Some(a), Some(b)) => a == b,
        _ => false,
    }
}

/// Whether two signatures are equal.
pub fn same_signature(a: &Signature, b: &Signature) -> bool
    ensures { result ≡ same_template (template_of a.now) (template_of b.now) }
{
    same_class(a.class, b.class)
        && same_refer(a.refer, b.refer)
        && same_leaves(&a.leaves, &b.leaves)
}

/// The place of the first equal signature, or behind the last where there is none. It walks along all signatures.
pub fn place_of(list: &[Signature], signature: &Signature) -> usize
    ensures { result ≡ number_of (template_of signature.now) (map template_of list.now) }
{
    for (place, known) in list.iter().enumerate() {
        if same_signature(known, signature) {
            return place;
        }
    }
    list.len()
}
