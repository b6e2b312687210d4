// Sizes and places of leaves in data of constant size, in bytes. Nothing is counted past 2^31, which stands for all that is more.

ghost use Rattle.std.specs.Prelude.{◌≡◌, ◌≤◌, [], map, take, IfOk};
ghost use Rattle.pli_typing.specs.Signatures as sizes;
ghost use Rattle.pli_typing.specs.TypedView.{extent_of, bounds_of, leaf_type_of, leaf_of};
ghost use Rattle.pli_typing.specs.TypedStatementView.{declared_variable_of};
ghost use Rattle.pli_meaning.specs.DeclaredShapes as shapes;
ghost use Rattle.pli_coding.specs.Locating.{leaf_place};
ghost use Rattle.rv_address.specs.Numbers.{capped, most_bytes};

use pli_typing::typed::{Bounds, DeclaredVariable, Extent, Leaf, LeafType};
use std::alloc::AllocError;

const MOST_BYTES: u64 = 1 << 31;

fn capped(number: u64) -> u64
    ensures { result ≡ capped number }
{
    number.min(MOST_BYTES)
}

/// A number as a length, none where it is below 0.
fn natural(number: i128) -> u64
    ensures { result ≡ capped (sizes.natural number) }
{
    if number < 0 {
        0
    } else if number < 1 << 31 {
        number as u64
    } else {
        MOST_BYTES
    }
}

/// An extent that isn't constant counts as 0.
fn amount(extent: Extent) -> i128
    ensures { result ≡ shapes.amount_of [] (extent_of extent) }
{
    match extent {
        Extent::Constant(number) => number,
        Extent::Star => 0,
        Extent::Refer => 0,
        Extent::Evaluated(_) => 0,
    }
}

fn length(extent: Extent) -> u64
    ensures { result ≡ capped (shapes.length_of [] (extent_of extent)) }
{
    natural(amount(extent))
}

/// The bytes of one element.
fn leaf_bytes(kind: LeafType) -> u64
    ensures { result ≡ capped (sizes.leaf_bytes (shapes.kind_of [] (leaf_type_of kind))) }
{
    match kind {
        LeafType::Fixed(precision) => if precision <= 15 { 2 } else { 4 },
        LeafType::Character(size) => length(size),
        LeafType::Varying(size) => capped(2 + length(size)),
        LeafType::Bit => 1,
        LeafType::Pointer => 16,
        LeafType::Offset(_) => 4,
        LeafType::Area(size) => length(size) / 16 * 16,
    }
}

/// The bytes of one element in whole words; 2^31 or more is want of memory.
pub fn element_bytes(kind: LeafType) -> Result<u32, AllocError>
    ensures { IfOk result (λ n. n ≡ sizes.rounded_up 4 (sizes.leaf_bytes (shapes.kind_of [] (leaf_type_of kind)))) }
{
    let bytes = leaf_bytes(kind);
    if bytes >= MOST_BYTES {
        return Err(AllocError);
    }
    Ok((bytes as u32 + 3) / 4 * 4)
}

/// The elements of one dimension.
fn span(bounds: &Bounds) -> u64
    ensures value { result ≡ capped (sizes.span (shapes.bounds_of [] (bounds_of bounds.now))) }
    ensures few { result ≤ most_bytes }
{
    let (lower, upper) = (amount(bounds.lower), amount(bounds.upper));
    if upper < lower {
        return 0;
    }
    let distance = upper.abs_diff(lower);
    if distance < 1 << 31 {
        distance as u64 + 1
    } else {
        MOST_BYTES
    }
}

/// The elements of all dimensions together: 1 where there is none.
#[tactic(auto, using(crate::proofs::Capping::next_dimension))]
fn element_count(dimensions: &[Bounds]) -> u64
    ensures { result ≡ capped (sizes.element_count (map (shapes.bounds_of []) (map bounds_of dimensions.now))) }
{
    let mut count: u64 = 1;
    for bounds in dimensions {
        count = capped(count * span(bounds));
    }
    count
}

/// The bytes of a leaf in whole words, for all its elements.
#[tactic(auto, using(crate::proofs::Capping::of_leaf))]
pub fn leaf_size(leaf: &Leaf) -> u64
    ensures { result ≡ capped (sizes.leaf_size (shapes.leaf_of [] (leaf_of leaf.now))) }
{
    let bytes = (leaf_bytes(leaf.kind) + 3) / 4 * 4;
    capped(bytes * element_count(&leaf.bounds))
}

#[tactic(auto, using(crate::proofs::Capping::next_leaf, std::proofs::lemmas::List::drop_all))]
fn leaves_size(leaves: &[Leaf]) -> u64
    ensures { result ≡ capped (sizes.leaves_size (map (shapes.leaf_of []) (map leaf_of leaves.now))) }
{
    let mut size: u64 = 0;
    for leaf in leaves {
        size = capped(size + leaf_size(leaf));
    }
    size
}

/// The bytes before a leaf; 2^31 or more is want of memory.
#[tactic(auto, using(crate::proofs::Capping::before_leaf))]
pub fn leaf_place(variable: &DeclaredVariable, leaf: usize) -> Result<u32, AllocError>
    ensures { IfOk result (λ n. n ≡ leaf_place (declared_variable_of variable.now) leaf) }
{
    let before = leaf.min(variable.leaves.len());
    let size = leaves_size(&variable.leaves[..before]);
    if size >= MOST_BYTES {
        return Err(AllocError);
    }
    Ok(size as u32)
}
