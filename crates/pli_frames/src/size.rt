// How many bytes of a frame a variable takes, counted up to the last place of a frame, which stands for all that is more.

ghost use Rattle.std.specs.Prelude.{◌≡◌, ◌≤◌, [], map, true, false};
ghost use Rattle.std.specs.List.{list_all};
ghost use Rattle.pli_typing.specs.Signatures as sizes;
ghost use Rattle.pli_typing.specs.TypedView.{class_of, extent_of, bounds_of, leaf_type_of, leaf_of};
ghost use Rattle.pli_typing.specs.TypedStatementView.{declared_variable_of};
ghost use Rattle.pli_meaning.specs.DeclaredShapes as shapes;
ghost use Rattle.pli_coding.specs.Frames as form;
ghost use Rattle.pli_frames.specs.Parts.{parts, stopped};

use pli_typing::typed::{Bounds, DeclaredVariable, Extent, Leaf, LeafType, StorageClass};

/// No place of a frame is counted past this one: 4 MiB, in bytes.
pub const LAST_PLACE: u64 = 4 << 20;

fn stopped(number: u64) -> u64
    ensures { result ≡ stopped number }
{
    number.min(LAST_PLACE)
}

/// A number as a length, none where it is below 0.
fn natural(number: i128) -> u64
    ensures { result ≡ stopped (sizes.natural number) }
{
    if number < 0 {
        0
    } else if number < 4 << 20 {
        number as u64
    } else {
        LAST_PLACE
    }
}

/// An extent that isn't constant counts as 0.
fn amount(extent: Extent) -> i128
    ensures { result ≡ shapes.amount_of [] (extent_of extent) }
{
    match extent {
        Extent::Constant(number) => number,
        Extent::Star => 0,
        Extent::Refer => 0,
        Extent::Evaluated(_) => 0,
    }
}

fn length(extent: Extent) -> u64
    ensures { result ≡ stopped (shapes.length_of [] (extent_of extent)) }
{
    natural(amount(extent))
}

/// The bytes of one element.
fn leaf_bytes(kind: LeafType) -> u64
    ensures { result ≡ stopped (sizes.leaf_bytes (shapes.kind_of [] (leaf_type_of kind))) }
{
    match kind {
        LeafType::Fixed(precision) => if precision <= 15 { 2 } else { 4 },
        LeafType::Character(size) => length(size),
        LeafType::Varying(size) => stopped(2 + length(size)),
        LeafType::Bit => 1,
        LeafType::Pointer => 16,
        LeafType::Offset(_) => 4,
        LeafType::Area(size) => length(size) / 16 * 16,
    }
}

/// The elements of one dimension.
fn span(bounds: &Bounds) -> u64
    ensures value { result ≡ stopped (sizes.span (shapes.bounds_of [] (bounds_of bounds.now))) }
    ensures few { result ≤ form.last_place }
{
    let (lower, upper) = (amount(bounds.lower), amount(bounds.upper));
    if upper < lower {
        return 0;
    }
    let distance = upper.abs_diff(lower);
    if distance < 4 << 20 {
        distance as u64 + 1
    } else {
        LAST_PLACE
    }
}

/// The elements of all dimensions together: 1 where there is none.
#[tactic(auto, using(crate::proofs::Stopping::next_dimension))]
fn element_count(dimensions: &[Bounds]) -> u64
    ensures { result ≡ stopped (sizes.element_count (map (shapes.bounds_of []) (map bounds_of dimensions.now))) }
{
    let mut count: u64 = 1;
    for bounds in dimensions {
        count = stopped(count * span(bounds));
    }
    count
}

/// The bytes of a leaf in whole words, for all its elements.
#[tactic(auto, using(crate::proofs::Stopping::of_leaf))]
fn leaf_size(leaf: &Leaf) -> u64
    ensures { result ≡ stopped (sizes.leaf_size (shapes.leaf_of [] (leaf_of leaf.now))) }
{
    let bytes = (leaf_bytes(leaf.kind) + 3) / 4 * 4;
    stopped(bytes * element_count(&leaf.bounds))
}

#[tactic(auto, using(crate::proofs::Stopping::next_leaf, std::proofs::lemmas::List::drop_all))]
fn leaves_size(leaves: &[Leaf]) -> u64
    ensures { result ≡ stopped (sizes.leaves_size (map (shapes.leaf_of []) (map leaf_of leaves.now))) }
{
    let mut size: u64 = 0;
    for leaf in leaves {
        size = stopped(size + leaf_size(leaf));
    }
    size
}

/// An area of a capacity, with what its keeper adds.
#[tactic(auto, using(crate::proofs::Areas::area_stopped))]
fn area_bytes(size: i128) -> u64
    ensures { result ≡ stopped (parts.area_bytes (form.capacity_of size)) }
{
    let capacity = natural(size) / 16 * 16;
    stopped((8 + capacity / 16 + 15) / 16 * 16 + capacity)
}

fn area_size(size: Extent) -> u64
    ensures { result ≡ stopped (form.area_size parts (extent_of size)) }
{
    match size {
        Extent::Constant(number) => area_bytes(number),
        Extent::Star => 0,
        Extent::Refer => 0,
        Extent::Evaluated(_) => 0,
    }
}

fn size_of_leaves(variable: &DeclaredVariable) -> u64
    ensures { result ≡ stopped (form.size_of_leaves parts (declared_variable_of variable.now) (declared_variable_of variable.now).leaves) }
{
    match variable.leaves.as_slice() {
        [only] => match only.kind {
            LeafType::Area(size) => area_size(size),
            _ => leaves_size(&variable.leaves),
        },
        _ => leaves_size(&variable.leaves),
    }
}

/// The bytes of a variable of constant size: a multiple of 16, or `LAST_PLACE` where they are more.
pub fn constant_size(variable: &DeclaredVariable) -> u64
    ensures { result ≡ stopped (form.constant_size parts (declared_variable_of variable.now)) }
{
    (size_of_leaves(variable) + 15) / 16 * 16
}

fn is_constant(extent: Extent) -> bool
    ensures { result ≡ form.is_constant (extent_of extent) }
{
    matches!(extent, Extent::Constant(_))
}

/// The signature of a greater area is filled in when the program runs.
fn is_constant_area(extent: Extent) -> bool
    ensures { result ≡ form.is_constant_area (extent_of extent) }
{
    match extent {
        Extent::Constant(number) => natural(number) / 16 * 16 <= 1 << 20,
        Extent::Star => false,
        Extent::Refer => false,
        Extent::Evaluated(_) => false,
    }
}

fn is_constant_type(kind: LeafType) -> bool
    ensures { result ≡ form.is_constant_type (leaf_type_of kind) }
{
    match kind {
        LeafType::Character(size) => is_constant(size),
        LeafType::Varying(size) => is_constant(size),
        LeafType::Area(size) => is_constant_area(size),
        _ => true,
    }
}

#[tactic(auto, using(crate::proofs::Stopping::next_bounds, crate::proofs::Stopping::no_bounds, std::proofs::lemmas::List::drop_all))]
fn are_constant(dimensions: &[Bounds]) -> bool
    ensures { result ≡ list_all form.are_constant (map bounds_of dimensions.now) }
{
    for bounds in dimensions {
        if !is_constant(bounds.lower) || !is_constant(bounds.upper) {
            return false;
        }
    }
    true
}

fn is_constant_leaf(leaf: &Leaf) -> bool
    ensures { result ≡ form.is_constant_leaf (leaf_of leaf.now) }
{
    is_constant_type(leaf.kind) && are_constant(&leaf.bounds)
}

/// Whether every generation of a variable has the same size.
#[tactic(auto, using(crate::proofs::Stopping::next_constant, crate::proofs::Stopping::not_constant, std::proofs::lemmas::List::drop_all))]
pub fn has_constant_size(variable: &DeclaredVariable) -> bool
    ensures { result ≡ form.has_constant_size (declared_variable_of variable.now) }
{
    let leaves = variable.leaves.as_slice();
    for leaf in leaves {
        if !is_constant_leaf(leaf) {
            return false;
        }
    }
    true
}

pub(crate) fn is_automatic(class: StorageClass) -> bool
    ensures { result ≡ form.is_automatic (class_of class) }
{
    class == StorageClass::Automatic
}

/// What a variable takes in the frame, in bytes: its name, and its data where that has a constant size; `LAST_PLACE` where
/// it is more.
pub fn frame_bytes(variable: &DeclaredVariable) -> u64
    ensures few { result ≤ form.last_place }
    ensures bytes { result ≡ stopped (form.frame_bytes parts (declared_variable_of variable.now)) }
{
    if !is_automatic(variable.class) {
        return 0;
    }
    if has_constant_size(variable) {
        stopped(16 + constant_size(variable))
    } else {
        16
    }
}
