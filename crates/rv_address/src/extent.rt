// Extents, bounds and kinds of leaves: which are constant.

ghost use Rattle.std.specs.Prelude.{◌≡◌, map, true, false, not};
ghost use Rattle.std.specs.List.{list_all};
ghost use Rattle.pli_typing.specs.TypedView.{extent_of, bounds_of, leaf_type_of, leaf_of};
ghost use Rattle.pli_coding.specs.Frames as form;
ghost use Rattle.pli_coding.specs.Locating as locating;

use pli_typing::typed::{Bounds, Extent, Leaf, LeafType};

/// Whether the source tells the extent.
pub fn is_constant(extent: Extent) -> bool
    ensures { result ≡ form.is_constant (extent_of extent) }
{
    match extent {
        Extent::Constant(_) => true,
        Extent::Star => false,
        Extent::Refer => false,
        Extent::Evaluated(_) => false,
    }
}

/// A greater area's size is filled in when the program runs.
fn is_constant_area(extent: Extent) -> bool
    ensures { result ≡ form.is_constant_area (extent_of extent) }
{
    match extent {
        Extent::Constant(number) => number < (1 << 20) + 16,
        Extent::Star => false,
        Extent::Refer => false,
        Extent::Evaluated(_) => false,
    }
}

fn is_constant_type(kind: LeafType) -> bool
    ensures { result ≡ form.is_constant_type (leaf_type_of kind) }
{
    match kind {
        LeafType::Character(size) => is_constant(size),
        LeafType::Varying(size) => is_constant(size),
        LeafType::Area(size) => is_constant_area(size),
        _ => true,
    }
}

/// Whether both bounds of a dimension are constant.
pub fn are_constant(bounds: Bounds) -> bool
    ensures { result ≡ form.are_constant (bounds_of bounds) }
{
    is_constant(bounds.lower) && is_constant(bounds.upper)
}

#[tactic(auto, using(crate::proofs::Declared::next_bounds, crate::proofs::Declared::not_bounds, std::proofs::lemmas::List::drop_all))]
fn all_constant(dimensions: &[Bounds]) -> bool
    ensures { result ≡ list_all form.are_constant (map bounds_of dimensions.now) }
{
    for bounds in dimensions {
        if !are_constant(*bounds) {
            return false;
        }
    }
    true
}

/// Whether a description of the leaf is wanted when the code runs.
pub fn needs_buffer(leaf: &Leaf) -> bool
    ensures { result ≡ locating.needs_buffer (leaf_of leaf.now) }
{
    !(is_constant_type(leaf.kind) && all_constant(&leaf.bounds))
}

fn is_star(extent: Extent) -> bool
    ensures { result ≡ locating.is_star (extent_of extent) }
{
    match extent {
        Extent::Constant(_) => false,
        Extent::Star => true,
        Extent::Refer => false,
        Extent::Evaluated(_) => false,
    }
}

fn is_star_type(kind: LeafType) -> bool
    ensures { result ≡ locating.is_star_type (leaf_type_of kind) }
{
    match kind {
        LeafType::Character(size) => is_star(size),
        LeafType::Varying(size) => is_star(size),
        _ => false,
    }
}

/// Whether the first dimension, or else the length, is that of any argument.
pub fn takes_any(leaf: &Leaf) -> bool
    ensures { result ≡ locating.takes_any (leaf_of leaf.now).bounds (leaf_of leaf.now).type }
{
    if leaf.bounds.is_empty() {
        return is_star_type(leaf.kind);
    }
    is_star(leaf.bounds[0].upper)
}

/// Whether the extent is the constant 1.
pub fn is_one(extent: Extent) -> bool
    ensures { result ≡ locating.is_one (extent_of extent) }
{
    match extent {
        Extent::Constant(number) => number == 1,
        Extent::Star => false,
        Extent::Refer => false,
        Extent::Evaluated(_) => false,
    }
}
