// The places at which one extent as it is written stands: leaves with a dimension, or with their length or size.

ghost use Rattle.std.specs.Prelude.{◌≡◌, map, [], ◌∷◌, ◌++◌, ◌&&◌, length, OnOk, IfOk};
ghost use Rattle.rv_meaning.specs.Memory.{bytes_of_words};
ghost use Rattle.pli_typing.specs.TypedView.{bounds_of, extent_of, leaf_of, leaf_type_of};
ghost use Rattle.pli_coding.specs.StaticForms as form;
ghost use Rattle.rv_assembly.specs.View.{datum_of};
ghost use Rattle.rv_data.specs.Places.{words_of};

use crate::bytes::{put_pair, put_word};
use pli_typing::typed::{Bounds, Extent, Leaf, LeafType};
use rv_assembly::item::Datum;
use std::alloc::{AllocError, Global};

/// The dimension that stands for a leaf's length or size.
const LENGTH_OR_SIZE: usize = 255;

/// A dimension of a leaf, both from 0.
#[derive(Clone, Copy, PartialEq, Eq, Debug)]
pub struct ExtentPlace {
    pub leaf: usize,
    pub dimension: usize,
}

fn is_same(left: Extent, right: Extent) -> bool
    ensures { result ≡ form.same_extent (extent_of left) (extent_of right) }
{
    match (left, right) {
        (Extent::Constant(left), Extent::Constant(right)) => left == right,
        (Extent::Star, Extent::Star) => true,
        (Extent::Refer, Extent::Refer) => true,
        (Extent::Evaluated(left), Extent::Evaluated(right)) => left == right,
        _ => false,
    }
}

fn are_same(left: Bounds, right: Bounds) -> bool
    ensures { result ≡ (form.same_extent (extent_of left.lower) (extent_of right.lower) && form.same_extent (extent_of left.upper) (extent_of right.upper)) }
{
    is_same(left.lower, right.lower) && is_same(left.upper, right.upper)
}

fn put_if(
    out: &mut Vec<ExtentPlace>,
    holds: bool,
    leaf: usize,
    dimension: usize,
) -> Result<(), AllocError>
    ensures { OnOk result (words_of out.new.items ≡ words_of out.old.items ++ form.place_if holds leaf dimension) }
{
    if holds {
        out.push(ExtentPlace { leaf, dimension })?;
    }
    Ok(())
}

/// Where a leaf's length or size is the extent.
fn put_size(
    out: &mut Vec<ExtentPlace>,
    leaf: usize,
    extent: Extent,
    kind: LeafType,
) -> Result<(), AllocError>
    ensures { OnOk result (words_of out.new.items ≡ words_of out.old.items ++ form.size_places leaf (extent_of extent) (leaf_type_of kind)) }
{
    match kind {
        LeafType::Character(length) => {
            put_if(out, is_same(extent, length), leaf, LENGTH_OR_SIZE)
        }
        LeafType::Varying(length) => put_if(out, is_same(extent, length), leaf, LENGTH_OR_SIZE),
        LeafType::Area(size) => put_if(out, is_same(extent, size), leaf, LENGTH_OR_SIZE),
        _ => Ok(()),
    }
}

#[tactic(auto, using(crate::proofs::Steps::next_size))]
fn put_sizes(out: &mut Vec<ExtentPlace>, extent: Extent, leaves: &[Leaf]) -> Result<(), AllocError>
    ensures { OnOk result (words_of out.new.items ≡ words_of out.old.items ++ form.sizes_from 0 (extent_of extent) (map leaf_of leaves.now)) }
{
    for (place, leaf) in leaves.iter().enumerate() {
        put_size(out, place, extent, leaf.kind)?;
    }
    Ok(())
}

/// Which dimensions of a leaf have the bounds.
#[tactic(auto, using(crate::proofs::Steps::next_dimension))]
fn put_dimensions(
    out: &mut Vec<ExtentPlace>,
    leaf: usize,
    bounds: Bounds,
    dimensions: &[Bounds],
) -> Result<(), AllocError>
    ensures { OnOk result (words_of out.new.items ≡ words_of out.old.items ++ form.bounds_places leaf 0 (bounds_of bounds) (map bounds_of dimensions.now)) }
{
    for (dimension, other) in dimensions.iter().enumerate() {
        put_if(out, are_same(bounds, *other), leaf, dimension)?;
    }
    Ok(())
}

#[tactic(auto, using(crate::proofs::Steps::next_bounds))]
fn put_bounds(out: &mut Vec<ExtentPlace>, bounds: Bounds, leaves: &[Leaf]) -> Result<(), AllocError>
    ensures { OnOk result (words_of out.new.items ≡ words_of out.old.items ++ form.bounds_from 0 (bounds_of bounds) (map leaf_of leaves.now)) }
{
    for (place, leaf) in leaves.iter().enumerate() {
        put_dimensions(out, place, bounds, &leaf.bounds)?;
    }
    Ok(())
}

#[tactic(auto, using(crate::proofs::Steps::next_place))]
fn put_places(bytes: &mut Vec<u8>, places: &[ExtentPlace]) -> Result<(), AllocError>
    ensures { OnOk result (bytes.new.items ≡ bytes.old.items ++ bytes_of_words (words_of places.now)) }
{
    for place in places {
        put_pair(bytes, place.leaf as u64, place.dimension as u64)?;
    }
    Ok(())
}

/// Places behind their number.
#[tactic(auto, using(crate::proofs::Steps::pairs))]
fn datum_of_places(alloc: Global, places: &[ExtentPlace]) -> Result<Datum, AllocError>
    ensures { IfOk result (λ d. datum_of d ≡ form.places_datum (words_of places.now)) }
{
    let mut bytes = Vec::new(alloc);
    put_word(&mut bytes, places.len() as u64)?;
    put_places(&mut bytes, places)?;
    Ok(Datum::ConstantBytes(bytes))
}

/// The leaves whose length or size is an extent.
pub fn size_datum(alloc: Global, extent: Extent, leaves: &[Leaf]) -> Result<Datum, AllocError>
    ensures { IfOk result (λ d. datum_of d ≡ form.size_datum (extent_of extent) (map leaf_of leaves.now)) }
{
    let mut places = Vec::new(alloc);
    put_sizes(&mut places, extent, leaves)?;
    datum_of_places(alloc, &places)
}

/// The leaves and their dimensions that have these bounds.
pub fn bounds_datum(alloc: Global, bounds: Bounds, leaves: &[Leaf]) -> Result<Datum, AllocError>
    ensures { IfOk result (λ d. datum_of d ≡ form.bounds_datum (bounds_of bounds) (map leaf_of leaves.now)) }
{
    let mut places = Vec::new(alloc);
    put_bounds(&mut places, bounds, leaves)?;
    datum_of_places(alloc, &places)
}
