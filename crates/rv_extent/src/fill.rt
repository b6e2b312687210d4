// Extents filled in at all places that share them: a lower bound in a2; an upper bound, a length or a size in a3.

ghost use Rattle.std.specs.Prelude.{◌≡◌, map, ◌++◌, OnOk};
ghost use Rattle.pli_typing.specs.TypedTree.{AreaLeaf, EvaluatedExtent};
ghost use Rattle.pli_typing.specs.TypedView.{bounds_of, extent_of, leaf_of, leaf_type_of};
ghost use Rattle.pli_coding.specs.Extents as form;
ghost use Rattle.pli_coding.specs.StaticForms as statics;
ghost use Rattle.pli_frames.specs.TakenView.{taken_of};
ghost use Rattle.rv_assembly.specs.View.{datum_of};
ghost use Rattle.rv_extent.specs.Pieces.{extent_loaded, greater_filled, is_greater_area};

use crate::words::{amount_kept, bytes_kept, signature_kept, signature_loaded};
use pli_frames::taken::Taken;
use pli_typing::typed::{Bounds, Extent, Leaf, LeafType};
use rv_address::number::constant;
use rv_assembly::code::Code;
use rv_assembly::item::{Datum, Item, Symbol};
use rv_assembly::registers::{a0, a1, a3};
use rv_data::places::{bounds_datum, size_datum};
use rv_meaning::instr::Register;
use std::alloc::{AllocError, Global};

/// An extent at these places, into the signature so far.
fn filled_in(code: &mut Code, taken: Taken, places: Datum) -> Result<(), AllocError>
    ensures { OnOk result (code.new ≡ code.old ++ form.filled_in (taken_of taken) (datum_of places)) }
{
    signature_loaded(code, taken, a0())?;
    code.push(Item::OffsetOf(a1(), Symbol::DataPlace(places)))?;
    code.service(3)?;
    signature_kept(code, taken)?;
    bytes_kept(code, taken)
}

/// A length or size of an evaluation, filled in or kept for REFER.
#[tactic(auto, using(crate::proofs::Steps::places_filled))]
pub fn size_filled(
    alloc: Global,
    code: &mut Code,
    taken: Taken,
    place: usize,
    is_kept: bool,
    leaves: &[Leaf],
) -> Result<(), AllocError>
    ensures { OnOk result (code.new ≡ code.old ++ form.filled_or_kept (taken_of taken) is_kept (statics.size_datum (EvaluatedExtent place) (map leaf_of leaves.now))) }
{
    if is_kept {
        return Ok(amount_kept(code, taken)?);
    }
    let places = size_datum(alloc, Extent::Evaluated(place), leaves)?;
    Ok(filled_in(code, taken, places)?)
}

/// Bounds, filled in, or the upper one kept for REFER.
#[tactic(auto, using(crate::proofs::Steps::places_filled))]
pub fn bounds_filled(
    alloc: Global,
    code: &mut Code,
    taken: Taken,
    bounds: Bounds,
    is_kept: bool,
    leaves: &[Leaf],
) -> Result<(), AllocError>
    ensures { OnOk result (code.new ≡ code.old ++ form.filled_or_kept (taken_of taken) is_kept (statics.bounds_datum (bounds_of bounds) (map leaf_of leaves.now))) }
{
    if is_kept {
        return Ok(amount_kept(code, taken)?);
    }
    let places = bounds_datum(alloc, bounds, leaves)?;
    Ok(filled_in(code, taken, places)?)
}

// ---- constant sizes of areas

/// Whether the table can't tell the size of an area.
fn is_greater_area(size: Extent) -> bool
    ensures { result ≡ is_greater_area (extent_of size) }
{
    match size {
        Extent::Constant(number) => number >= (1 << 20) + 16,
        Extent::Star => false,
        Extent::Refer => false,
        Extent::Evaluated(_) => false,
    }
}

/// A constant in a register; nothing for another extent.
fn extent_loaded(code: &mut Code, register: Register, extent: Extent) -> Result<(), AllocError>
    ensures { OnOk result (code.new ≡ code.old ++ extent_loaded register (extent_of extent)) }
{
    match extent {
        Extent::Constant(number) => constant(code, register, number),
        Extent::Star => Ok(()),
        Extent::Refer => Ok(()),
        Extent::Evaluated(_) => Ok(()),
    }
}

#[tactic(auto, using(crate::proofs::Steps::places_filled))]
fn greater_filled(
    alloc: Global,
    code: &mut Code,
    taken: Taken,
    leaves: &[Leaf],
    size: Extent,
) -> Result<(), AllocError>
    ensures { OnOk result (code.new ≡ code.old ++ greater_filled (taken_of taken) (map leaf_of leaves.now) (extent_of size)) }
{
    extent_loaded(code, a3(), size)?;
    let places = size_datum(alloc, size, leaves)?;
    Ok(filled_in(code, taken, places)?)
}

#[tactic(auto, using(crate::proofs::Steps::area_filled, crate::proofs::Steps::area_told))]
fn area_filled(
    alloc: Global,
    code: &mut Code,
    taken: Taken,
    leaves: &[Leaf],
    size: Extent,
) -> Result<(), AllocError>
    ensures { OnOk result (code.new ≡ code.old ++ form.constant_filled (taken_of taken) (map leaf_of leaves.now) (AreaLeaf (extent_of size))) }
{
    if is_greater_area(size) {
        return Ok(greater_filled(alloc, code, taken, leaves, size)?);
    }
    Ok(())
}

fn constant_filled(
    alloc: Global,
    code: &mut Code,
    taken: Taken,
    leaves: &[Leaf],
    kind: LeafType,
) -> Result<(), AllocError>
    ensures { OnOk result (code.new ≡ code.old ++ form.constant_filled (taken_of taken) (map leaf_of leaves.now) (leaf_type_of kind)) }
{
    match kind {
        LeafType::Area(size) => area_filled(alloc, code, taken, leaves, size),
        _ => Ok(()),
    }
}

/// The constant size of a variable that is one area, where the table can't tell it.
pub fn constants_filled(
    alloc: Global,
    code: &mut Code,
    taken: Taken,
    leaves: &[Leaf],
) -> Result<(), AllocError>
    ensures { OnOk result (code.new ≡ code.old ++ form.constants_filled (taken_of taken) (map leaf_of leaves.now)) }
{
    match leaves {
        [only] => constant_filled(alloc, code, taken, leaves, only.kind),
        _ => Ok(()),
    }
}
