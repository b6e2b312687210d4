// Built-in functions whose arguments aren't evaluated: bounds of arrays, counts of generations, addresses.

ghost use Rattle.std.specs.Prelude.{◌≡◌, map, IfOk, OnOk};
ghost use Rattle.pli_typing.specs.Builtins as B;
ghost use Rattle.pli_typing.specs.Converting as C;
ghost use Rattle.pli_typing.specs.TypedTree as Y;
ghost use Rattle.pli_typing.specs.TypedView.{class_of, number_of, pointer_of, reference_of};
ghost use Rattle.pli_operand.specs.Notes.{noted};
ghost use Rattle.pli_operand.specs.Shown.{designated_of, notes_of, operand_of, referent_of};
ghost use Rattle.pli_builtin.specs.Parts.{is_addressed};
ghost use Rattle.pli_builtin.specs.Shown.{bound_of};

use crate::argument::{Pair, bad_number, bad_pointer, constant_within, one, two};
use crate::node;
use crate::operator::{number_answer, pointer_answer};
use pli_language::expr::Place;
use pli_operand::notes::Notes;
use pli_operand::operand::{Designated, Operand, Referent};
use pli_operand::shape::{is_area, variable_of};
use pli_typing::typed::{Number, Pointer, Reference, StorageClass, Value};
use std::alloc::{AllocError, Global};

/// No variable has more dimensions.
const MOST_DIMENSIONS: u64 = 8;

/// LBOUND, HBOUND or DIM.
#[derive(Clone, Copy, PartialEq, Eq, Debug)]
pub enum Bound {
    Lower,
    Upper,
    Elements,
}

fn made_of_array<'a>(
    alloc: Global,
    which: Bound,
    array: Reference<'a>,
    dimension: u64,
) -> Result<Number<'a>, AllocError>
    ensures { IfOk result (λ n. number_of n ≡ bound_of which (reference_of array.entry) dimension) }
{
    match which {
        Bound::Lower => node::lower_bound(alloc, array, dimension),
        Bound::Upper => node::upper_bound(alloc, array, dimension),
        Bound::Elements => node::elements_of(alloc, array, dimension),
    }
}

/// A number of a dimension that the array hasn't.
#[tactic(auto, using(pli_operand::proofs::Noting::noting))]
fn no_dimension<'t, 'a>(
    alloc: Global,
    notes: &mut Notes,
    place: Place,
    _array: Reference,
) -> Result<Referent<'t, 'a>, AllocError>
    ensures noted { OnOk result (notes_of notes.new ≡ noted (notes_of notes.old) (B.number_given (B.bad_number place))) }
    ensures value { IfOk result (λ r. referent_of r ≡ (B.number_given (B.bad_number place)).value) }
{
    bad_number(alloc, notes, place)
}

#[tactic(auto, using(pli_operand::proofs::Noting::noting))]
fn dimension_of<'t, 'a>(
    alloc: Global,
    notes: &mut Notes,
    place: Place,
    which: Bound,
    array: Reference<'a>,
    dimension: Option<u64>,
) -> Result<Referent<'t, 'a>, AllocError>
    ensures noted { OnOk result (notes_of notes.new ≡ noted (notes_of notes.old) (B.number_given (B.dimension_of place (bound_of which) (reference_of array.entry) dimension))) }
    ensures value { IfOk result (λ r. referent_of r ≡ (B.number_given (B.dimension_of place (bound_of which) (reference_of array.entry) dimension)).value) }
{
    match dimension {
        None => no_dimension(alloc, notes, place, array),
        Some(dimension) => number_answer(alloc, made_of_array(alloc, which, array, dimension)?),
    }
}

/// The number of a dimension of an array that isn't known.
#[tactic(auto, using(pli_operand::proofs::Noting::noting), unfolding(pli_typing::specs::TypedView::number_of))]
fn any_dimension<'t, 'a>(
    alloc: Global,
    notes: &mut Notes,
    place: Place,
    dimension: Option<u64>,
) -> Result<Referent<'t, 'a>, AllocError>
    ensures noted { OnOk result (notes_of notes.new ≡ noted (notes_of notes.old) (B.number_given (B.dimension_of place (λ r m. Y.NumberConstant 0) C.no_reference dimension))) }
    ensures value { IfOk result (λ r. referent_of r ≡ (B.number_given (B.dimension_of place (λ r m. Y.NumberConstant 0) C.no_reference dimension)).value) }
{
    match dimension {
        None => bad_number(alloc, notes, place),
        Some(_) => number_answer(alloc, Number::Constant(0)),
    }
}

#[tactic(auto, using(pli_operand::proofs::Noting::noting))]
fn bound_of_array<'t, 'a>(
    alloc: Global,
    notes: &mut Notes,
    place: Place,
    which: Bound,
    designated: Designated<'_, 'a>,
    constant: Option<i128>,
) -> Result<Referent<'t, 'a>, AllocError>
    ensures noted { OnOk result (notes_of notes.new ≡ noted (notes_of notes.old) (B.number_given (B.of_array place (bound_of which) (C.Designates (designated_of designated.entry)) constant))) }
    ensures value { IfOk result (λ r. referent_of r ≡ (B.number_given (B.of_array place (bound_of which) (C.Designates (designated_of designated.entry)) constant)).value) }
{
    let dimension = constant_within(designated.dimensions as u64, constant);
    dimension_of(alloc, notes, place, which, designated.reference, dimension)
}

/// A value isn't an array.
#[tactic(auto, using(pli_operand::proofs::Noting::noting))]
fn no_array<'t, 'a>(
    alloc: Global,
    notes: &mut Notes,
    place: Place,
    _value: Value,
) -> Result<Referent<'t, 'a>, AllocError>
    ensures noted { OnOk result (notes_of notes.new ≡ noted (notes_of notes.old) (B.number_given (B.bad_number place))) }
    ensures value { IfOk result (λ r. referent_of r ≡ (B.number_given (B.bad_number place)).value) }
{
    bad_number(alloc, notes, place)
}

#[tactic(auto, using(pli_operand::proofs::Noting::noting))]
fn of_array<'t, 'a>(
    alloc: Global,
    notes: &mut Notes,
    place: Place,
    which: Bound,
    referent: Referent<'_, 'a>,
    constant: Option<i128>,
) -> Result<Referent<'t, 'a>, AllocError>
    ensures noted { OnOk result (notes_of notes.new ≡ noted (notes_of notes.old) (B.number_given (B.of_array place (bound_of which) (referent_of referent.entry) constant))) }
    ensures value { IfOk result (λ r. referent_of r ≡ (B.number_given (B.of_array place (bound_of which) (referent_of referent.entry) constant)).value) }
{
    match referent {
        Referent::Designates(array) => bound_of_array(alloc, notes, place, which, array, constant),
        Referent::NotKnown => {
            let dimension = constant_within(MOST_DIMENSIONS, constant);
            any_dimension(alloc, notes, place, dimension)
        }
        Referent::Gives(value) => no_array(alloc, notes, place, value),
        Referent::UnknownValue | Referent::EmptyArea | Referent::Nothing => {
            bad_number(alloc, notes, place)
        }
    }
}

/// LBOUND, HBOUND and DIM.
#[tactic(auto, using(pli_operand::proofs::Noting::noting, crate::proofs::Counted::bad_dimension))]
pub fn of_dimension<'t, 'a>(
    alloc: Global,
    notes: &mut Notes,
    place: Place,
    which: Bound,
    operands: Vec<Operand<'t, 'a>>,
) -> Result<Referent<'t, 'a>, AllocError>
    ensures noted { OnOk result (notes_of notes.new ≡ noted (notes_of notes.old) (B.number_given (B.of_dimension place (bound_of which) (map operand_of operands.entry.items)))) }
    ensures value { IfOk result (λ r. referent_of r ≡ (B.number_given (B.of_dimension place (bound_of which) (map operand_of operands.entry.items))).value) }
{
    match two(operands.into_iter()) {
        Some(
            Pair {
                first: array,
                second: dimension,
            },
        ) => {
            of_array(
                alloc,
                notes,
                place,
                which,
                array.referent,
                dimension.constant,
            )
        }
        None => bad_number(alloc, notes, place),
    }
}

fn is_controlled(class: StorageClass) -> bool
    ensures { result ≡ B.is_controlled (class_of class) }
{
    matches!(class, StorageClass::Controlled)
}

#[tactic(auto, using(pli_operand::proofs::Noting::noting), unfolding(pli_typing::specs::TypedView::number_of))]
fn allocations_of<'t, 'a>(
    alloc: Global,
    notes: &mut Notes,
    place: Place,
    referent: &Referent,
) -> Result<Referent<'t, 'a>, AllocError>
    ensures noted { OnOk result (notes_of notes.new ≡ noted (notes_of notes.old) (B.number_given (B.allocations_of place (referent_of referent.now)))) }
    ensures value { IfOk result (λ r. referent_of r ≡ (B.number_given (B.allocations_of place (referent_of referent.now))).value) }
{
    match referent {
        Referent::Designates(designated) => {
            let variable = variable_of(&designated.reference);
            if designated.is_whole && is_controlled(variable.class) {
                return number_answer(alloc, Number::AllocationsOf(variable));
            }
            bad_number(alloc, notes, place)
        }
        Referent::NotKnown => number_answer(alloc, Number::Constant(0)),
        Referent::Gives(_) | Referent::UnknownValue | Referent::EmptyArea | Referent::Nothing =>
            bad_number(alloc, notes, place),
    }
}

/// ALLOCATION.
#[tactic(auto, using(pli_operand::proofs::Noting::noting, crate::proofs::Counted::bad_of_controlled))]
pub fn of_controlled<'t, 'a>(
    alloc: Global,
    notes: &mut Notes,
    place: Place,
    operands: Vec<Operand>,
) -> Result<Referent<'t, 'a>, AllocError>
    ensures noted { OnOk result (notes_of notes.new ≡ noted (notes_of notes.old) (B.number_given (B.of_controlled place (map operand_of operands.entry.items)))) }
    ensures value { IfOk result (λ r. referent_of r ≡ (B.number_given (B.of_controlled place (map operand_of operands.entry.items))).value) }
{
    match one(operands.into_iter()) {
        Some(operand) => allocations_of(alloc, notes, place, &operand.referent),
        None => bad_number(alloc, notes, place),
    }
}

/// The name of a parameter's generation, or of a CONTROLLED one, can't be had.
fn has_name(class: StorageClass) -> bool
    ensures { result ≡ B.has_name (class_of class) }
{
    match class {
        StorageClass::Automatic | StorageClass::Static | StorageClass::Based => true,
        StorageClass::Parameter | StorageClass::Controlled => false,
    }
}

/// A generation that has an address.
fn is_addressed(designated: &Designated) -> bool
    ensures { result ≡ is_addressed (designated_of designated.now) }
{
    designated.is_whole
        && has_name(variable_of(&designated.reference).class)
        && !is_area(designated)
}

/// What has no address.
#[tactic(auto, using(pli_operand::proofs::Noting::noting))]
fn no_address<'t, 'a>(
    alloc: Global,
    notes: &mut Notes,
    place: Place,
    _designated: Designated,
) -> Result<Referent<'t, 'a>, AllocError>
    ensures noted { OnOk result (notes_of notes.new ≡ noted (notes_of notes.old) (B.pointer_given (B.bad_pointer place))) }
    ensures value { IfOk result (λ r. referent_of r ≡ (B.pointer_given (B.bad_pointer place)).value) }
{
    bad_pointer(alloc, notes, place)
}

#[tactic(auto, using(pli_operand::proofs::Noting::noting))]
fn address_of_part<'t, 'a>(
    alloc: Global,
    notes: &mut Notes,
    place: Place,
    designated: Designated<'_, 'a>,
) -> Result<Referent<'t, 'a>, AllocError>
    ensures noted { OnOk result (notes_of notes.new ≡ noted (notes_of notes.old) (B.pointer_given (B.address_of place (C.Designates (designated_of designated.entry))))) }
    ensures value { IfOk result (λ r. referent_of r ≡ (B.pointer_given (B.address_of place (C.Designates (designated_of designated.entry)))).value) }
{
    if is_addressed(&designated) {
        return pointer_answer(alloc, node::address_of(alloc, designated.reference)?);
    }
    no_address(alloc, notes, place, designated)
}

/// A value has no address.
#[tactic(auto, using(pli_operand::proofs::Noting::noting))]
fn no_variable<'t, 'a>(
    alloc: Global,
    notes: &mut Notes,
    place: Place,
    _value: Value,
) -> Result<Referent<'t, 'a>, AllocError>
    ensures noted { OnOk result (notes_of notes.new ≡ noted (notes_of notes.old) (B.pointer_given (B.bad_pointer place))) }
    ensures value { IfOk result (λ r. referent_of r ≡ (B.pointer_given (B.bad_pointer place)).value) }
{
    bad_pointer(alloc, notes, place)
}

#[tactic(auto, using(pli_operand::proofs::Noting::noting), unfolding(pli_typing::specs::TypedView::pointer_of))]
fn address_of<'t, 'a>(
    alloc: Global,
    notes: &mut Notes,
    place: Place,
    referent: Referent<'_, 'a>,
) -> Result<Referent<'t, 'a>, AllocError>
    ensures noted { OnOk result (notes_of notes.new ≡ noted (notes_of notes.old) (B.pointer_given (B.address_of place (referent_of referent.entry)))) }
    ensures value { IfOk result (λ r. referent_of r ≡ (B.pointer_given (B.address_of place (referent_of referent.entry))).value) }
{
    match referent {
        Referent::Designates(designated) => address_of_part(alloc, notes, place, designated),
        Referent::NotKnown => pointer_answer(alloc, Pointer::Null),
        Referent::Gives(value) => no_variable(alloc, notes, place, value),
        Referent::UnknownValue | Referent::EmptyArea | Referent::Nothing => {
            bad_pointer(alloc, notes, place)
        }
    }
}

/// ADDR.
#[tactic(auto, using(pli_operand::proofs::Noting::noting, crate::proofs::Counted::bad_address))]
pub fn address<'t, 'a>(
    alloc: Global,
    notes: &mut Notes,
    place: Place,
    operands: Vec<Operand<'t, 'a>>,
) -> Result<Referent<'t, 'a>, AllocError>
    ensures noted { OnOk result (notes_of notes.new ≡ noted (notes_of notes.old) (B.pointer_given (B.address place (map operand_of operands.entry.items)))) }
    ensures value { IfOk result (λ r. referent_of r ≡ (B.pointer_given (B.address place (map operand_of operands.entry.items))).value) }
{
    match one(operands.into_iter()) {
        Some(operand) => address_of(alloc, notes, place, operand.referent),
        None => bad_pointer(alloc, notes, place),
    }
}
