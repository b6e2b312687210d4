// The code of locators: POINTER values, in the four words of the frame behind the temporaries in use or in a place of
// the frame, and OFFSET values, in a0.

ghost use Rattle.std.specs.Prelude.{◌≡◌, ◌++◌, OnOk};
ghost use Rattle.pli_language.specs.View.{option_of};
ghost use Rattle.pli_typing.specs.TypedTree as Y;
ghost use Rattle.pli_typing.specs.TypedView.{arguments_of, offset_of, pointer_of, reference_of, variable_of};
ghost use Rattle.pli_coding.specs.Expressions as form;
ghost use Rattle.pli_coding.specs.Expressions.{standing_name};
ghost use Rattle.pli_frames.specs.TakenView.{taken_of};
ghost use Rattle.rv_address.specs.Around.{environment_of};
ghost use Rattle.rv_address.specs.Places.{name_of};
ghost use Rattle.rv_operation.specs.Pieces.{name_kept, offset_to_name, result_kept};
ghost use Rattle.rv_operation.specs.Standing.{locator_in, place_of};
ghost use Rattle.rv_expr.specs.Forms.{address_kept, names_told, null_told, offset_told, operand_kept};
ghost use Rattle.rv_expr.specs.Forms.{pointers_compared};

use crate::expression::{call_code, loaded_code, locator_code, reference_code};
use pli_frames::taken::Taken;
use pli_typing::typed::{Arguments, Callee, Offset, Pointer, Reference, Variable};
use rv_address::environment::Environment;
use rv_address::names::NamePlace;
use rv_address::transfer::Address;
use rv_assembly::code::Code;
use rv_assembly::registers::a0;
use rv_operation::pointer::{
    name_to_offset, null_compared, null_kept, offset_to_name, places_compared, result_kept,
    waiting_address, waiting_place,
};
use rv_operation::reference::{name_kept, part_named, standing_named};
use rv_operation::standing::{
    is_null, left_standing, own_standing, place_or_waiting, standing_locator, standing_name,
};
use std::alloc::{AllocError, Global};

/// Whether two names are equal, or whether they aren't.
#[cycle(walk)]
#[inline(never)]
#[tactic(auto, unfolding(crate::specs::Forms::pointers_compared))]
pub(crate) fn pointers_compared(
    alloc: Global,
    code: &mut Code,
    environment: &Environment,
    taken: Taken,
    equal: bool,
    left: &Pointer,
    right: &Pointer,
) -> Result<(), AllocError>
    ensures { OnOk result (code.new ≡ code.old ++ pointers_compared (environment_of environment.now)
        (taken_of taken) equal (pointer_of left.now) (pointer_of right.now)) }
{
    if is_null(right) {
        let place = own_standing(environment, left)?;
        return null_told(alloc, code, environment, taken, equal, left, place);
    }
    let place = left_standing(environment, left, right)?;
    let other = own_standing(environment, right)?;
    names_told(
        alloc,
        code,
        environment,
        taken,
        equal,
        left,
        right,
        place,
        other,
    )
}

/// Whether a name is null, or whether it isn't.
#[cycle(walk)]
#[tactic(auto, using(crate::proofs::Walks::compared))]
fn null_told(
    alloc: Global,
    code: &mut Code,
    environment: &Environment,
    taken: Taken,
    equal: bool,
    pointer: &Pointer,
    place: Option<Address>,
) -> Result<(), AllocError>
    ensures { OnOk result (code.new ≡ code.old ++ null_told (environment_of environment.now) (taken_of taken) equal
        (pointer_of pointer.now) (option_of place_of place)) }
{
    operand_kept(alloc, code, environment, taken, pointer, place)?;
    let there = place_or_waiting(taken, place)?;
    null_compared(code, equal, there)
}

/// Whether two names are equal, or whether they aren't, each where it stands, or else waits.
#[cycle(walk)]
#[tactic(auto, using(crate::proofs::Walks::compared))]
fn names_told(
    alloc: Global,
    code: &mut Code,
    environment: &Environment,
    taken: Taken,
    equal: bool,
    left: &Pointer,
    right: &Pointer,
    place: Option<Address>,
    other: Option<Address>,
) -> Result<(), AllocError>
    ensures { OnOk result (code.new ≡ code.old ++ names_told (environment_of environment.now) (taken_of taken) equal
        (pointer_of left.now) (pointer_of right.now) (option_of place_of place) (option_of place_of other)) }
{
    let behind = taken.with_words(4)?;
    operand_kept(alloc, code, environment, taken, left, place)?;
    operand_kept(alloc, code, environment, behind, right, other)?;
    let first = place_or_waiting(taken, place)?;
    let second = place_or_waiting(behind, other)?;
    places_compared(code, equal, first, second)
}

/// A name that is compared: where it doesn't stand in the frame, in the words behind the temporaries in use.
#[cycle(walk)]
#[tactic(auto, using(crate::proofs::Walks::compared))]
fn operand_kept(
    alloc: Global,
    code: &mut Code,
    environment: &Environment,
    taken: Taken,
    pointer: &Pointer,
    place: Option<Address>,
) -> Result<(), AllocError>
    ensures { OnOk result (code.new ≡ code.old ++ operand_kept (environment_of environment.now) (taken_of taken)
        (pointer_of pointer.now) (option_of place_of place)) }
{
    match place {
        Some(_) => Ok(()),
        None => pointer_code(alloc, code, environment, taken, pointer),
    }
}

/// A POINTER value, in the words behind the temporaries in use.
#[cycle(walk)]
pub fn pointer_code(
    alloc: Global,
    code: &mut Code,
    environment: &Environment,
    taken: Taken,
    pointer: &Pointer,
) -> Result<(), AllocError>
    ensures { OnOk result (code.new ≡ code.old ++ form.pointer_code (environment_of environment.now)
        (taken_of taken) (pointer_of pointer.now)) }
{
    let to = waiting_address(taken)?;
    pointer_to(alloc, code, environment, taken, to, pointer)
}

/// A POINTER value, into a place of the running frame, which is written last.
#[cycle(walk)]
#[tactic(auto, using(crate::proofs::Walks::pointers))]
pub fn pointer_to(
    alloc: Global,
    code: &mut Code,
    environment: &Environment,
    taken: Taken,
    to: Address,
    pointer: &Pointer,
) -> Result<(), AllocError>
    ensures { OnOk result (code.new ≡ code.old ++ form.pointer_to (environment_of environment.now)
        (taken_of taken) to.displacement (pointer_of pointer.now)) }
{
    match pointer {
        Pointer::Null => null_kept(code, to),
        Pointer::In(reference) => pointer_in(alloc, code, environment, taken, to, reference),
        Pointer::From { callee, arguments } => {
            pointer_from(alloc, code, environment, taken, to, *callee, arguments)
        }
        Pointer::AddressOf(reference) => {
            address_code(alloc, code, environment, taken, to, reference)
        }
        Pointer::Into { offset, area } => {
            pointer_into(alloc, code, environment, taken, to, offset, area)
        }
    }
}

/// The name in a POINTER variable.
#[cycle(walk)]
#[inline(never)]
#[tactic(auto, using(crate::proofs::Walks::parts))]
fn pointer_in(
    alloc: Global,
    code: &mut Code,
    environment: &Environment,
    taken: Taken,
    to: Address,
    reference: &Reference,
) -> Result<(), AllocError>
    ensures { OnOk result (code.new ≡ code.old ++
        (form.reference_code (environment_of environment.now) (taken_of taken) (reference_of reference.now)
        ++ name_kept (environment_of environment.now) to.displacement
        (reference_of reference.now))) }
{
    reference_code(alloc, code, environment, taken, reference)?;
    name_kept(code, environment, to, reference)
}

/// The name that a function returns.
#[cycle(walk)]
#[inline(never)]
#[tactic(auto, using(crate::proofs::Walks::parts))]
fn pointer_from(
    alloc: Global,
    code: &mut Code,
    environment: &Environment,
    taken: Taken,
    to: Address,
    callee: Callee,
    arguments: &Arguments,
) -> Result<(), AllocError>
    ensures { OnOk result (code.new ≡ code.old ++ (form.call_code (environment_of environment.now) (taken_of taken)
        (Y.Calling callee.procedure callee.level (arguments_of arguments.now)) ++ result_kept to.displacement)) }
{
    call_code(alloc, code, environment, taken, callee, arguments)?;
    result_kept(code, to)
}

/// ADDR of a reference.
#[cycle(walk)]
#[inline(never)]
#[tactic(auto, using(crate::proofs::Walks::parts))]
fn address_code(
    alloc: Global,
    code: &mut Code,
    environment: &Environment,
    taken: Taken,
    to: Address,
    reference: &Reference,
) -> Result<(), AllocError>
    ensures { OnOk result (code.new ≡ code.old ++ address_kept (environment_of environment.now)
        (taken_of taken) to.displacement (reference_of reference.now)
        (locator_in (environment_of environment.now) (reference_of reference.now))) }
{
    let standing = standing_locator(environment, reference)?;
    address_kept(alloc, code, environment, taken, to, reference, standing)
}

/// The name of what an OFFSET value tells in an area.
#[cycle(walk)]
#[inline(never)]
#[tactic(auto, using(crate::proofs::Walks::parts))]
fn pointer_into(
    alloc: Global,
    code: &mut Code,
    environment: &Environment,
    taken: Taken,
    to: Address,
    offset: &Offset,
    area: &Variable,
) -> Result<(), AllocError>
    ensures { OnOk result (code.new ≡ code.old ++ (form.offset_code (environment_of environment.now) (taken_of taken)
        (offset_of offset.now) ++ offset_to_name (environment_of environment.now) (taken_of taken) to.displacement
        (variable_of area.now))) }
{
    offset_code(alloc, code, environment, taken, offset)?;
    offset_named(code, environment, taken, to, area)
}

#[inline(never)]
fn offset_named(
    code: &mut Code,
    environment: &Environment,
    taken: Taken,
    to: Address,
    area: &Variable,
) -> Result<(), AllocError>
    ensures { OnOk result (code.new ≡ code.old ++ offset_to_name (environment_of environment.now) (taken_of taken)
        to.displacement (variable_of area.now)) }
{
    offset_to_name(code, environment, taken, to, *area)
}

/// ADDR of a reference, where its locator's name stands, or else waits.
#[cycle(walk)]
#[tactic(auto, using(crate::proofs::Walks::standing))]
fn address_kept(
    alloc: Global,
    code: &mut Code,
    environment: &Environment,
    taken: Taken,
    to: Address,
    reference: &Reference,
    standing: Option<NamePlace>,
) -> Result<(), AllocError>
    ensures { OnOk result (code.new ≡ code.old ++ address_kept (environment_of environment.now)
        (taken_of taken) to.displacement (reference_of reference.now) (option_of name_of standing)) }
{
    match standing {
        Some(name) => standing_named(code, environment, name, to, reference),
        None => {
            locator_code(alloc, code, environment, taken, reference)?;
            part_named(code, environment, taken, to, reference)
        }
    }
}

/// An OFFSET value, in a0.
#[cycle(walk)]
#[tactic(auto, using(crate::proofs::Walks::offsets))]
pub fn offset_code(
    alloc: Global,
    code: &mut Code,
    environment: &Environment,
    taken: Taken,
    offset: &Offset,
) -> Result<(), AllocError>
    ensures { OnOk result (code.new ≡ code.old ++ form.offset_code (environment_of environment.now) (taken_of taken)
        (offset_of offset.now)) }
{
    match offset {
        Offset::Null => code.constant(a0(), -1),
        Offset::In(reference) => loaded_code(alloc, code, environment, taken, reference),
        Offset::From { callee, arguments } => {
            call_code(alloc, code, environment, taken, *callee, arguments)
        }
        Offset::Into { pointer, area } => {
            offset_into(alloc, code, environment, taken, pointer, *area)
        }
    }
}

/// The offset in an area of what a name tells.
#[cycle(walk)]
#[inline(never)]
#[tactic(auto, using(crate::proofs::Walks::parts))]
fn offset_into(
    alloc: Global,
    code: &mut Code,
    environment: &Environment,
    taken: Taken,
    pointer: &Pointer,
    area: Variable,
) -> Result<(), AllocError>
    ensures { OnOk result (code.new ≡ code.old ++ offset_told (environment_of environment.now) (taken_of taken)
        (pointer_of pointer.now) (variable_of area)
        (standing_name (environment_of environment.now) (pointer_of pointer.now))) }
{
    let standing = standing_name(environment, pointer)?;
    offset_told(alloc, code, environment, taken, pointer, area, standing)
}

/// The offset of a name in an area, where it stands, or else waits.
#[cycle(walk)]
#[tactic(auto, using(crate::proofs::Walks::standing))]
fn offset_told(
    alloc: Global,
    code: &mut Code,
    environment: &Environment,
    taken: Taken,
    pointer: &Pointer,
    area: Variable,
    standing: Option<NamePlace>,
) -> Result<(), AllocError>
    ensures { OnOk result (code.new ≡ code.old ++ offset_told (environment_of environment.now) (taken_of taken)
        (pointer_of pointer.now) (variable_of area) (option_of name_of standing)) }
{
    match standing {
        Some(name) => name_to_offset(code, environment, taken, name, area),
        None => {
            pointer_code(alloc, code, environment, taken, pointer)?;
            let name = waiting_place(environment, taken)?;
            name_to_offset(code, environment, taken, name, area)
        }
    }
}
