// Values into elements. A value waits while its target is reached, or stays where it is.

ghost use Rattle.std.specs.Prelude.{◌≡◌, ◌++◌, OnOk, IfOk};
ghost use Rattle.pli_typing.specs.TypedView.{reference_of, stored_of, part_of, pointer_of, variable_of};
ghost use Rattle.pli_coding.specs.Storing as form;
ghost use Rattle.pli_frames.specs.TakenView.{taken_of};
ghost use Rattle.rv_address.specs.Around.{environment_of};
ghost use Rattle.rv_assignment.specs.Pieces.{name_kept, name_put, text_kept, top_put, value_kept, value_stored, word_put, pointer_assigned, tells_no_extent};
ghost use Rattle.pli_language.specs.View.{option_of};
ghost use Rattle.rv_operation.specs.Standing.{place_of};

use pli_frames::taken::Taken;
use pli_typing::typed::{Pointer, Reference, Stored};
use rv_address::environment::Environment;
use rv_address::leaf::is_direct;
use rv_address::referred::is_referred;
use rv_address::simple::are_simple;
use rv_address::taken::{fetch, save};
use rv_address::transfer::{Address, name_copied, stored, text_stored};
use rv_assembly::code::Code;
use rv_assembly::registers::a0;
use rv_expr::expression::{reference_code, stored_code};
use rv_expr::locator::{pointer_code, pointer_to};
use rv_operation::pointer::waiting_address;
use rv_operation::reference::{address_in, type_in};
use rv_operation::standing::{own_name, standing_in};
use std::alloc::{AllocError, Global};

/// Whether a target is reached by code that leaves a0 alone.
#[tactic(auto, using(crate::proofs::Walks::near))]
fn is_near(environment: &Environment, target: &Reference) -> Result<bool, AllocError>
    ensures { IfOk result (λ b. b ≡ form.is_near (environment_of environment.now) (reference_of target.now)) }
{
    match target {
        Reference::Plain {
            variable,
            subscripts,
            ..
        } => {
            if !is_direct(environment, *variable)? {
                return Ok(false);
            }
            are_simple(environment, subscripts)
        }
        Reference::Located { .. } => Ok(false),
    }
}

/// The number, bit or OFFSET value in a0, to an element that was reached.
#[tactic(auto, unfolding(crate::specs::Pieces::value_stored))]
fn value_stored(
    code: &mut Code,
    environment: &Environment,
    target: &Reference,
) -> Result<(), AllocError>
    ensures { OnOk result (code.new ≡ code.old ++ value_stored (environment_of environment.now) (reference_of target.now)) }
{
    let kind = type_in(environment, target)?;
    let address = address_in(environment, target)?;
    stored(code, kind, a0(), address)
}

/// The one that waits.
#[tactic(auto, unfolding(crate::specs::Pieces::value_kept))]
fn value_kept(
    code: &mut Code,
    environment: &Environment,
    taken: Taken,
    target: &Reference,
) -> Result<(), AllocError>
    ensures { OnOk result (code.new ≡ code.old ++ value_kept (environment_of environment.now) (taken_of taken) (reference_of target.now)) }
{
    fetch(code, a0(), taken)?;
    value_stored(code, environment, target)
}

/// The top text, to an element that was reached.
#[tactic(auto, unfolding(crate::specs::Pieces::text_kept))]
fn text_kept(
    code: &mut Code,
    environment: &Environment,
    target: &Reference,
) -> Result<(), AllocError>
    ensures { OnOk result (code.new ≡ code.old ++ text_kept (environment_of environment.now) (reference_of target.now)) }
{
    let kind = type_in(environment, target)?;
    let address = address_in(environment, target)?;
    text_stored(code, kind, address)
}

/// The name that waits, to an element that was reached.
#[tactic(auto, unfolding(crate::specs::Pieces::name_kept))]
fn name_kept(
    code: &mut Code,
    environment: &Environment,
    taken: Taken,
    target: &Reference,
) -> Result<(), AllocError>
    ensures { OnOk result (code.new ≡ code.old ++ name_kept (environment_of environment.now) (taken_of taken) (reference_of target.now)) }
{
    let from = waiting_address(taken)?;
    let to = address_in(environment, target)?;
    name_copied(code, from, to)
}

/// A number, a bit or an OFFSET value in a0, to an element; it waits unless that is near.
#[tactic(auto, using(crate::proofs::Walks::scalars))]
pub fn word_stored(
    alloc: Global,
    code: &mut Code,
    environment: &Environment,
    taken: Taken,
    target: &Reference,
) -> Result<(), AllocError>
    ensures { OnOk result (code.new ≡ code.old ++ word_put (environment_of environment.now) (taken_of taken) (reference_of target.now)) }
{
    if is_near(environment, target)? {
        reference_code(alloc, code, environment, taken, target)?;
        return value_stored(code, environment, target);
    }
    save(code, a0(), taken)?;
    reference_code(alloc, code, environment, taken.with_number()?, target)?;
    value_kept(code, environment, taken, target)
}

/// The top text, to an element.
#[tactic(auto, using(crate::proofs::Walks::scalars))]
pub fn top_stored(
    alloc: Global,
    code: &mut Code,
    environment: &Environment,
    taken: Taken,
    target: &Reference,
) -> Result<(), AllocError>
    ensures { OnOk result (code.new ≡ code.old ++ top_put (environment_of environment.now) (taken_of taken) (reference_of target.now)) }
{
    reference_code(alloc, code, environment, taken, target)?;
    text_kept(code, environment, target)
}

/// The name in the words behind the temporaries in use, to an element.
#[tactic(auto, using(crate::proofs::Walks::scalars))]
pub fn name_stored(
    alloc: Global,
    code: &mut Code,
    environment: &Environment,
    taken: Taken,
    target: &Reference,
) -> Result<(), AllocError>
    ensures { OnOk result (code.new ≡ code.old ++ name_put (environment_of environment.now) (taken_of taken) (reference_of target.now)) }
{
    reference_code(alloc, code, environment, taken.with_words(4)?, target)?;
    name_kept(code, environment, taken, target)
}

/// A value that was evaluated, to an element, by the value's kind.
#[tactic(auto, using(crate::proofs::Walks::kinds))]
pub fn stored_into(
    alloc: Global,
    code: &mut Code,
    environment: &Environment,
    taken: Taken,
    target: &Reference,
    source: &Stored,
) -> Result<(), AllocError>
    ensures { OnOk result (code.new ≡ code.old ++ form.stored_into (environment_of environment.now) (taken_of taken) (reference_of target.now) (stored_of source.now)) }
{
    match source {
        Stored::Number { .. } => word_stored(alloc, code, environment, taken, target),
        Stored::Text(_) => top_stored(alloc, code, environment, taken, target),
        Stored::Bit(_) => word_stored(alloc, code, environment, taken, target),
        Stored::Pointer(_) => name_stored(alloc, code, environment, taken, target),
        Stored::Offset(_) => word_stored(alloc, code, environment, taken, target),
    }
}

/// A value to an element.
pub fn assigned_code(
    alloc: Global,
    code: &mut Code,
    environment: &Environment,
    taken: Taken,
    target: &Reference,
    source: &Stored,
) -> Result<(), AllocError>
    ensures { OnOk result (code.new ≡ code.old ++ form.assigned_code (environment_of environment.now) (taken_of taken) (reference_of target.now) (stored_of source.now)) }
{
    stored_code(alloc, code, environment, taken, source)?;
    stored_into(alloc, code, environment, taken, target, source)
}

// ---- assignment statements

/// Whether no extent is told of a part by REFER.
#[tactic(auto, using(crate::proofs::Walks::written))]
fn tells_no_extent(environment: &Environment, reference: &Reference) -> Result<bool, AllocError>
    ensures { IfOk result (λ b. b ≡ tells_no_extent (environment_of environment.now) (reference_of reference.now)) }
{
    match reference {
        Reference::Plain { variable, part, .. } => Ok(!is_referred(environment, *variable, *part)?),
        Reference::Located { variable, part, .. } => Ok(!is_referred(
            environment,
            *variable,
            *part,
        )?),
    }
}

/// Whether nothing is tested once a name was written.
#[tactic(auto, using(crate::proofs::Walks::written))]
fn is_written_last(environment: &Environment, source: &Pointer) -> Result<bool, AllocError>
    ensures { IfOk result (λ b. b ≡ form.is_written_last (environment_of environment.now) (pointer_of source.now)) }
{
    match source {
        Pointer::Null => Ok(true),
        Pointer::In(_) => Ok(true),
        Pointer::From { .. } => Ok(true),
        Pointer::AddressOf(reference) => tells_no_extent(environment, reference),
        Pointer::Into { .. } => Ok(true),
    }
}

/// The place of a POINTER variable of the running frame, where a name may be written at once.
fn place_assigned(
    environment: &Environment,
    target: &Reference,
    source: &Pointer,
) -> Result<Option<Address>, AllocError>
    ensures { IfOk result (λ place. option_of place_of place ≡ form.place_assigned (environment_of environment.now) (reference_of target.now) (pointer_of source.now)) }
{
    if !is_written_last(environment, source)? {
        return Ok(None);
    }
    let standing = standing_in(environment, target)?;
    Ok(own_name(environment, standing))
}

/// A POINTER value, into its place, or else to an element.
#[tactic(auto, using(crate::proofs::Walks::assignments))]
fn pointer_assigned(
    alloc: Global,
    code: &mut Code,
    environment: &Environment,
    taken: Taken,
    target: &Reference,
    source: &Pointer,
    place: Option<Address>,
) -> Result<(), AllocError>
    ensures { OnOk result (code.new ≡ code.old ++ pointer_assigned (environment_of environment.now) (taken_of taken) (reference_of target.now) (pointer_of source.now) (option_of place_of place)) }
{
    match place {
        Some(to) => pointer_to(alloc, code, environment, taken, to, source),
        None => {
            pointer_code(alloc, code, environment, taken, source)?;
            name_stored(alloc, code, environment, taken, target)
        }
    }
}

/// A value to an element, as an assignment statement stores it.
#[tactic(auto, using(crate::proofs::Walks::assignments))]
pub fn assignment_code(
    alloc: Global,
    code: &mut Code,
    environment: &Environment,
    taken: Taken,
    target: &Reference,
    source: &Stored,
) -> Result<(), AllocError>
    ensures { OnOk result (code.new ≡ code.old ++ form.assignment_code (environment_of environment.now) (taken_of taken) (reference_of target.now) (stored_of source.now)) }
{
    match source {
        Stored::Number { .. } => assigned_code(alloc, code, environment, taken, target, source),
        Stored::Text(_) => assigned_code(alloc, code, environment, taken, target, source),
        Stored::Bit(_) => assigned_code(alloc, code, environment, taken, target, source),
        Stored::Pointer(pointer) => {
            let place = place_assigned(environment, target, pointer)?;
            pointer_assigned(alloc, code, environment, taken, target, pointer, place)
        }
        Stored::Offset(_) => assigned_code(alloc, code, environment, taken, target, source),
    }
}
