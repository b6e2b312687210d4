// POINTER variables that are reached without code: where the name in one stands, and how long that is the locator's.

ghost use Rattle.std.specs.Prelude.{◌≡◌, is_some, unwrap_or, IfOk};
ghost use Rattle.pli_language.specs.View.{option_of};
ghost use Rattle.pli_typing.specs.TypedView.{numbers_of, part_of, pointer_of, reference_of, variable_of};
ghost use Rattle.pli_coding.specs.Expressions as form;
ghost use Rattle.pli_coding.specs.Locating.{own_name, waiting_name};
ghost use Rattle.pli_frames.specs.TakenView.{taken_of};
ghost use Rattle.rv_address.specs.Around.{environment_of};
ghost use Rattle.rv_address.specs.Places.{name_of};
ghost use Rattle.rv_operation.specs.Standing.{leaf_standing, locator_in, place_of};

use crate::pointer::waiting_address;
use pli_frames::taken::Taken;
use pli_typing::typed::{Numbers, Pointer, Reference, Variable};
use rv_address::direct::direct_name;
use rv_address::environment::Environment;
use rv_address::leaf::is_direct;
use rv_address::names::NamePlace;
use rv_address::simple::are_simple;
use rv_address::transfer::{Address, in_own_frame};
use std::alloc::AllocError;

fn leaf_standing(
    environment: &Environment,
    variable: Variable,
    leaf: usize,
) -> Result<Option<NamePlace>, AllocError>
    ensures { IfOk result (λ n. option_of name_of n ≡ leaf_standing (environment_of environment.now) (variable_of variable) leaf) }
{
    if !is_direct(environment, variable)? {
        return Ok(None);
    }
    let name = direct_name(environment, variable, leaf)?;
    Ok(Some(name))
}

/// Where the name in a POINTER variable stands, which is reached without code and without subscripts.
#[tactic(auto, using(crate::proofs::Stands::references))]
pub fn standing_in(
    environment: &Environment,
    reference: &Reference,
) -> Result<Option<NamePlace>, AllocError>
    ensures { IfOk result (λ n. option_of name_of n ≡ form.standing_in (environment_of environment.now) (reference_of reference.now)) }
{
    match reference {
        Reference::Plain {
            variable,
            part,
            subscripts,
        } => match subscripts {
            Numbers::End => leaf_standing(environment, *variable, part.first),
            Numbers::More { .. } => Ok(None),
        },
        Reference::Located { .. } => Ok(None),
    }
}

/// The same of a POINTER expression.
#[tactic(auto, using(crate::proofs::Stands::pointers))]
pub fn standing_name(
    environment: &Environment,
    pointer: &Pointer,
) -> Result<Option<NamePlace>, AllocError>
    ensures { IfOk result (λ n. option_of name_of n ≡ form.standing_name (environment_of environment.now) (pointer_of pointer.now)) }
{
    match pointer {
        Pointer::Null => Ok(None),
        Pointer::In(reference) => standing_in(environment, reference),
        Pointer::From { .. } => Ok(None),
        Pointer::AddressOf(_) => Ok(None),
        Pointer::Into { .. } => Ok(None),
    }
}

/// The same of the locator of a reference that has one.
#[tactic(auto, using(crate::proofs::Stands::references))]
pub fn standing_locator(
    environment: &Environment,
    reference: &Reference,
) -> Result<Option<NamePlace>, AllocError>
    ensures { IfOk result (λ n. option_of name_of n ≡ locator_in (environment_of environment.now) (reference_of reference.now)) }
{
    match reference {
        Reference::Plain { .. } => Ok(None),
        Reference::Located { locator, .. } => standing_name(environment, locator),
    }
}

/// Where the name in a locator stands, which is the same once these subscripts were evaluated.
pub fn standing_behind(
    environment: &Environment,
    locator: &Pointer,
    subscripts: &Numbers,
) -> Result<Option<NamePlace>, AllocError>
    ensures { IfOk result (λ n. option_of name_of n ≡ form.standing_behind (environment_of environment.now) (pointer_of locator.now) (numbers_of subscripts.now)) }
{
    if !are_simple(environment, subscripts)? {
        return Ok(None);
    }
    standing_name(environment, locator)
}

/// The place of a name in the running frame.
pub fn own_name(environment: &Environment, name: Option<NamePlace>) -> Option<Address>
    ensures { option_of place_of result ≡ own_name (environment_of environment.now) (option_of name_of name) }
{
    match name {
        Some(NamePlace::Frame { level, place }) => if level == environment.level {
            Some(in_own_frame(place))
        } else {
            None
        },
        Some(NamePlace::List { .. }) => None,
        Some(NamePlace::Static { .. }) => None,
        Some(NamePlace::InStatic { .. }) => None,
        None => None,
    }
}

// ---- names that are compared

/// Whether it is NULL.
#[tactic(auto, using(crate::proofs::Stands::nulls))]
pub fn is_null(pointer: &Pointer) -> bool
    ensures { result ≡ form.is_null (pointer_of pointer.now) }
{
    match pointer {
        Pointer::Null => true,
        Pointer::In(_) => false,
        Pointer::From { .. } => false,
        Pointer::AddressOf(_) => false,
        Pointer::Into { .. } => false,
    }
}

/// The place in the running frame of a name that is compared, if it stands there.
pub fn own_standing(
    environment: &Environment,
    pointer: &Pointer,
) -> Result<Option<Address>, AllocError>
    ensures { IfOk result (λ place. option_of place_of place ≡ form.own_standing (environment_of environment.now) (pointer_of pointer.now)) }
{
    let standing = standing_name(environment, pointer)?;
    Ok(own_name(environment, standing))
}

fn is_standing(environment: &Environment, pointer: &Pointer) -> Result<bool, AllocError>
    ensures { IfOk result (λ b. b ≡ is_some (form.standing_name (environment_of environment.now) (pointer_of pointer.now))) }
{
    match standing_name(environment, pointer)? {
        Some(_) => Ok(true),
        None => Ok(false),
    }
}

/// The same of a left operand, which nothing must change while the right one is evaluated.
pub fn left_standing(
    environment: &Environment,
    left: &Pointer,
    right: &Pointer,
) -> Result<Option<Address>, AllocError>
    ensures { IfOk result (λ place. option_of place_of place ≡ form.left_standing (environment_of environment.now) (pointer_of left.now) (pointer_of right.now)) }
{
    if !is_standing(environment, right)? {
        return Ok(None);
    }
    own_standing(environment, left)
}

/// That place, or else where the name waits.
pub fn place_or_waiting(taken: Taken, place: Option<Address>) -> Result<Address, AllocError>
    ensures { IfOk result (λ a. a.displacement ≡ unwrap_or (option_of place_of place) (waiting_name (taken_of taken))) }
{
    match place {
        Some(place) => Ok(place),
        None => waiting_address(taken),
    }
}
