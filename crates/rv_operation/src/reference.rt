// What is known of a reference, and what is asked of it: its kind, its address, its name, its bounds.

ghost use Rattle.std.specs.Prelude.{◌≡◌, suc, ◌+◌, map, ◌++◌, OnOk, IfOk};
ghost use Rattle.pli_meaning.specs.Numbers.{is_of_precision};
ghost use Rattle.pli_typing.specs.TypedView.{bounds_of, extent_of, leaf_of, leaf_type_of, numbers_of, part_of, reference_of, variable_of};
ghost use Rattle.pli_coding.specs.Expressions as form;
ghost use Rattle.pli_coding.specs.Locating.{leaf_number};
ghost use Rattle.pli_frames.specs.TakenView.{taken_of};
ghost use Rattle.rv_address.specs.Around.{environment_of};
ghost use Rattle.rv_address.specs.Places.{address_of, located_of, name_of};
ghost use Rattle.rv_operation.specs.Asked.{asked_of};
ghost use Rattle.rv_operation.specs.Pieces.{based_named, bound_told, element_reached, name_kept, part_named, standing_named, standing_reached, text_loaded, value_loaded};

use crate::arithmetic::count_checked;
use crate::pointer::{address_given, framed};
use pli_frames::fixed::{buffer_lower, buffer_upper};
use pli_frames::taken::Taken;
use pli_typing::typed::{Bounds, Extent, LeafType, Numbers, Part, Reference, Variable};
use rv_address::element::{address_of, based_reached, reached};
use rv_address::environment::Environment;
use rv_address::extent::are_constant;
use rv_address::leaf::{is_direct, leaf_found, refer_read};
use rv_address::located::{class_found, located, located_at};
use rv_address::names::{Located, NamePlace, name_offset, number_loaded};
use rv_address::referred::is_referred;
use rv_address::subscript::bound_loaded;
use rv_address::transfer::{Address, loaded, name_copied, text_pushed};
use rv_assembly::code::Code;
use rv_assembly::registers::{a0, a1, a2, u1};
use rv_meaning::instr::ImmediateOp;
use std::alloc::AllocError;

/// How many subscripts are given.
#[tactic(auto, using(crate::proofs::Walks::parts))]
pub fn given_in(subscripts: &Numbers) -> Result<usize, AllocError>
    ensures { IfOk result (λ n. n ≡ form.given_in (numbers_of subscripts.now)) }
{
    match subscripts {
        Numbers::End => Ok(0),
        Numbers::More { rest, .. } => {
            let others = given_in(rest)?;
            others.checked_add(1).ok_or(AllocError)
        }
    }
}

fn kind_of(
    environment: &Environment,
    variable: Variable,
    part: Part,
) -> Result<LeafType, AllocError>
    ensures { IfOk result (λ k. leaf_type_of k ≡ (leaf_number (environment_of environment.now) (variable_of variable) (part_of part).first).type) }
{
    let leaf = environment.leaf(variable, part.first)?;
    Ok(leaf.kind)
}

/// The kind of the element, or of the first leaf of a part.
#[tactic(auto, using(crate::proofs::Walks::parts))]
pub fn type_in(environment: &Environment, reference: &Reference) -> Result<LeafType, AllocError>
    ensures { IfOk result (λ k. leaf_type_of k ≡ form.type_in (environment_of environment.now) (reference_of reference.now)) }
{
    match reference {
        Reference::Plain { variable, part, .. } => kind_of(environment, *variable, *part),
        Reference::Located { variable, part, .. } => kind_of(environment, *variable, *part),
    }
}

/// Where the code of a reference leaves it.
#[tactic(auto, using(crate::proofs::Walks::parts))]
pub fn address_in(environment: &Environment, reference: &Reference) -> Result<Address, AllocError>
    ensures { IfOk result (λ a. address_of a ≡ form.address_in (environment_of environment.now) (reference_of reference.now)) }
{
    match reference {
        Reference::Plain {
            variable,
            part,
            subscripts,
        } => address_of(environment, *variable, *part, given_in(subscripts)?),
        Reference::Located {
            variable,
            part,
            subscripts,
            ..
        } => address_of(environment, *variable, *part, given_in(subscripts)?),
    }
}

/// The value of a number, bit or OFFSET variable that was reached, in a0.
#[tactic(auto, unfolding(crate::specs::Pieces::value_loaded))]
pub fn value_loaded(
    code: &mut Code,
    environment: &Environment,
    reference: &Reference,
) -> Result<(), AllocError>
    ensures { OnOk result (code.new ≡ code.old ++ value_loaded (environment_of environment.now) (reference_of reference.now)) }
{
    let kind = type_in(environment, reference)?;
    let address = address_in(environment, reference)?;
    loaded(code, kind, a0(), address)
}

/// The text of a variable that was reached, on top of the text stack.
#[tactic(auto, unfolding(crate::specs::Pieces::text_loaded))]
pub fn text_loaded(
    code: &mut Code,
    environment: &Environment,
    reference: &Reference,
) -> Result<(), AllocError>
    ensures { OnOk result (code.new ≡ code.old ++ text_loaded (environment_of environment.now) (reference_of reference.now)) }
{
    let kind = type_in(environment, reference)?;
    let address = address_in(environment, reference)?;
    text_pushed(code, kind, address)
}

/// The name in a POINTER variable that was reached, to a place of the running frame.
#[tactic(auto, using(crate::proofs::FramedNames::name_framed))]
pub fn name_kept(
    code: &mut Code,
    environment: &Environment,
    to: Address,
    reference: &Reference,
) -> Result<(), AllocError>
    ensures { OnOk result (code.new ≡ code.old ++ name_kept (environment_of environment.now) to.displacement (reference_of reference.now)) }
{
    let from = address_in(environment, reference)?;
    let place = framed(to);
    name_copied(code, from, place)
}

/// An element's address, behind a locator and subscripts.
#[tactic(auto, unfolding(crate::specs::Pieces::element_reached))]
pub fn element_reached(
    code: &mut Code,
    environment: &Environment,
    found: Taken,
    taken: Taken,
    variable: Variable,
    part: Part,
    subscripts: &Numbers,
) -> Result<(), AllocError>
    ensures { OnOk result (code.new ≡ code.old ++ element_reached (environment_of environment.now) (taken_of found) (taken_of taken) (variable_of variable) (part_of part) (numbers_of subscripts.now)) }
{
    reached(code, environment, found, taken, variable, part, subscripts)
}

/// An element of a BASED variable whose name stands there, behind subscripts.
#[tactic(auto, unfolding(crate::specs::Pieces::standing_reached))]
pub fn standing_reached(
    code: &mut Code,
    environment: &Environment,
    name: NamePlace,
    taken: Taken,
    variable: Variable,
    part: Part,
    subscripts: &Numbers,
) -> Result<(), AllocError>
    ensures { OnOk result (code.new ≡ code.old ++ standing_reached (environment_of environment.now) (name_of name) (taken_of taken) (variable_of variable) (part_of part) (numbers_of subscripts.now)) }
{
    based_reached(code, environment, name, taken, variable, part, subscripts)
}

// ---- names

fn refer_checked(
    code: &mut Code,
    environment: &Environment,
    place: Located,
    may_refer: bool,
) -> Result<(), AllocError>
    ensures { OnOk result (code.new ≡ code.old ++ form.refer_checked (environment_of environment.now) (located_of place) may_refer) }
{
    if may_refer {
        refer_read(code, environment, place, false)
    } else {
        Ok(())
    }
}

/// A name is found to live, and is written to an address in the frame; REFER tells what may be.
fn name_checked(
    code: &mut Code,
    environment: &Environment,
    found: Located,
    to: Address,
    may_refer: bool,
) -> Result<(), AllocError>
    ensures { OnOk result (code.new ≡ code.old ++ form.name_checked (environment_of environment.now) (located_of found) to.displacement may_refer) }
{
    name_offset(code, environment, a0(), found.name)?;
    number_loaded(code, environment, a1(), found.number)?;
    address_given(code, environment, a2(), to)?;
    code.tested_service(9)?;
    refer_checked(code, environment, found, may_refer)
}

/// The name of a part, to an address in the frame.
pub fn name_written(
    code: &mut Code,
    environment: &Environment,
    taken: Taken,
    variable: Variable,
    part: Part,
    to: Address,
) -> Result<(), AllocError>
    ensures { OnOk result (code.new ≡ code.old ++ form.name_written (environment_of environment.now) (taken_of taken) (variable_of variable) (part_of part) to.displacement) }
{
    class_found(code, environment, taken, variable)?;
    let found = located(environment, taken, variable)?;
    let may_refer = is_referred(environment, variable, part)?;
    name_checked(code, environment, found, to, may_refer)
}

/// ADDR of a reference, behind its locator, to a place of the running frame.
#[tactic(auto, using(crate::proofs::Walks::parts))]
pub fn part_named(
    code: &mut Code,
    environment: &Environment,
    taken: Taken,
    to: Address,
    reference: &Reference,
) -> Result<(), AllocError>
    ensures { OnOk result (code.new ≡ code.old ++ part_named (environment_of environment.now) (taken_of taken) to.displacement (reference_of reference.now)) }
{
    match reference {
        Reference::Plain { variable, part, .. } => {
            name_written(code, environment, taken, *variable, *part, to)
        }
        Reference::Located { variable, part, .. } => {
            name_written(code, environment, taken, *variable, *part, to)
        }
    }
}

fn based_named(
    code: &mut Code,
    environment: &Environment,
    name: NamePlace,
    to: Address,
    variable: Variable,
    part: Part,
) -> Result<(), AllocError>
    ensures { OnOk result (code.new ≡ code.old ++ based_named (environment_of environment.now) (name_of name) to.displacement (variable_of variable) (part_of part)) }
{
    let found = located_at(environment, variable, name)?;
    let may_refer = is_referred(environment, variable, part)?;
    name_checked(code, environment, found, to, may_refer)
}

/// ADDR of a reference whose locator's name stands there.
#[tactic(auto, using(crate::proofs::Walks::parts))]
pub fn standing_named(
    code: &mut Code,
    environment: &Environment,
    name: NamePlace,
    to: Address,
    reference: &Reference,
) -> Result<(), AllocError>
    ensures { OnOk result (code.new ≡ code.old ++ standing_named (environment_of environment.now) (name_of name) to.displacement (reference_of reference.now)) }
{
    match reference {
        Reference::Plain { variable, part, .. } => {
            based_named(code, environment, name, to, *variable, *part)
        }
        Reference::Located { variable, part, .. } => {
            based_named(code, environment, name, to, *variable, *part)
        }
    }
}

// ---- bounds

/// What is asked of a dimension.
#[derive(Clone, Copy, PartialEq, Eq, Debug)]
pub enum BoundAsked {
    Lower,
    Upper,
    Elements,
}

/// The bounds of a dimension, counted from 1; a dimension that isn't there has none.
#[tactic(auto, using(crate::proofs::Bounded::bounds_here, crate::proofs::Bounded::bounds_nowhere))]
fn bounds_at(
    environment: &Environment,
    variable: Variable,
    part: Part,
    dimension: u64,
) -> Result<Bounds, AllocError>
    ensures { IfOk result (λ b. bounds_of b ≡ form.bounds_at (environment_of environment.now) (variable_of variable) (part_of part) dimension) }
{
    let leaf = environment.leaf(variable, part.first)?;
    let none = Bounds {
        lower: Extent::Constant(1),
        upper: Extent::Constant(0),
    };
    if dimension == 0 {
        return Ok(none);
    }
    let place = (dimension - 1) as usize;
    if place >= leaf.bounds.len() {
        return Ok(none);
    }
    Ok(leaf.bounds[place])
}

fn is_number(count: i128) -> bool
    ensures { result ≡ is_of_precision 31 count }
{
    i128::from(i32::MIN) <= count && count <= i128::from(i32::MAX)
}

/// Whether constant bounds tell that a number holds how many there are.
fn are_few(bounds: Bounds) -> Result<bool, AllocError>
    ensures { IfOk result (λ few. few ≡ form.are_few (extent_of bounds.lower) (extent_of bounds.upper)) }
{
    match (bounds.lower, bounds.upper) {
        (Extent::Constant(lower), Extent::Constant(upper)) => {
            let distance = upper.checked_sub(lower).ok_or(AllocError)?;
            Ok(is_number(distance.checked_add(1).ok_or(AllocError)?))
        }
        _ => Ok(false),
    }
}

fn elements_code(code: &mut Code, taken: Taken, bounds: Bounds, n: u8) -> Result<(), AllocError>
    ensures { OnOk result (code.new ≡ code.old ++ form.elements_code (taken_of taken) (bounds_of bounds) n) }
{
    bound_loaded(code, a0(), bounds.upper, buffer_upper(n))?;
    bound_loaded(code, u1(), bounds.lower, buffer_lower(n))?;
    code.subtract(a0(), a0(), u1())?;
    code.immediate(ImmediateOp::Add, a0(), a0(), 1)?;
    if are_few(bounds)? {
        return Ok(());
    }
    count_checked(code, taken)
}

fn bound_code(
    code: &mut Code,
    taken: Taken,
    asked: BoundAsked,
    bounds: Bounds,
    dimension: u64,
) -> Result<(), AllocError>
    ensures { OnOk result (code.new ≡ code.old ++ form.bound_code (taken_of taken) (asked_of asked) (bounds_of bounds) dimension) }
{
    if dimension == 0 {
        return Ok(());
    }
    if dimension > 255 {
        return Err(AllocError);
    }
    let n = (dimension - 1) as u8;
    match asked {
        BoundAsked::Lower => bound_loaded(code, a0(), bounds.lower, buffer_lower(n)),
        BoundAsked::Upper => bound_loaded(code, a0(), bounds.upper, buffer_upper(n)),
        BoundAsked::Elements => elements_code(code, taken, bounds, n),
    }
}

fn bounds_found(
    code: &mut Code,
    environment: &Environment,
    taken: Taken,
    variable: Variable,
    part: Part,
    bounds: Bounds,
) -> Result<(), AllocError>
    ensures { OnOk result (code.new ≡ code.old ++ form.bounds_found (environment_of environment.now) (taken_of taken) (variable_of variable) (part_of part) (bounds_of bounds)) }
{
    if is_direct(environment, variable)? {
        return Ok(());
    }
    class_found(code, environment, taken, variable)?;
    let found = located(environment, taken, variable)?;
    let is_wanted = !are_constant(bounds);
    let may_refer = is_referred(environment, variable, part)?;
    leaf_found(code, environment, found, part.first, is_wanted, may_refer)
}

/// LBOUND, HBOUND or DIM, behind a locator.
fn dimension_code(
    code: &mut Code,
    environment: &Environment,
    taken: Taken,
    variable: Variable,
    part: Part,
    asked: BoundAsked,
    dimension: u64,
) -> Result<(), AllocError>
    ensures { OnOk result (code.new ≡ code.old ++ form.dimension_code (environment_of environment.now) (taken_of taken) (variable_of variable) (part_of part) (asked_of asked) dimension) }
{
    let bounds = bounds_at(environment, variable, part, dimension)?;
    bounds_found(code, environment, taken, variable, part, bounds)?;
    bound_code(code, taken, asked, bounds, dimension)
}

/// LBOUND, HBOUND or DIM of a reference, behind its locator.
#[tactic(auto, using(crate::proofs::Walks::parts))]
pub fn bound_told(
    code: &mut Code,
    environment: &Environment,
    taken: Taken,
    array: &Reference,
    asked: BoundAsked,
    dimension: u64,
) -> Result<(), AllocError>
    ensures { OnOk result (code.new ≡ code.old ++ bound_told (environment_of environment.now) (taken_of taken) (reference_of array.now) (asked_of asked) dimension) }
{
    match array {
        Reference::Plain { variable, part, .. } => {
            dimension_code(code, environment, taken, *variable, *part, asked, dimension)
        }
        Reference::Located { variable, part, .. } => {
            dimension_code(code, environment, taken, *variable, *part, asked, dimension)
        }
    }
}
