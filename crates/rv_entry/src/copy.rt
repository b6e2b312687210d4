// Copies that stand for arguments that are values. Each is made where the list says so, and its name stands there in
// place of the value: a number, bit, OFFSET or POINTER value waits in registers until it goes into the copy, and a text
// on the text stack.

ghost use Rattle.std.specs.Prelude.{◌≡◌, map, ◌++◌, OnOk};
ghost use Rattle.pli_language.specs.View.{option_of};
ghost use Rattle.pli_typing.specs.TypedTree.{StarExtent};
ghost use Rattle.pli_typing.specs.TypedView.{extent_of, leaf_of, leaf_type_of, variable_of};
ghost use Rattle.pli_typing.specs.TypedStatementView.{declared_variable_of};
ghost use Rattle.pli_meaning.specs.DeclaredShapes.{variables_of_block};
ghost use Rattle.pli_coding.specs.StaticForms.{size_datum};
ghost use Rattle.pli_coding.specs.Environments.{declaration_of};
ghost use Rattle.pli_coding.specs.Locating as locating;
ghost use Rattle.pli_coding.specs.Entries as form;
ghost use Rattle.rv_assembly.specs.View.{datum_of};
ghost use Rattle.rv_address.specs.Around.{environment_of};
ghost use Rattle.rv_address.specs.Places.{address_of};
ghost use Rattle.rv_entry.specs.Pieces.{constant_signature, copied_of, copied_single, copy_begun, copy_named, copy_put};
ghost use Rattle.rv_entry.specs.Pieces.{copy_reached, copy_skipped, copy_whole, name_put, name_taken, one_copied};
ghost use Rattle.rv_entry.specs.Pieces.{parameter_copied, signature_asked, signature_found, signature_kept};
ghost use Rattle.rv_entry.specs.Pieces.{signature_told, star_signature, value_taken, word_put};

use crate::argument::{argument_loaded, place_kept};
use crate::own::{lower_grown, own_variable, single_type};
use pli_frames::fixed::{argument_at, list_offset};
use pli_typing::typed::{Extent, Leaf, LeafType, Variable};
use rv_address::environment::{Environment, variables_of_block};
use rv_address::located::static_bytes;
use rv_address::number::count;
use rv_address::transfer::{Address, stored};
use rv_assembly::code::Code;
use rv_assembly::item::{Datum, Item, Symbol};
use rv_assembly::registers::{a0, a1, a2, a3, a4, frame, u0, u1, u2, u3, u4, u5, zero};
use rv_data::places::size_datum;
use rv_meaning::instr::BranchTest;
use std::alloc::{AllocError, Global};

// ---- the signature

#[tactic(auto, unfolding(crate::specs::Pieces::signature_asked))]
fn signature_asked(code: &mut Code, number: usize, places: Datum) -> Result<(), AllocError>
    ensures { OnOk result (code.new ≡ code.old ++ signature_asked number (datum_of places)) }
{
    count(code, a0(), number)?;
    code.push(Item::OffsetOf(a1(), Symbol::DataPlace(places)))
}

#[tactic(auto, unfolding(crate::specs::Pieces::signature_told))]
fn signature_told(code: &mut Code) -> Result<(), AllocError>
    ensures { OnOk result (code.new ≡ code.old ++ signature_told) }
{
    code.service(3)?;
    code.copy(u2(), a1())?;
    code.copy(a1(), a0())
}

/// A signature whose length is asked for, at all places that have it.
#[tactic(auto, using(crate::proofs::Copies::places_asked))]
fn length_asked(
    alloc: Global,
    code: &mut Code,
    number: usize,
    leaves: &[Leaf],
) -> Result<(), AllocError>
    ensures { OnOk result (code.new ≡ code.old ++ signature_asked number (size_datum StarExtent (map leaf_of leaves.now))) }
{
    let places = size_datum(alloc, Extent::Star, leaves)?;
    Ok(signature_asked(code, number, places)?)
}

/// The signature with the length that the list has.
#[tactic(auto, using(crate::proofs::Copies::star_is))]
fn star_signature(
    alloc: Global,
    code: &mut Code,
    environment: &Environment,
    n: usize,
    variable: Variable,
) -> Result<(), AllocError>
    ensures { OnOk result (code.new ≡ code.old ++ star_signature (environment_of environment.now) n (declaration_of (environment_of environment.now) (variable_of variable))) }
{
    let declaration = environment.declaration(variable)?;
    let number = environment.table_number(variable)?;
    length_asked(alloc, code, number, &declaration.leaves)?;
    argument_loaded(code, a3(), n, 4)?;
    Ok(signature_told(code)?)
}

/// The signature that the table has.
#[tactic(auto, unfolding(crate::specs::Pieces::constant_signature))]
fn constant_signature(
    code: &mut Code,
    environment: &Environment,
    variable: Variable,
) -> Result<(), AllocError>
    ensures { OnOk result (code.new ≡ code.old ++ constant_signature (environment_of environment.now) (declaration_of (environment_of environment.now) (variable_of variable))) }
{
    let declaration = environment.declaration(variable)?;
    let number = environment.table_number(variable)?;
    let bytes = static_bytes(declaration)?;
    count(code, a1(), number)?;
    count(code, u2(), bytes)
}

fn is_star(extent: Extent) -> bool
    ensures { result ≡ locating.is_star (extent_of extent) }
{
    match extent {
        Extent::Constant(_) => false,
        Extent::Star => true,
        Extent::Refer => false,
        Extent::Evaluated(_) => false,
    }
}

fn is_star_type(kind: LeafType) -> bool
    ensures { result ≡ locating.is_star_type (leaf_type_of kind) }
{
    match kind {
        LeafType::Character(size) => is_star(size),
        LeafType::Varying(size) => is_star(size),
        _ => false,
    }
}

/// The number of the signature in a1, and in u2 the bytes to reserve.
#[tactic(auto, using(crate::proofs::Copies::signatures))]
fn signature_found(
    alloc: Global,
    code: &mut Code,
    environment: &Environment,
    n: usize,
    variable: Variable,
    kind: LeafType,
) -> Result<(), AllocError>
    ensures { OnOk result (code.new ≡ code.old ++ signature_found (environment_of environment.now) (copied_of n (declaration_of (environment_of environment.now) (variable_of variable)) (leaf_type_of kind))) }
{
    if is_star_type(kind) {
        return Ok(star_signature(alloc, code, environment, n, variable)?);
    }
    Ok(constant_signature(code, environment, variable)?)
}

// ---- the copy

/// The signature's number, behind where the name will stand.
#[tactic(auto, unfolding(crate::specs::Pieces::signature_kept))]
fn signature_kept(code: &mut Code, n: usize) -> Result<(), AllocError>
    ensures { OnOk result (code.new ≡ code.old ++ signature_kept n) }
{
    let place = argument_at(n, 4)?;
    code.store_word(u5(), a1(), place)
}

#[tactic(auto, using(crate::proofs::Copies::begun))]
fn copy_begun(
    alloc: Global,
    code: &mut Code,
    environment: &Environment,
    n: usize,
    variable: Variable,
    kind: LeafType,
) -> Result<(), AllocError>
    ensures { OnOk result (code.new ≡ code.old ++ copy_begun (environment_of environment.now) (copied_of n (declaration_of (environment_of environment.now) (variable_of variable)) (leaf_type_of kind))) }
{
    signature_found(alloc, code, environment, n, variable, kind)?;
    signature_kept(code, n)?;
    lower_grown(code)
}

/// A POINTER value, in four registers.
#[tactic(auto, unfolding(crate::specs::Pieces::name_taken))]
fn name_taken(code: &mut Code, n: usize) -> Result<(), AllocError>
    ensures { OnOk result (code.new ≡ code.old ++ name_taken n) }
{
    argument_loaded(code, u0(), n, 0)?;
    argument_loaded(code, u2(), n, 1)?;
    argument_loaded(code, u3(), n, 2)?;
    argument_loaded(code, u4(), n, 3)
}

/// The value, before the name is written over it.
#[tactic(auto, unfolding(crate::specs::Pieces::argument_loaded, crate::specs::Pieces::name_taken, crate::specs::Pieces::value_taken))]
fn value_taken(code: &mut Code, n: usize, kind: LeafType) -> Result<(), AllocError>
    ensures { OnOk result (code.new ≡ code.old ++ value_taken n (leaf_type_of kind)) }
{
    match kind {
        LeafType::Fixed(_) => argument_loaded(code, u4(), n, 0),
        LeafType::Character(_) => Ok(()),
        LeafType::Varying(_) => Ok(()),
        LeafType::Bit => argument_loaded(code, u4(), n, 0),
        LeafType::Pointer => name_taken(code, n),
        LeafType::Offset(_) => argument_loaded(code, u4(), n, 0),
        LeafType::Area(_) => argument_loaded(code, u4(), n, 0),
    }
}

/// The name of the copy, whose data begins at the top of the lower stack.
#[tactic(auto, unfolding(crate::specs::Pieces::copy_named))]
fn copy_named(code: &mut Code, n: usize) -> Result<(), AllocError>
    ensures { OnOk result (code.new ≡ code.old ++ copy_named n) }
{
    let place = argument_at(n, 0)?;
    code.load_word(a0(), frame(), list_offset())?;
    code.plus(a0(), a0(), place)?;
    code.small(a2(), 0)?;
    code.copy(a3(), u1())?;
    code.small(a4(), 2)?;
    code.service(7)
}

/// The address of the copy's data, in a0.
#[tactic(auto, unfolding(crate::specs::Pieces::copy_reached))]
fn copy_reached(code: &mut Code) -> Result<(), AllocError>
    ensures { OnOk result (code.new ≡ code.old ++ copy_reached) }
{
    code.push(Item::BaseIn(a0()))?;
    code.add(a0(), a0(), u1())
}

fn copy_address() -> Address
    ensures { address_of result ≡ form.copy_address }
{
    Address {
        register: a0(),
        displacement: 0,
    }
}

/// A POINTER value, into its copy.
#[tactic(auto, unfolding(crate::specs::Pieces::copy_reached, crate::specs::Pieces::name_put))]
fn name_put(code: &mut Code) -> Result<(), AllocError>
    ensures { OnOk result (code.new ≡ code.old ++ name_put) }
{
    copy_reached(code)?;
    code.store_word(a0(), u0(), 0)?;
    code.store_word(a0(), u2(), 4)?;
    code.store_word(a0(), u3(), 8)?;
    code.store_word(a0(), u4(), 12)
}

/// A number, bit or OFFSET value, into its copy.
#[tactic(auto, unfolding(crate::specs::Pieces::copy_reached, crate::specs::Pieces::word_put))]
fn word_put(code: &mut Code, kind: LeafType) -> Result<(), AllocError>
    ensures { OnOk result (code.new ≡ code.old ++ word_put (leaf_type_of kind)) }
{
    copy_reached(code)?;
    stored(code, kind, u4(), copy_address())
}

#[tactic(auto, unfolding(crate::specs::Pieces::copy_put, crate::specs::Pieces::place_kept, crate::specs::Pieces::name_put, crate::specs::Pieces::word_put))]
fn copy_put(code: &mut Code, n: usize, kind: LeafType) -> Result<(), AllocError>
    ensures { OnOk result (code.new ≡ code.old ++ copy_put n (leaf_type_of kind)) }
{
    match kind {
        LeafType::Fixed(_) => word_put(code, kind),
        LeafType::Character(_) => place_kept(code, n),
        LeafType::Varying(_) => place_kept(code, n),
        LeafType::Bit => word_put(code, kind),
        LeafType::Pointer => name_put(code),
        LeafType::Offset(_) => word_put(code, kind),
        LeafType::Area(_) => word_put(code, kind),
    }
}

#[tactic(auto, using(crate::proofs::Copies::made))]
fn copy_whole(
    alloc: Global,
    code: &mut Code,
    environment: &Environment,
    n: usize,
    variable: Variable,
    kind: LeafType,
) -> Result<(), AllocError>
    ensures { OnOk result (code.new ≡ code.old
        ++ copy_whole (environment_of environment.now)
        (copied_of n (declaration_of (environment_of environment.now) (variable_of variable))
        (leaf_type_of kind))) }
{
    copy_begun(alloc, code, environment, n, variable, kind)?;
    value_taken(code, n, kind)?;
    copy_named(code, n)?;
    copy_put(code, n, kind)
}

/// The copy, unless u4 is 0.
#[tactic(auto, using(rv_assembly::proofs::Patching::patching, crate::proofs::Copies::skipped))]
fn copy_skipped(
    alloc: Global,
    code: &mut Code,
    environment: &Environment,
    n: usize,
    variable: Variable,
    kind: LeafType,
) -> Result<(), AllocError>
    ensures { OnOk result (code.new ≡ code.old ++ copy_skipped (environment_of environment.now) (copied_of n (declaration_of (environment_of environment.now) (variable_of variable)) (leaf_type_of kind))) }
{
    let place = code.keep_branch()?;
    copy_whole(alloc, code, environment, n, variable, kind)?;
    if code.words_behind(place) >= 1023 {
        return Err(AllocError);
    }
    code.skip_where(place, BranchTest::Equal, u4(), zero());
    Ok(())
}

/// The copy, where the list says so.
#[tactic(auto, using(crate::proofs::Copies::copied))]
fn one_copied(
    alloc: Global,
    code: &mut Code,
    environment: &Environment,
    n: usize,
    variable: Variable,
    kind: LeafType,
) -> Result<(), AllocError>
    ensures { OnOk result (code.new ≡ code.old ++ one_copied (environment_of environment.now) (copied_of n (declaration_of (environment_of environment.now) (variable_of variable)) (leaf_type_of kind))) }
{
    argument_loaded(code, u4(), n, 5)?;
    copy_skipped(alloc, code, environment, n, variable, kind)
}

// ---- the parameters

/// The copy of a parameter that is no area.
#[tactic(auto, unfolding(crate::specs::Pieces::one_copied))]
fn type_copied(
    alloc: Global,
    code: &mut Code,
    environment: &Environment,
    n: usize,
    variable: Variable,
    kind: LeafType,
) -> Result<(), AllocError>
    ensures { OnOk result (code.new ≡ code.old ++ form.copies_made (environment_of environment.now) (form.copied_type n (declaration_of (environment_of environment.now) (variable_of variable)) (leaf_type_of kind))) }
{
    match kind {
        LeafType::Fixed(_) => one_copied(alloc, code, environment, n, variable, kind),
        LeafType::Character(_) => one_copied(alloc, code, environment, n, variable, kind),
        LeafType::Varying(_) => one_copied(alloc, code, environment, n, variable, kind),
        LeafType::Bit => one_copied(alloc, code, environment, n, variable, kind),
        LeafType::Pointer => one_copied(alloc, code, environment, n, variable, kind),
        LeafType::Offset(_) => one_copied(alloc, code, environment, n, variable, kind),
        LeafType::Area(_) => Ok(()),
    }
}

fn single_copied(
    alloc: Global,
    code: &mut Code,
    environment: &Environment,
    n: usize,
    variable: Variable,
    single: Option<LeafType>,
) -> Result<(), AllocError>
    ensures { OnOk result (code.new ≡ code.old ++ form.copies_made (environment_of environment.now) (copied_single n (declaration_of (environment_of environment.now) (variable_of variable)) (option_of leaf_type_of single))) }
{
    match single {
        Some(kind) => type_copied(alloc, code, environment, n, variable, kind),
        None => Ok(()),
    }
}

/// The copy for the nth parameter, which has a place among the variables of the running block.
#[tactic(auto, using(crate::proofs::Copies::parameter_here))]
fn parameter_copied(
    alloc: Global,
    code: &mut Code,
    environment: &Environment,
    n: usize,
    place: usize,
) -> Result<(), AllocError>
    ensures { OnOk result (code.new ≡ code.old ++ parameter_copied (environment_of environment.now) n place) }
{
    let variables = variables_of_block(environment.known.typed, environment.block)?;
    if place >= variables.len() {
        return Err(AllocError);
    }
    let single = single_type(&variables[place].leaves);
    let variable = own_variable(environment, place);
    single_copied(alloc, code, environment, n, variable, single)?;
    Ok(())
}

/// The copies for all parameters, in order.
#[tactic(auto, using(crate::proofs::Copies::next_copied, crate::proofs::Copies::all_copied))]
pub fn copies_made(
    alloc: Global,
    code: &mut Code,
    environment: &Environment,
    parameters: &[usize],
) -> Result<(), AllocError>
    ensures { OnOk result (code.new ≡ code.old ++ form.copies_made (environment_of environment.now) (form.copies_of (environment_of environment.now) parameters.now)) }
{
    for (n, place) in parameters.iter().enumerate() {
        parameter_copied(alloc, code, environment, n, *place)?;
    }
    Ok(())
}
