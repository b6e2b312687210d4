// Texts that are arguments, stored into their copies from the last one on: the last one is the top of the text stack.

ghost use Rattle.std.specs.Prelude.{◌≡◌, ◌<◌, map, ◌++◌, OnOk};
ghost use Rattle.pli_language.specs.View.{option_of};
ghost use Rattle.pli_typing.specs.TypedTree.{ConstantExtent, StarExtent};
ghost use Rattle.pli_typing.specs.TypedView.{extent_of, leaf_of, leaf_type_of};
ghost use Rattle.pli_coding.specs.Entries as form;
ghost use Rattle.rv_address.specs.Around.{environment_of};
ghost use Rattle.rv_entry.specs.Pieces.{copied_single, length_given, own_declaration, parameter_filled, text_asked, text_put, text_skipped};

use crate::argument::argument_loaded;
use crate::own::single_type;
use pli_typing::typed::{Extent, Leaf, LeafType};
use rv_address::environment::{Environment, variables_of_block};
use rv_address::number::constant;
use rv_assembly::code::Code;
use rv_assembly::registers::{a0, a1, a2, u4, zero};
use rv_meaning::instr::BranchTest;
use std::alloc::AllocError;

/// A constant length; one below 0 counts as 0.
#[tactic(auto)]
fn constant_length(code: &mut Code, number: i128) -> Result<(), AllocError>
    ensures { OnOk result (code.new ≡ code.old ++ form.copy_length (ConstantExtent number)) }
{
    if number < 0 {
        return Ok(code.number(a1(), 0)?);
    }
    Ok(constant(code, a1(), number)?)
}

/// The length of the top text, which stays.
fn length_measured(code: &mut Code) -> Result<(), AllocError>
    ensures { OnOk result (code.new ≡ code.old ++ form.copy_length StarExtent) }
{
    code.small(a2(), 2)?;
    code.service(27)?;
    code.copy(a1(), a0())
}

/// A text's length in a1: that of its declaration, or its own.
#[tactic(auto, unfolding(crate::specs::Pieces::length_given))]
fn length_given(code: &mut Code, size: Extent) -> Result<(), AllocError>
    ensures { OnOk result (code.new ≡ code.old ++ length_given (extent_of size)) }
{
    match size {
        Extent::Constant(number) => constant_length(code, number),
        Extent::Star => length_measured(code),
        Extent::Refer => length_measured(code),
        Extent::Evaluated(_) => length_measured(code),
    }
}

/// The top text, into its copy, whose place is in u4.
#[tactic(auto, unfolding(crate::specs::Pieces::text_put))]
fn text_put(code: &mut Code, mode: u32, size: Extent) -> Result<(), AllocError>
    requires { mode < 2048 }
    ensures { OnOk result (code.new ≡ code.old ++ text_put mode (extent_of size)) }
{
    length_given(code, size)?;
    code.copy(a0(), u4())?;
    code.small(a2(), mode)?;
    code.service(27)
}

#[tactic(auto, using(rv_assembly::proofs::Patching::patching, crate::proofs::Texts::skipped))]
fn text_skipped(code: &mut Code, mode: u32, size: Extent) -> Result<(), AllocError>
    requires { mode < 2048 }
    ensures { OnOk result (code.new ≡ code.old ++ text_skipped mode (extent_of size)) }
{
    let place = code.keep_branch()?;
    text_put(code, mode, size)?;
    if code.words_behind(place) >= 1023 {
        return Err(AllocError);
    }
    code.skip_where(place, BranchTest::Equal, u4(), zero());
    Ok(())
}

/// The same where the list says that there is a copy.
#[tactic(auto, unfolding(crate::specs::Pieces::text_asked))]
fn text_asked(code: &mut Code, n: usize, mode: u32, size: Extent) -> Result<(), AllocError>
    requires { mode < 2048 }
    ensures { OnOk result (code.new ≡ code.old ++ text_asked n mode (extent_of size)) }
{
    argument_loaded(code, u4(), n, 5)?;
    text_skipped(code, mode, size)
}

// ---- the parameters

#[tactic(auto, unfolding(crate::specs::Pieces::text_asked, crate::specs::Pieces::text_skipped, crate::specs::Pieces::text_put, crate::specs::Pieces::argument_loaded, crate::specs::Pieces::length_given))]
fn type_filled(
    code: &mut Code,
    environment: &Environment,
    n: usize,
    place: usize,
    kind: LeafType,
) -> Result<(), AllocError>
    ensures { OnOk result (code.new ≡ code.old ++ form.texts_filled (form.copied_type n (own_declaration (environment_of environment.now) place) (leaf_type_of kind))) }
{
    match kind {
        LeafType::Fixed(_) => Ok(()),
        LeafType::Character(size) => text_asked(code, n, 0, size),
        LeafType::Varying(size) => text_asked(code, n, 1, size),
        LeafType::Bit => Ok(()),
        LeafType::Pointer => Ok(()),
        LeafType::Offset(_) => Ok(()),
        LeafType::Area(_) => Ok(()),
    }
}

fn single_filled(
    code: &mut Code,
    environment: &Environment,
    n: usize,
    place: usize,
    single: Option<LeafType>,
) -> Result<(), AllocError>
    ensures { OnOk result (code.new ≡ code.old ++ form.texts_filled (copied_single n (own_declaration (environment_of environment.now) place) (option_of leaf_type_of single))) }
{
    match single {
        Some(kind) => type_filled(code, environment, n, place, kind),
        None => Ok(()),
    }
}

/// The text for the nth parameter, which has a place among the variables of the running block.
#[tactic(auto, using(crate::proofs::Texts::parameter_here))]
fn parameter_filled(
    code: &mut Code,
    environment: &Environment,
    n: usize,
    place: usize,
) -> Result<(), AllocError>
    ensures { OnOk result (code.new ≡ code.old ++ parameter_filled (environment_of environment.now) n place) }
{
    let variables = variables_of_block(environment.known.typed, environment.block)?;
    if place >= variables.len() {
        return Err(AllocError);
    }
    let single = single_type(&variables[place].leaves);
    single_filled(code, environment, n, place, single)?;
    Ok(())
}

/// The texts for all parameters, from the last one on.
#[tactic(auto, using(crate::proofs::Texts::next_filled, crate::proofs::Texts::none_filled))]
pub fn texts_filled(
    code: &mut Code,
    environment: &Environment,
    parameters: &[usize],
) -> Result<(), AllocError>
    ensures { OnOk result (code.new ≡ code.old ++ form.texts_filled (form.copies_of (environment_of environment.now) parameters.now)) }
{
    let mut left = parameters.len();
    while left > 0 {
        left -= 1;
        parameter_filled(code, environment, left, parameters[left])?;
    }
    Ok(())
}
