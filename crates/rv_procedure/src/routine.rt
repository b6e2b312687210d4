// Extents of the next generation of a variable: called with the frame of the block that declares it in a0, and giving the
// signature's number in a0 and the extent for REFER in a1.

ghost use Rattle.std.specs.Prelude.{◌≡◌, map, ◌++◌, OnOk, IfOk};
ghost use Rattle.pli_typing.specs.TypedView.{class_of};
ghost use Rattle.pli_typing.specs.TypedStatementView.{declared_variable_of};
ghost use Rattle.pli_meaning.specs.DeclaredShapes.{variables_of_block};
ghost use Rattle.pli_coding.specs.Procedures as form;
ghost use Rattle.rv_address.specs.Around.{block_place_of, environment_of};
ghost use Rattle.rv_start.specs.Pieces.{declared_at};
ghost use Rattle.rv_procedure.specs.Pieces.{extents_at, routine_at, routine_marked, routine_with, routines_in};

use crate::ending::frame_returned;
use pli_frames::frame::extents_take;
use pli_frames::taken::none_taken;
use pli_typing::typed::{DeclaredVariable, StorageClass};
use rv_address::environment::{BlockPlace, Environment, variables_of_block};
use rv_assembly::code::Code;
use rv_assembly::item::{Item, Symbol};
use rv_assembly::registers::{a0, frame};
use rv_entry::frame::frame_begun;
use rv_extent::amount::refer_amount;
use rv_extent::evaluation::extents_code;
use rv_extent::words::number_word;
use rv_start::variable::variable_at;
use rv_statement::held::held_for;
use std::alloc::{AllocError, Global};

fn amounts_given(code: &mut Code, declaration: &DeclaredVariable) -> Result<(), AllocError>
    ensures { OnOk result (code.new ≡ code.old ++ form.amounts_given (declared_variable_of declaration.now)) }
{
    refer_amount(code, none_taken(), declaration)?;
    let place = number_word(none_taken())?;
    code.load_word(a0(), frame(), place)
}

/// The extents of the variable at a place of the block.
#[tactic(auto, using(crate::proofs::Steps::extents_at))]
fn extents_at(
    alloc: Global,
    code: &mut Code,
    environment: &Environment,
    index: usize,
) -> Result<(), AllocError>
    ensures { OnOk result (code.new ≡ code.old ++ extents_at (environment_of environment.now) index) }
{
    let variable = variable_at(environment.block, index);
    Ok(extents_code(alloc, code, environment, none_taken(), variable)?)
}

fn routine_marked(code: &mut Code, block: usize, index: usize) -> Result<(), AllocError>
    ensures { OnOk result (code.new ≡ code.old ++ routine_marked block index) }
{
    code.push(Item::Mark(Symbol::ExtentRoutine { block, index }))
}

/// A routine whose temporaries are so many words, and which saves so many registers; it is no block.
fn routine_with(
    alloc: Global,
    code: &mut Code,
    environment: &Environment,
    index: usize,
    words: u32,
    held: u8,
    declaration: &DeclaredVariable,
) -> Result<(), AllocError>
    ensures { OnOk result (code.new ≡ code.old ++ routine_with (environment_of environment.now) index words held (declared_variable_of declaration.now)) }
{
    routine_marked(code, environment.block, index)?;
    frame_begun(code, words, environment.level, 0, Some(held))?;
    extents_at(alloc, code, environment, index)?;
    amounts_given(code, declaration)?;
    Ok(frame_returned(code, words, held)?)
}

fn has_routine(class: StorageClass) -> bool
    ensures { result ≡ form.has_routine (class_of class) }
{
    match class {
        StorageClass::Based => true,
        StorageClass::Controlled => true,
        StorageClass::Automatic => false,
        StorageClass::Parameter => false,
        StorageClass::Static => false,
    }
}

/// A variable that ALLOCATE makes has one where an extent is evaluated.
fn routine_at(
    alloc: Global,
    code: &mut Code,
    environment: &Environment,
    index: usize,
) -> Result<(), AllocError>
    ensures { OnOk result (code.new ≡ code.old ++ routine_at (environment_of environment.now) index) }
{
    let variable = variable_at(environment.block, index);
    let declaration = environment.declaration(variable)?;
    if declaration.evaluations.len() == 0 {
        return Ok(());
    }
    if !has_routine(declaration.class) {
        return Ok(());
    }
    let own = extents_take(none_taken(), declaration)?;
    let held = held_for(own.registers);
    Ok(routine_with(
        alloc,
        code,
        environment,
        index,
        own.words,
        held,
        declaration,
    )?)
}

fn routines_of_block(
    alloc: Global,
    code: &mut Code,
    environment: &Environment,
) -> Result<(), AllocError>
    ensures { OnOk result (code.new ≡ code.old ++ form.routines_of_block (environment_of environment.now) 0 (variables_of_block (environment_of environment.now).program (environment_of environment.now).block)) }
{
    let variables = variables_of_block(environment.known.typed, environment.block)?;
    for index in 0..variables.len() {
        routine_at(alloc, code, environment, index)?;
    }
    Ok(())
}

/// In a frame one level further in than a block's.
fn routine_environment<'e, 't, 'a>(
    environment: Environment<'e, 't, 'a>,
    block: BlockPlace,
) -> Result<Environment<'e, 't, 'a>, AllocError>
    ensures { IfOk result (λ e. environment_of e ≡ form.routine_environment (block_place_of block) (environment_of environment.entry)) }
{
    let level = block.level.checked_add(1).ok_or(AllocError)?;
    Ok(environment.in_frame(block.number, level))
}

#[tactic(auto, using(crate::proofs::Steps::block_is))]
fn routines_in(
    alloc: Global,
    code: &mut Code,
    environment: &Environment,
    block: &BlockPlace,
) -> Result<(), AllocError>
    ensures { OnOk result (code.new ≡ code.old ++ routines_in (environment_of environment.now) (block_place_of block.now)) }
{
    let inner = routine_environment(*environment, *block)?;
    Ok(routines_of_block(alloc, code, &inner)?)
}

/// The routines of blocks, one behind the other.
pub fn routines_code(
    alloc: Global,
    code: &mut Code,
    environment: &Environment,
    blocks: &[BlockPlace],
) -> Result<(), AllocError>
    ensures { OnOk result (code.new ≡ code.old ++ form.routines_code (environment_of environment.now) (map block_place_of blocks.now)) }
{
    for block in blocks {
        routines_in(alloc, code, environment, block)?;
    }
    Ok(())
}
