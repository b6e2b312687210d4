// AUTOMATIC variables as they are made when their block is entered: one of constant size lies in the frame behind its name, and the
// data of any other on the lower stack.

ghost use Rattle.std.specs.Prelude.{◌≡◌, ◌+◌, min, pos, map, ◌++◌, OnOk, IfOk};
ghost use Rattle.pli_typing.specs.TypedView.{class_of, variable_of};
ghost use Rattle.pli_typing.specs.TypedStatementView.{evaluation_of};
ghost use Rattle.pli_coding.specs.Environments.{declaration_of};
ghost use Rattle.pli_coding.specs.Frames as frames;
ghost use Rattle.pli_coding.specs.Entries as form;
ghost use Rattle.pli_frames.specs.Parts.{parts};
ghost use Rattle.rv_address.specs.Around.{environment_of};
ghost use Rattle.rv_entry.specs.Pieces.{adjustable_named, adjustable_put, automatic_put, bytes_waiting, constant_put};
ghost use Rattle.rv_entry.specs.Pieces.{data_told, extents_acted, name_told, own_declaration, stack_behind};
ghost use Rattle.rv_entry.specs.Pieces.{stack_named, variable_asked, variable_begun, variable_made};

use crate::own::{lower_grown, own_variable};
use pli_frames::size::{LAST_PLACE, frame_bytes, has_constant_size};
use pli_frames::taken::none_taken;
use pli_typing::typed::{Evaluation, StorageClass, Variable};
use rv_address::environment::{Environment, variables_of_block};
use rv_address::frame::automatic_place;
use rv_address::names::own_place;
use rv_address::number::{behind, count, signed};
use rv_allocation::allocation::act_code;
use rv_assembly::code::Code;
use rv_assembly::registers::{a0, a1, a2, a3, a4, frame, stack, u1, u2};
use rv_extent::evaluation::extents_code;
use rv_extent::initial::initial_code;
use rv_extent::words::{bytes_word, signature_loaded};
use std::alloc::{AllocError, Global};

/// Where the name stands.
#[tactic(auto, unfolding(crate::specs::Pieces::name_told))]
fn name_told(code: &mut Code, environment: &Environment, place: u32) -> Result<(), AllocError>
    ensures { OnOk result (code.new ≡ code.old ++ name_told (environment_of environment.now) place) }
{
    let name = signed(place)?;
    own_place(code, environment, a0(), name)
}

// ---- one of constant size

/// Its signature, and what it begins with.
#[tactic(auto, unfolding(crate::specs::Pieces::variable_begun))]
fn variable_begun(
    alloc: Global,
    code: &mut Code,
    environment: &Environment,
    variable: Variable,
) -> Result<(), AllocError>
    ensures { OnOk result (code.new ≡ code.old ++ variable_begun (environment_of environment.now) (declaration_of (environment_of environment.now) (variable_of variable))) }
{
    let declaration = environment.declaration(variable)?;
    let number = environment.table_number(variable)?;
    count(code, a1(), number)?;
    initial_code(alloc, code, a2(), declaration)
}

/// Its data stands behind its name.
#[tactic(auto, unfolding(crate::specs::Pieces::data_told))]
fn data_told(code: &mut Code, environment: &Environment, place: u32) -> Result<(), AllocError>
    ensures { OnOk result (code.new ≡ code.old ++ data_told (environment_of environment.now) place) }
{
    let name = signed(place)?;
    let data = behind(16, name)?;
    own_place(code, environment, a3(), data)
}

#[tactic(auto, unfolding(crate::specs::Pieces::variable_asked))]
fn variable_asked(code: &mut Code) -> Result<(), AllocError>
    ensures { OnOk result (code.new ≡ code.old ++ variable_asked) }
{
    code.small(a4(), 0)?;
    code.service(7)
}

/// The place behind it, as far as places are counted.
#[tactic(auto, using(crate::proofs::Made::end_stopped))]
fn end_of(environment: &Environment, place: u32, variable: Variable) -> Result<i32, AllocError>
    ensures { IfOk result (λ d. d ≡ pos (min frames.last_place (place + frames.frame_bytes parts (declaration_of (environment_of environment.now) (variable_of variable))))) }
{
    let declaration = environment.declaration(variable)?;
    let end = LAST_PLACE.min(u64::from(place) + frame_bytes(declaration));
    Ok(end as i32)
}

/// The stack goes on behind it.
#[tactic(auto, unfolding(crate::specs::Pieces::stack_behind))]
fn stack_behind(
    code: &mut Code,
    environment: &Environment,
    place: u32,
    variable: Variable,
) -> Result<(), AllocError>
    ensures { OnOk result (code.new ≡ code.old ++ stack_behind (environment_of environment.now) place (declaration_of (environment_of environment.now) (variable_of variable))) }
{
    let end = end_of(environment, place, variable)?;
    code.plus(stack(), frame(), end)
}

#[tactic(auto, using(crate::proofs::Made::constants))]
fn constant_made(
    alloc: Global,
    code: &mut Code,
    environment: &Environment,
    place: u32,
    variable: Variable,
) -> Result<(), AllocError>
    ensures { OnOk result (code.new ≡ code.old ++ constant_put (environment_of environment.now) place (declaration_of (environment_of environment.now) (variable_of variable))) }
{
    name_told(code, environment, place)?;
    variable_begun(alloc, code, environment, variable)?;
    data_told(code, environment, place)?;
    variable_asked(code)?;
    stack_behind(code, environment, place, variable)
}

// ---- one whose size is evaluated

/// Extents that are evaluated are an act.
fn extents_act(code: &mut Code, line: u32, evaluations: &[Evaluation]) -> Result<(), AllocError>
    ensures { OnOk result (code.new ≡ code.old ++ form.extents_act line (map evaluation_of evaluations.now)) }
{
    match evaluations {
        [] => Ok(()),
        _ => act_code(code, line),
    }
}

#[tactic(auto, using(crate::proofs::Made::acted))]
fn extents_acted(
    code: &mut Code,
    environment: &Environment,
    line: u32,
    variable: Variable,
) -> Result<(), AllocError>
    ensures { OnOk result (code.new ≡ code.old ++ extents_acted line (declaration_of (environment_of environment.now) (variable_of variable))) }
{
    let declaration = environment.declaration(variable)?;
    extents_act(code, line, &declaration.evaluations)?;
    Ok(())
}

/// The stack goes on behind the name.
#[tactic(auto, unfolding(crate::specs::Pieces::stack_named))]
fn stack_named(code: &mut Code, place: u32) -> Result<(), AllocError>
    ensures { OnOk result (code.new ≡ code.old ++ stack_named place) }
{
    let name = signed(place)?;
    let end = behind(16, name)?;
    code.plus(stack(), frame(), end)
}

/// The bytes to reserve, in u2.
#[tactic(auto, unfolding(crate::specs::Pieces::bytes_waiting))]
fn bytes_waiting(code: &mut Code) -> Result<(), AllocError>
    ensures { OnOk result (code.new ≡ code.old ++ bytes_waiting) }
{
    let place = bytes_word(none_taken())?;
    code.load_word(u2(), frame(), place)
}

/// The variable whose data begins at the top of the lower stack.
#[tactic(auto, unfolding(crate::specs::Pieces::adjustable_named))]
fn adjustable_named(
    alloc: Global,
    code: &mut Code,
    environment: &Environment,
    variable: Variable,
) -> Result<(), AllocError>
    ensures { OnOk result (code.new ≡ code.old ++ adjustable_named (declaration_of (environment_of environment.now) (variable_of variable))) }
{
    let declaration = environment.declaration(variable)?;
    signature_loaded(code, none_taken(), a1())?;
    initial_code(alloc, code, a2(), declaration)?;
    code.copy(a3(), u1())?;
    code.small(a4(), 0)?;
    code.service(7)
}

#[tactic(auto, using(crate::proofs::Made::adjustables))]
fn adjustable_made(
    alloc: Global,
    code: &mut Code,
    environment: &Environment,
    line: u32,
    place: u32,
    variable: Variable,
) -> Result<(), AllocError>
    ensures { OnOk result (code.new ≡ code.old ++ adjustable_put (environment_of environment.now) line place (declaration_of (environment_of environment.now) (variable_of variable))) }
{
    extents_acted(code, environment, line, variable)?;
    extents_code(alloc, code, environment, none_taken(), variable)?;
    stack_named(code, place)?;
    bytes_waiting(code)?;
    lower_grown(code)?;
    name_told(code, environment, place)?;
    adjustable_named(alloc, code, environment, variable)
}

// ---- all of a block

#[tactic(auto, using(crate::proofs::Made::constant_here, crate::proofs::Made::adjustable_here))]
fn automatic_made(
    alloc: Global,
    code: &mut Code,
    environment: &Environment,
    line: u32,
    place: u32,
    variable: Variable,
) -> Result<(), AllocError>
    ensures { OnOk result (code.new ≡ code.old ++ automatic_put (environment_of environment.now) line place (declaration_of (environment_of environment.now) (variable_of variable))) }
{
    let declaration = environment.declaration(variable)?;
    if has_constant_size(declaration) {
        return Ok(constant_made(alloc, code, environment, place, variable)?);
    }
    Ok(adjustable_made(alloc, code, environment, line, place, variable)?)
}

fn is_automatic(class: StorageClass) -> bool
    ensures { result ≡ frames.is_automatic (class_of class) }
{
    class == StorageClass::Automatic
}

/// The variable of an index in the running block, where it is AUTOMATIC.
#[tactic(auto, using(crate::proofs::Made::made_here, crate::proofs::Made::not_made))]
fn variable_made(
    alloc: Global,
    code: &mut Code,
    environment: &Environment,
    line: u32,
    index: usize,
) -> Result<(), AllocError>
    ensures { OnOk result (code.new ≡ code.old ++ variable_made (environment_of environment.now) line index (own_declaration (environment_of environment.now) index)) }
{
    let variable = own_variable(environment, index);
    let declaration = environment.declaration(variable)?;
    if !is_automatic(declaration.class) {
        return Ok(());
    }
    let place = automatic_place(environment, variable)?;
    Ok(automatic_made(alloc, code, environment, line, place, variable)?)
}

/// The AUTOMATIC variables of the block around, in declared order; the extents of each are an act on the line.
#[tactic(auto, using(crate::proofs::Made::next_made, crate::proofs::Made::all_made))]
pub fn variables_code(
    alloc: Global,
    code: &mut Code,
    environment: &Environment,
    line: u32,
) -> Result<(), AllocError>
    ensures { OnOk result (code.new ≡ code.old ++ form.variables_code (environment_of environment.now) line) }
{
    let variables = variables_of_block(environment.known.typed, environment.block)?;
    for index in 0..variables.len() {
        variable_made(alloc, code, environment, line, index)?;
    }
    Ok(())
}
