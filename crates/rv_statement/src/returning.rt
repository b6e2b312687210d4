// RETURN: a result to its place in the frame of the procedure, and the way to where it goes on.

ghost use Rattle.std.specs.Prelude.{◌≡◌, ◌<◌, ◌++◌, OnOk, IfOk};
ghost use Rattle.pli_typing.specs.TypedView.{extent_of, leaf_type_of};
ghost use Rattle.pli_coding.specs.Statements as form;
ghost use Rattle.pli_frames.specs.TakenView.{taken_of};
ghost use Rattle.rv_address.specs.Around.{environment_of};
ghost use Rattle.rv_address.specs.Places.{address_of};
ghost use Rattle.rv_statement.specs.Pieces.{text_returned};

use pli_frames::fixed::{display, own_offset, result_place};
use pli_frames::taken::Taken;
use pli_typing::typed::{Extent, LeafType};
use rv_address::environment::{Environment, Owner};
use rv_address::names::{frame_found, frame_in};
use rv_address::number::signed;
use rv_address::transfer::{Address, in_own_frame, length_loaded, name_copied};
use rv_assembly::code::Code;
use rv_assembly::item::{Item, Symbol};
use rv_assembly::registers::{a0, a1, a2, frame, u3};
use rv_operation::pointer::waiting_address;
use std::alloc::AllocError;

/// The frame at an outer level runs again: all activations above it end; with 1 the top text is kept.
pub(crate) fn unwound_to(code: &mut Code, level: usize, keep: u32) -> Result<(), AllocError>
    requires { keep < 2048 }
    ensures { OnOk result (code.new ≡ code.old ++ form.unwound_to level keep) }
{
    let place = display(level)?;
    code.load_word(frame(), frame(), place)?;
    code.load_word(a0(), frame(), own_offset())?;
    code.small(a1(), keep)?;
    code.service(6)
}

fn unwound_if(
    code: &mut Code,
    environment: &Environment,
    level: usize,
    keep: u32,
) -> Result<(), AllocError>
    requires { keep < 2048 }
    ensures { OnOk result (code.new ≡ code.old ++ form.unwound_if (environment_of environment.now) level keep) }
{
    if level == environment.level {
        return Ok(());
    }
    unwound_to(code, level, keep)
}

/// To where a RETURN goes on; with 1 the top text is kept.
pub(crate) fn returned_by(
    code: &mut Code,
    environment: &Environment,
    keep: u32,
) -> Result<(), AllocError>
    requires { keep < 2048 }
    ensures { OnOk result (code.new ≡ code.old ++ form.returned_by (environment_of environment.now) keep (environment_of environment.now).owner) }
{
    match environment.owner {
        Owner::Block(owner) => {
            unwound_if(code, environment, owner.level, keep)?;
            code.push(Item::JumpTo(Symbol::ReturnPlace {
                block: owner.number,
            }))
        }
        Owner::Unit => Ok(()),
    }
}

/// The result's place in the frame of the procedure, once that was found.
fn result_address(environment: &Environment) -> Result<Address, AllocError>
    ensures { IfOk result (λ a. address_of a ≡ form.result_address (environment_of environment.now) (environment_of environment.now).owner) }
{
    let displacement = signed(result_place())?;
    match environment.owner {
        Owner::Block(owner) => Ok(Address {
            register: frame_in(environment, owner.level, u3()),
            displacement,
        }),
        Owner::Unit => Ok(in_own_frame(displacement)),
    }
}

fn owner_found(code: &mut Code, environment: &Environment) -> Result<(), AllocError>
    ensures { OnOk result (code.new ≡ code.old ++ form.owner_found (environment_of environment.now) (environment_of environment.now).owner) }
{
    match environment.owner {
        Owner::Block(owner) => frame_found(code, environment, owner.level, u3()),
        Owner::Unit => Ok(()),
    }
}

/// The top text, as long as RETURNS says.
fn text_cut(code: &mut Code, mode: u32, size: Extent) -> Result<(), AllocError>
    requires { mode < 2048 }
    ensures { OnOk result (code.new ≡ code.old ++ form.text_cut mode (extent_of size)) }
{
    length_loaded(code, a0(), size)?;
    code.small(a2(), mode)?;
    code.tested_service(23)
}

fn text_returned(
    code: &mut Code,
    environment: &Environment,
    mode: u32,
    size: Extent,
) -> Result<(), AllocError>
    requires { mode < 2048 }
    ensures { OnOk result (code.new ≡ code.old ++ text_returned (environment_of environment.now) mode (extent_of size)) }
{
    text_cut(code, mode, size)?;
    returned_by(code, environment, 1)
}

fn word_returned(code: &mut Code, environment: &Environment) -> Result<(), AllocError>
    ensures { OnOk result (code.new ≡ code.old ++ form.word_returned (environment_of environment.now)) }
{
    owner_found(code, environment)?;
    let address = result_address(environment)?;
    code.store_word(address.register, a0(), signed(result_place())?)?;
    returned_by(code, environment, 0)
}

fn name_returned(code: &mut Code, environment: &Environment, taken: Taken) -> Result<(), AllocError>
    ensures { OnOk result (code.new ≡ code.old ++ form.name_returned (environment_of environment.now) (taken_of taken)) }
{
    owner_found(code, environment)?;
    let from = waiting_address(taken)?;
    let to = result_address(environment)?;
    name_copied(code, from, to)?;
    returned_by(code, environment, 0)
}

/// A value that was evaluated, by the kind that RETURNS says; a text stays on the stack.
pub(crate) fn value_returned(
    code: &mut Code,
    environment: &Environment,
    taken: Taken,
    kind: LeafType,
) -> Result<(), AllocError>
    ensures { OnOk result (code.new ≡ code.old ++ form.value_returned (environment_of environment.now) (taken_of taken) (leaf_type_of kind)) }
{
    match kind {
        LeafType::Character(size) => text_returned(code, environment, 2, size),
        LeafType::Varying(size) => text_returned(code, environment, 3, size),
        LeafType::Pointer => name_returned(code, environment, taken),
        LeafType::Fixed(_) => word_returned(code, environment),
        LeafType::Bit => word_returned(code, environment),
        LeafType::Offset(_) => word_returned(code, environment),
        LeafType::Area(_) => word_returned(code, environment),
    }
}
