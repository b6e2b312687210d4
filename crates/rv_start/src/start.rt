// The start of a run: a frame below all others, the STATIC variables, and the main procedure.

ghost use Rattle.std.specs.Prelude.{◌≡◌, ◌++◌, map, OnOk};
ghost use Rattle.pli_typing.specs.TypedStatementView.{procedure_of, program_of};
ghost use Rattle.pli_coding.specs.Images as form;
ghost use Rattle.pli_frames.specs.Parts.{parts};
ghost use Rattle.rv_address.specs.Around.{environment_of};
ghost use Rattle.rv_start.specs.Pieces.{entry_called};

use crate::finish::finish_code;
use crate::statics::statics_code;
use pli_frames::fixed::{lower_top, own_offset};
use pli_typing::statement::Procedure;
use rv_address::environment::Environment;
use rv_assembly::code::Code;
use rv_assembly::item::{Item, Symbol};
use rv_assembly::registers::{a0, a1, a2, frame, stack, u0, u1};
use std::alloc::{AllocError, Global};

/// Where the two stacks begin.
const STACK_START: u32 = 7 << 20;

const STACK_END: u32 = 14 << 20;

/// The frame's own offset and the top of the lower stack.
const FIRST_FRAME_BYTES: i32 = 48;

fn first_frame(code: &mut Code) -> Result<(), AllocError>
    ensures { OnOk result (code.new ≡ code.old ++ form.first_frame parts) }
{
    code.push(Item::BaseIn(u0()))?;
    code.number(u1(), STACK_START)?;
    code.add(frame(), u0(), u1())?;
    code.store_word(frame(), u1(), own_offset())?;
    code.number(u1(), STACK_END)?;
    code.store_word(frame(), u1(), lower_top())?;
    code.plus(stack(), frame(), FIRST_FRAME_BYTES)
}

fn entry_called(code: &mut Code, block: usize) -> Result<(), AllocError>
    ensures { OnOk result (code.new ≡ code.old ++ entry_called block) }
{
    code.copy(a0(), frame())?;
    code.copy(a1(), frame())?;
    code.small(a2(), 0)?;
    code.push(Item::CallTo(Symbol::ProcedureEntry { block }))
}

/// The main procedure, which has no arguments.
#[tactic(auto, using(crate::proofs::Steps::main_there, crate::proofs::Steps::main_nowhere))]
fn main_called(code: &mut Code, procedures: &[Procedure]) -> Result<(), AllocError>
    ensures { OnOk result (code.new ≡ code.old ++ form.main_called (map procedure_of procedures.now)) }
{
    if procedures.len() == 0 {
        return Ok(());
    }
    let main = &procedures[0];
    Ok(entry_called(code, main.block.head.number)?)
}

/// The start of the run, with which an image begins.
pub fn start_code(
    alloc: Global,
    code: &mut Code,
    environment: &Environment,
) -> Result<(), AllocError>
    ensures { OnOk result (code.new ≡ code.old ++ form.start_code (environment_of environment.now)) }
{
    first_frame(code)?;
    statics_code(alloc, code, environment)?;
    main_called(code, &environment.known.typed.procedures)?;
    finish_code(code)
}
