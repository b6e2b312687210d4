// How procedures end, and how calls of them and of routines go back.

ghost use Rattle.std.specs.Prelude.{◌≡◌, ◌++◌, Some, OnOk};
ghost use Rattle.pli_language.specs.View.{option_of};
ghost use Rattle.pli_typing.specs.TypedTree as Y;
ghost use Rattle.pli_typing.specs.TypedView.{leaf_type_of};
ghost use Rattle.pli_typing.specs.TypedStatementView.{block_head_of, program_of};
ghost use Rattle.pli_coding.specs.Procedures as form;
ghost use Rattle.rv_address.specs.Around.{environment_of};
ghost use Rattle.rv_procedure.specs.Pieces.{value_missing};

use pli_typing::statement::{BlockHead, Typed};
use pli_typing::typed::LeafType;
use rv_address::environment::Environment;
use rv_assembly::code::Code;
use rv_assembly::registers::{a0, a1, frame, return_register, zero};
use rv_entry::block::block_left;
use rv_entry::frame::{all_restored, frame_ended};
use rv_meaning::instr::Instr;
use rv_start::finish::finish_code;
use std::alloc::AllocError;

/// The place of a function's result in its frame.
const RESULT: i32 = 48;

/// Back to the caller, from a frame whose block's temporaries are so many words, and which saved so many registers.
pub fn frame_returned(code: &mut Code, words: u32, held: u8) -> Result<(), AllocError>
    ensures { OnOk result (code.new ≡ code.old ++ form.frame_returned words held) }
{
    all_restored(code, held)?;
    frame_ended(code, words)?;
    code.plain(Instr::JumpRegister {
        rd: zero(),
        rs1: return_register(),
        offset: 0,
    })
}

// ---- the end of a function that was reached without a value

/// Whether a block is the main procedure's.
#[tactic(auto, using(crate::proofs::Steps::first_is_main, crate::proofs::Steps::none_is_main))]
fn is_main(typed: &Typed, block: usize) -> bool
    ensures { result ≡ form.is_main (program_of typed.now) block }
{
    if typed.procedures.len() == 0 {
        return false;
    }
    let main = &typed.procedures[0];
    main.block.head.number == block
}

fn no_value(code: &mut Code, line: u32) -> Result<(), AllocError>
    ensures { OnOk result (code.new ≡ code.old ++ form.no_value line) }
{
    code.number(a0(), line)?;
    code.small(a1(), 1)?;
    code.service(1)?;
    code.error_raised(112)
}

fn value_missing(
    code: &mut Code,
    environment: &Environment,
    head: BlockHead,
) -> Result<(), AllocError>
    ensures { OnOk result (code.new ≡ code.old ++ value_missing (environment_of environment.now) (block_head_of head)) }
{
    if is_main(environment.known.typed, head.number) {
        finish_code(code)
    } else {
        no_value(code, head.line)
    }
}

/// A function has no end without a value, but the main procedure, which no reference calls.
pub fn end_reached(
    code: &mut Code,
    environment: &Environment,
    head: BlockHead,
    kind: Option<LeafType>,
) -> Result<(), AllocError>
    ensures { OnOk result (code.new ≡ code.old ++ form.end_reached (environment_of environment.now) (block_head_of head) (option_of leaf_type_of kind)) }
{
    match kind {
        None => Ok(()),
        Some(_) => value_missing(code, environment, head),
    }
}

// ---- what a procedure leaves

fn number_left(code: &mut Code) -> Result<(), AllocError>
    ensures { OnOk result (code.new ≡ code.old ++ form.left_with (Some Y.BitLeaf)) }
{
    block_left(code, 0)?;
    code.load_word(a0(), frame(), RESULT)
}

fn name_left(code: &mut Code) -> Result<(), AllocError>
    ensures { OnOk result (code.new ≡ code.old ++ form.left_with (Some Y.PointerLeaf)) }
{
    block_left(code, 0)?;
    code.plus(a0(), frame(), RESULT)
}

fn value_left(code: &mut Code, kind: LeafType) -> Result<(), AllocError>
    ensures { OnOk result (code.new ≡ code.old ++ form.left_with (Some (leaf_type_of kind))) }
{
    match kind {
        LeafType::Character(_) => block_left(code, 1),
        LeafType::Varying(_) => block_left(code, 1),
        LeafType::Pointer => name_left(code),
        LeafType::Fixed(_) => number_left(code),
        LeafType::Bit => number_left(code),
        LeafType::Offset(_) => number_left(code),
        LeafType::Area(_) => number_left(code),
    }
}

/// What a procedure leaves: a number in a0, the address of a name in a0, the top text, or nothing.
pub fn left_with(code: &mut Code, kind: Option<LeafType>) -> Result<(), AllocError>
    ensures { OnOk result (code.new ≡ code.old ++ form.left_with (option_of leaf_type_of kind)) }
{
    match kind {
        None => block_left(code, 0),
        Some(kind) => value_left(code, kind),
    }
}
