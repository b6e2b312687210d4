// Procedures: called with the frame of the block that declares them in a0, a list of arguments in a1, and in a2 how many texts go
// with it.

ghost use Rattle.std.specs.Prelude.{◌≡◌, length, map, ◌++◌, OnOk};
ghost use Rattle.pli_language.specs.View.{option_of};
ghost use Rattle.pli_typing.specs.TypedView.{leaf_type_of};
ghost use Rattle.pli_typing.specs.TypedStatementView.{block_head_of, procedure_of, stmts_of};
ghost use Rattle.pli_coding.specs.Procedures as form;
ghost use Rattle.rv_address.specs.Around.{environment_of};
ghost use Rattle.rv_procedure.specs.Pieces.{list_taken, procedure_with, texts_counted};

use crate::ending::{end_reached, frame_returned, left_with};
use pli_frames::taken::none_taken;
use pli_typing::statement::{BlockHead, Procedure};
use pli_typing::typed::LeafType;
use rv_address::environment::{BlockPlace, Environment, Owner};
use rv_allocation::allocation::act_code;
use rv_assembly::code::Code;
use rv_assembly::item::{Item, Symbol};
use rv_assembly::registers::{a1, a2, a3, u5};
use rv_entry::block::block_entered;
use rv_entry::frame::frame_begun;
use rv_entry::parameter::{arguments_copied, list_kept};
use rv_entry::variable::variables_code;
use rv_statement::held::held_with;
use rv_statement::statement::stmts_code;
use rv_statement::temporaries::block_takes;
use std::alloc::{AllocError, Global};

/// In the frame of a procedure, whose end a RETURN goes to.
fn procedure_environment<'e, 't, 'a>(
    environment: Environment<'e, 't, 'a>,
    head: BlockHead,
) -> Environment<'e, 't, 'a>
    ensures { environment_of result ≡ form.procedure_environment (block_head_of head) (environment_of environment.entry) }
{
    environment
        .in_frame(head.number, head.level)
        .owned_by(Owner::Block(BlockPlace {
            number: head.number,
            level: head.level,
        }))
}

/// The list of arguments stays in u5 until the copies are made.
fn list_taken(code: &mut Code) -> Result<(), AllocError>
    ensures { OnOk result (code.new ≡ code.old ++ list_taken) }
{
    code.copy(u5(), a1())
}

/// The argument texts are counted in a3 as the block is entered.
fn texts_counted(code: &mut Code) -> Result<(), AllocError>
    ensures { OnOk result (code.new ≡ code.old ++ texts_counted) }
{
    code.copy(a3(), a2())
}

fn procedure_begun(
    alloc: Global,
    code: &mut Code,
    environment: &Environment,
    head: BlockHead,
    words: u32,
    held: u8,
    parameters: &[usize],
) -> Result<(), AllocError>
    ensures { OnOk result (code.new ≡ code.old ++ form.procedure_begun (environment_of environment.now) (block_head_of head) words held parameters.now) }
{
    frame_begun(code, words, head.level, parameters.len(), Some(held))?;
    list_taken(code)?;
    list_kept(code, head.level, parameters)?;
    texts_counted(code)?;
    block_entered(code, 0, head.line)?;
    arguments_copied(alloc, code, environment, parameters)?;
    variables_code(alloc, code, environment, head.line)?;
    Ok(act_code(code, head.line)?)
}

fn procedure_ended(
    code: &mut Code,
    environment: &Environment,
    head: BlockHead,
    words: u32,
    held: u8,
    kind: Option<LeafType>,
) -> Result<(), AllocError>
    ensures { OnOk result (code.new ≡ code.old ++ form.procedure_ended (environment_of environment.now) (block_head_of head) words held (option_of leaf_type_of kind)) }
{
    end_reached(code, environment, head, kind)?;
    code.push(Item::Mark(Symbol::ReturnPlace { block: head.number }))?;
    left_with(code, kind)?;
    frame_returned(code, words, held)
}

/// A procedure whose temporaries are so many words, and which saves so many registers.
#[tactic(auto, unfolding(crate::specs::Pieces::procedure_with))]
fn procedure_with(
    alloc: Global,
    code: &mut Code,
    environment: &Environment,
    procedure: &Procedure,
    words: u32,
    held: u8,
) -> Result<(), AllocError>
    ensures { OnOk result (code.new ≡ code.old ++ procedure_with (environment_of environment.now) (block_head_of procedure.now.block.head) (stmts_of procedure.now.block.body) words held (procedure_of procedure.now).parameters (procedure_of procedure.now).result) }
{
    let head = procedure.block.head;
    code.push(Item::Mark(Symbol::ProcedureEntry { block: head.number }))?;
    procedure_begun(
        alloc,
        code,
        environment,
        head,
        words,
        held,
        &procedure.parameters,
    )?;
    stmts_code(
        alloc,
        code,
        environment,
        none_taken(),
        &procedure.block.body,
    )?;
    procedure_ended(code, environment, head, words, held, procedure.result)
}

fn procedure_of_block(
    alloc: Global,
    code: &mut Code,
    environment: &Environment,
    procedure: &Procedure,
) -> Result<(), AllocError>
    ensures { OnOk result (code.new ≡ code.old ++ form.procedure_of_block (environment_of environment.now) (procedure_of procedure.now).block (procedure_of procedure.now).parameters (procedure_of procedure.now).result) }
{
    let head = procedure.block.head;
    let inner = procedure_environment(*environment, head);
    let own = block_takes(&inner, head.number, &procedure.block.body)?;
    let held = held_with(&inner, own.registers, &procedure.block.body)?;
    Ok(procedure_with(alloc, code, &inner, procedure, own.words, held)?)
}

/// The code of procedures, one behind the other.
#[tactic(auto, using(crate::proofs::Steps::next_procedure))]
pub fn procedures_code(
    alloc: Global,
    code: &mut Code,
    environment: &Environment,
    procedures: &[Procedure],
) -> Result<(), AllocError>
    ensures { OnOk result (code.new ≡ code.old ++ form.procedures_code (environment_of environment.now) (map procedure_of procedures.now)) }
{
    for procedure in procedures {
        procedure_of_block(alloc, code, environment, procedure)?;
    }
    Ok(())
}
