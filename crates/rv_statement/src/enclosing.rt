// What stands before and behind the statements that others hold: of DO with a variable, of blocks and of on-units.

ghost use Rattle.std.specs.Prelude.{◌≡◌, [], ◌∷◌, ◌++◌, OnOk, IfOk};
ghost use Rattle.pli_language.specs.View.{option_of};
ghost use Rattle.pli_typing.specs.TypedView.{bit_of, number_of, reference_of, stored_of, value_of};
ghost use Rattle.pli_typing.specs.TypedStatementView.{block_head_of, counter_of};
ghost use Rattle.pli_coding.specs.Assembly.{Mark, ReturnPlace};
ghost use Rattle.pli_coding.specs.Environments.{BlockOwner};
ghost use Rattle.pli_coding.specs.Statements as form;
ghost use Rattle.pli_frames.specs.TakenView.{taken_of};
ghost use Rattle.rv_address.specs.Around.{environment_of, owner_of};
ghost use Rattle.rv_statement.specs.Ahead.{ComesTo, ComesToIf};
ghost use Rattle.rv_statement.specs.Pieces.{block_begun, block_ended, counting, held_back, once_begun, once_tested, unit_announced, unit_begun, unit_ended, unit_gone, unit_told};

use crate::condition::condition_given;
use crate::counter::count_begun;
use crate::single::{acted, assign_statement};
use crate::tested::test_begun;
use pli_frames::taken::Taken;
use pli_language::condition::Condition;
use pli_typing::statement::{BlockHead, BlockKind};
use pli_typing::typed::{Bit, Counter, Number, Reference, Stored, Value};
use rv_address::environment::{BlockPlace, Environment, Owner};
use rv_assembly::code::Code;
use rv_assembly::item::{Item, Symbol};
use rv_assembly::place::Place;
use rv_assembly::registers::{a0, a1, frame, u0, zero};
use rv_entry::block::{block_left, entered_without_texts};
use rv_entry::frame::{frame_begun, frame_ended, held_restored};
use rv_entry::variable::variables_code;
use rv_meaning::instr::Instr;
use std::alloc::{AllocError, Global};

// ---- DO with a variable

/// The test before the only turn, if there is one.
fn once_tested(
    alloc: Global,
    code: &mut Code,
    environment: &Environment,
    taken: Taken,
    condition: &Option<Bit>,
    line: u32,
) -> Result<Option<Place>, AllocError>
    ensures written { OnOk result (code.new ≡ code.old ++ once_tested (environment_of environment.now) (taken_of taken) (option_of bit_of condition.now) line 0) }
    ensures place { IfOk result (λ p. ComesToIf code.new p (λ n. code.old ++ once_tested (environment_of environment.now) (taken_of taken) (option_of bit_of condition.now) line n)) }
{
    match condition {
        Some(condition) => {
            let place = test_begun(alloc, code, environment, taken, condition, line)?;
            Ok(Some(place))
        }
        None => Ok(None),
    }
}

/// DO with one turn at most, up to its body.
pub(crate) fn once_begun(
    alloc: Global,
    code: &mut Code,
    environment: &Environment,
    taken: Taken,
    variable: &Reference,
    start: &Stored,
    condition: &Option<Bit>,
    line: u32,
) -> Result<Option<Place>, AllocError>
    ensures { IfOk result (λ p. ComesToIf code.new p (λ n. code.old ++ once_begun (environment_of environment.now) (taken_of taken) (reference_of variable.now) (stored_of start.now) (option_of bit_of condition.now) line n)) }
{
    assign_statement(alloc, code, environment, taken, variable, start, line)?;
    Ok(once_tested(alloc, code, environment, taken, condition, line)?)
}

/// DO with turns that are counted, up to the first of them.
#[tactic(auto, unfolding(crate::specs::Pieces::counting))]
pub(crate) fn counting(
    alloc: Global,
    code: &mut Code,
    environment: &Environment,
    taken: Taken,
    counter: &Counter,
    start: &Value,
    limit: &Option<Number>,
    step: &Number,
    line: u32,
) -> Result<(), AllocError>
    ensures { OnOk result (code.new ≡ code.old ++ counting (environment_of environment.now) (taken_of taken) (counter_of counter.now) (value_of start.now) (option_of number_of limit.now) (number_of step.now) line) }
{
    acted(code, line)?;
    count_begun(alloc, code, environment, taken, counter, start, limit, step)
}

// ---- blocks

/// A begin block up to its statements, whose environment this is.
#[tactic(auto, unfolding(crate::specs::Pieces::block_begun))]
pub(crate) fn block_begun(
    alloc: Global,
    code: &mut Code,
    inside: &Environment,
    level: usize,
    words: u32,
    line: u32,
) -> Result<(), AllocError>
    ensures { OnOk result (code.new ≡ code.old ++ block_begun (environment_of inside.now) level words line) }
{
    acted(code, line)?;
    code.copy(a0(), frame())?;
    frame_begun(code, words, level, 0, None)?;
    entered_without_texts(code, 1, line)?;
    variables_code(alloc, code, inside, line)
}

/// A begin block behind its statements.
#[tactic(auto, unfolding(crate::specs::Pieces::block_ended))]
pub(crate) fn block_ended(code: &mut Code, words: u32) -> Result<(), AllocError>
    ensures { OnOk result (code.new ≡ code.old ++ block_ended words) }
{
    block_left(code, 0)?;
    frame_ended(code, words)
}

// ---- on-units

/// Where a RETURN in an on-unit goes.
pub(crate) fn owner_of_unit(head: BlockHead) -> Owner
    ensures { owner_of result ≡ form.owner_of_unit (block_head_of head) (block_head_of head).kind }
{
    match head.kind {
        BlockKind::SimpleUnit => Owner::Unit,
        BlockKind::Procedure => owner_here(head),
        BlockKind::Begin => owner_here(head),
        BlockKind::Unit => owner_here(head),
    }
}

fn owner_here(head: BlockHead) -> Owner
    ensures { owner_of result ≡ BlockOwner (record { number = head.number; level = head.level }) }
{
    Owner::Block(BlockPlace {
        number: head.number,
        level: head.level,
    })
}

/// Where the unit stands is told.
#[tactic(auto, unfolding(crate::specs::Pieces::unit_told))]
fn unit_told(code: &mut Code, condition: Condition, line: u32) -> Result<(), AllocError>
    ensures { OnOk result (code.new ≡ code.old ++ unit_told condition line) }
{
    acted(code, line)?;
    code.push(Item::OffsetAhead(a1(), 5))?;
    condition_given(code, condition)?;
    code.service(28)
}

/// Where the unit stands is told, and it is jumped over.
pub(crate) fn unit_announced(
    code: &mut Code,
    condition: Condition,
    line: u32,
) -> Result<Place, AllocError>
    ensures { IfOk result (λ p. ComesTo code.new p (λ n. code.old ++ unit_announced condition line n)) }
{
    unit_told(code, condition, line)?;
    Ok(code.keep_jump()?)
}

/// The variables of a unit; a simple one declares nothing.
fn unit_variables(
    alloc: Global,
    code: &mut Code,
    inside: &Environment,
    head: BlockHead,
) -> Result<(), AllocError>
    ensures { OnOk result (code.new ≡ code.old ++ form.unit_variables (environment_of inside.now) (block_head_of head) (block_head_of head).kind) }
{
    match head.kind {
        BlockKind::SimpleUnit => Ok(()),
        BlockKind::Procedure => variables_code(alloc, code, inside, head.line),
        BlockKind::Begin => variables_code(alloc, code, inside, head.line),
        BlockKind::Unit => variables_code(alloc, code, inside, head.line),
    }
}

/// An on-unit up to its statements, whose environment this is.
#[tactic(auto, unfolding(crate::specs::Pieces::unit_begun))]
pub(crate) fn unit_begun(
    alloc: Global,
    code: &mut Code,
    inside: &Environment,
    head: BlockHead,
    words: u32,
    held: u8,
) -> Result<(), AllocError>
    ensures { OnOk result (code.new ≡ code.old ++ unit_begun (environment_of inside.now) (block_head_of head) words held) }
{
    frame_begun(code, words, head.level, 0, Some(held))?;
    entered_without_texts(code, 2, head.line)?;
    unit_variables(alloc, code, inside, head)?;
    acted(code, head.line)
}

/// Where a RETURN in the unit goes; a simple one needs no mark.
fn unit_mark(code: &mut Code, head: BlockHead) -> Result<(), AllocError>
    ensures { OnOk result (code.new ≡ code.old ++ form.unit_mark (block_head_of head) (block_head_of head).kind) }
{
    match head.kind {
        BlockKind::SimpleUnit => Ok(()),
        BlockKind::Procedure => return_marked(code, head.number),
        BlockKind::Begin => return_marked(code, head.number),
        BlockKind::Unit => return_marked(code, head.number),
    }
}

fn return_marked(code: &mut Code, block: usize) -> Result<(), AllocError>
    ensures { OnOk result (code.new ≡ code.old ++ Mark (ReturnPlace block) ∷ []) }
{
    code.push(Item::Mark(Symbol::ReturnPlace { block }))
}

#[tactic(auto, unfolding(crate::specs::Pieces::held_back))]
fn held_back(code: &mut Code, held: u8) -> Result<(), AllocError>
    ensures { OnOk result (code.new ≡ code.old ++ held_back held) }
{
    held_restored(code, held)
}

/// A unit goes on where its raise said, with its condition's code in a1.
#[tactic(auto, unfolding(crate::specs::Pieces::unit_gone))]
fn unit_gone(code: &mut Code, words: u32, held: u8) -> Result<(), AllocError>
    ensures { OnOk result (code.new ≡ code.old ++ unit_gone words held) }
{
    code.service(31)?;
    held_back(code, held)?;
    frame_ended(code, words)?;
    code.push(Item::BaseIn(u0()))?;
    code.add(u0(), u0(), a0())?;
    code.plain(Instr::JumpRegister {
        rd: zero(),
        rs1: u0(),
        offset: 0,
    })
}

/// An on-unit behind its statements.
#[tactic(auto, unfolding(crate::specs::Pieces::unit_ended))]
pub(crate) fn unit_ended(
    code: &mut Code,
    head: BlockHead,
    words: u32,
    held: u8,
) -> Result<(), AllocError>
    ensures { OnOk result (code.new ≡ code.old ++ unit_ended (block_head_of head) words held) }
{
    unit_mark(code, head)?;
    unit_gone(code, words, held)
}
