// GOTO, and the marks of labels.

ghost use Rattle.std.specs.Prelude.{◌≡◌, map, ◌++◌, OnOk, IfOk};
ghost use Rattle.pli_language.specs.View.{name_of};
ghost use Rattle.pli_typing.specs.Resolving.{letters_of};
ghost use Rattle.pli_coding.specs.Environments.{block_around, last_of_level};
ghost use Rattle.pli_coding.specs.Frames as frames;
ghost use Rattle.pli_coding.specs.Statements as form;
ghost use Rattle.pli_frames.specs.Parts.{parts};
ghost use Rattle.rv_address.specs.Around.{block_place_of, environment_of};
ghost use Rattle.rv_statement.specs.Pieces.{level_left};

use crate::returning::unwound_to;
use pli_language::expr::Name;
use pli_typing::typed::{StorageClass, Variable};
use rv_address::environment::{BlockPlace, Environment, variables_of_block};
use rv_address::frame::automatic_place;
use rv_address::number::signed;
use rv_assembly::code::Code;
use rv_assembly::item::{Item, Symbol};
use rv_assembly::registers::{frame, stack};
use std::alloc::{AllocError, Global};

/// The last block of a level up to a number.
#[tactic(auto, using(crate::proofs::Around::this_block, crate::proofs::Around::block_behind, crate::proofs::Around::block_elsewhere, std::proofs::lemmas::List::drop_all))]
fn last_of_level(number: usize, level: usize, blocks: &[BlockPlace]) -> usize
    ensures { result ≡ last_of_level number level 0 (map block_place_of blocks.now) }
{
    let mut found = 0;
    for block in blocks {
        if block.number <= number && block.level == level {
            found = block.number;
        }
    }
    found
}

/// The block around at a level.
fn block_around(environment: &Environment, level: usize) -> usize
    ensures { result ≡ block_around (environment_of environment.now) level }
{
    last_of_level(environment.block, level, environment.blocks)
}

/// Where the frame of a block ends once all variables are made.
#[tactic(auto, using(crate::proofs::Around::end_of_frame))]
fn frame_end(environment: &Environment, block: usize, level: usize) -> Result<u32, AllocError>
    ensures { IfOk result (λ n. n ≡ frames.frame_end parts (environment_of environment.now).program block level) }
{
    let variables = variables_of_block(environment.known.typed, block)?;
    let behind = Variable {
        class: StorageClass::Automatic,
        block,
        level,
        index: variables.len(),
    };
    Ok(automatic_place(environment, behind)?)
}

fn goto_outer(code: &mut Code, environment: &Environment, level: usize) -> Result<(), AllocError>
    ensures { OnOk result (code.new ≡ code.old ++ form.goto_outer (environment_of environment.now) level) }
{
    unwound_to(code, level, 0)?;
    let end = frame_end(environment, block_around(environment, level), level)?;
    code.plus(stack(), frame(), signed(end)?)
}

fn level_left(code: &mut Code, environment: &Environment, level: usize) -> Result<(), AllocError>
    ensures { OnOk result (code.new ≡ code.old ++ level_left (environment_of environment.now) level) }
{
    if level == environment.level {
        return Ok(());
    }
    goto_outer(code, environment, level)
}

/// A label of the block at a level.
pub(crate) fn goto_code(
    alloc: Global,
    code: &mut Code,
    environment: &Environment,
    level: usize,
    label: &[u8],
) -> Result<(), AllocError>
    ensures { OnOk result (code.new ≡ code.old ++ form.goto_code (environment_of environment.now) level label.now) }
{
    level_left(code, environment, level)?;
    let block = block_around(environment, level);
    let letters = label.to_vec(alloc)?;
    code.push(Item::JumpTo(Symbol::LabelPlace { block, letters }))
}

/// The places of labels.
#[tactic(auto, using(crate::proofs::Around::next_label, std::proofs::lemmas::List::drop_all))]
pub(crate) fn marked(
    alloc: Global,
    code: &mut Code,
    block: usize,
    labels: &[Name],
) -> Result<(), AllocError>
    ensures { OnOk result (code.new ≡ code.old ++ form.marked block (letters_of (map name_of labels.now))) }
{
    for label in labels {
        let letters = label.letters.to_vec(alloc)?;
        code.push(Item::Mark(Symbol::LabelPlace { block, letters }))?;
    }
    Ok(())
}
