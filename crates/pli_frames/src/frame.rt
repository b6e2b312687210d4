// Frames of blocks: the fixed part, and behind it the block's variables.

ghost use Rattle.std.specs.Prelude.{◌≡◌, map, length, IfOk};
ghost use Rattle.pli_typing.specs.TypedStatementView.{block_head_of, declared_variable_of, evaluation_of};
ghost use Rattle.pli_coding.specs.Entries as entries;
ghost use Rattle.pli_coding.specs.Extents as extents;
ghost use Rattle.pli_coding.specs.Frames as form;
ghost use Rattle.pli_frames.specs.Parts.{parts};
ghost use Rattle.pli_frames.specs.Plans.{frame_shown, frame_with, places_from};
ghost use Rattle.pli_frames.specs.TakenView.{taken_of};

use crate::size::{LAST_PLACE, frame_bytes, has_constant_size, is_automatic};
use crate::taken::{Taken, none_taken};
use crate::temporaries::number_takes;
use pli_typing::statement::BlockHead;
use pli_typing::typed::{DeclaredVariable, Evaluation};
use std::alloc::{AllocError, Global};

/// The frame of a block. Places are bytes from its address.
#[derive(Debug, Drop)]
pub struct BlockFrame {
    pub head: BlockHead,
    /// The most words that its temporaries take, below its address.
    pub words: u32,
    /// How many parameters it has.
    pub parameters: usize,
    /// For each variable of the block the place of its name, or where it would be: only AUTOMATIC ones lie in the
    /// frame.
    pub places: Vec<u32>,
    /// The place behind all variables.
    pub end: u32,
}

/// The bytes of a frame's fixed part: what is saved, the display, and where the list of arguments is. More than 32 bits
/// hold is want of memory.
pub fn fixed_size(level: usize, parameters: usize) -> Result<u32, AllocError>
    ensures { IfOk result (λ n. n ≡ form.fixed_size level parameters) }
{
    if level >= 1 << 24 {
        return Err(AllocError);
    }
    let bytes = 144 + 4 * level as u32 + 4 * parameters.min(1) as u32;
    Ok((bytes + 15) / 16 * 16)
}

#[tactic(auto, using(crate::proofs::Most::next_evaluation, std::proofs::lemmas::List::drop_all))]
fn evaluations_take(taken: Taken, all: &[Evaluation]) -> Result<Taken, AllocError>
    ensures { IfOk result (λ t. taken_of t ≡ extents.evaluations_take (taken_of taken) (map evaluation_of all.now)) }
{
    let mut most = none_taken();
    for one in all {
        most = most.most(number_takes(taken, &one.value)?);
    }
    Ok(most.most(taken))
}

/// What the extents of a variable take as they are evaluated.
pub fn extents_take(taken: Taken, variable: &DeclaredVariable) -> Result<Taken, AllocError>
    ensures { IfOk result (λ t. taken_of t ≡ extents.extents_take (taken_of taken) (declared_variable_of variable.now)) }
{
    evaluations_take(taken.with_words(4)?, &variable.evaluations)
}

/// What making a variable takes.
fn variable_takes(variable: &DeclaredVariable) -> Result<Taken, AllocError>
    ensures { IfOk result (λ t. taken_of t ≡ entries.variable_takes (declared_variable_of variable.now)) }
{
    if !is_automatic(variable.class) || has_constant_size(variable) {
        return Ok(none_taken());
    }
    extents_take(none_taken(), variable)
}

/// What making the variables of a block takes.
#[tactic(auto, using(crate::proofs::Most::next_variable, crate::proofs::Most::none_left, std::proofs::lemmas::List::drop_all))]
pub fn variables_take(all: &[DeclaredVariable]) -> Result<Taken, AllocError>
    ensures { IfOk result (λ t. taken_of t ≡ entries.variables_take (map declared_variable_of all.now)) }
{
    let mut most = none_taken();
    for one in all {
        most = most.most(variable_takes(one)?);
    }
    Ok(most)
}

/// The places of variables from one on, and the one behind them.
#[tactic(auto, using(crate::proofs::Placing::next_place, crate::proofs::Placing::next_end, crate::proofs::Placing::nothing_more, std::proofs::lemmas::List::drop_all))]
fn places_from(
    alloc: Global,
    start: u32,
    variables: &[DeclaredVariable],
) -> Result<(Vec<u32>, u32), AllocError>
    ensures places { IfOk result (λ p. p.0.items ≡ places_from start (map declared_variable_of variables.now)) }
    ensures end { IfOk result (λ p. p.1 ≡ form.variable_place parts start (map declared_variable_of variables.now) (length variables.now)) }
{
    let mut places = Vec::new(alloc);
    let mut at = start;
    for variable in variables {
        places.push(at)?;
        at = LAST_PLACE.min(u64::from(at) + frame_bytes(variable)) as u32;
    }
    Ok((places, at))
}

/// The frame of a block whose statements take so many words.
pub(crate) fn frame_with(
    alloc: Global,
    head: BlockHead,
    words: u32,
    parameters: usize,
    variables: &[DeclaredVariable],
) -> Result<BlockFrame, AllocError>
    ensures { IfOk result (λ f. frame_shown f ≡ frame_with (block_head_of head) words parameters (map declared_variable_of variables.now)) }
{
    let (places, end) = places_from(alloc, fixed_size(head.level, parameters)?, variables)?;
    Ok(BlockFrame {
        head,
        words: variables_take(variables)?.words.max(words),
        parameters,
        places,
        end,
    })
}
