// The frames of all blocks of a program.

ghost use Rattle.std.specs.Prelude.{◌≡◌, ℕ, nat_eq, map, length, IfOk};
ghost use Rattle.indexmap.specs.IndexMap.{get};
ghost use Rattle.pli_typing.specs.TypedStatementView.{procedure_of, program_of};
ghost use Rattle.pli_coding.specs.Frames.{parameters_of_block};
ghost use Rattle.pli_frames.specs.Blocks.{block_words_of};
ghost use Rattle.pli_frames.specs.Plans.{declaring_frame, frame_of, frame_shown, parameters_found, planned};

use crate::body::{BlockWords, blocks_of};
use crate::frame::{BlockFrame, frame_with};
use indexmap::IndexMap;
use pli_typing::statement::{BlockKind, Procedure, Typed};
use std::alloc::{AllocError, Global};

/// How many parameters procedures have, by the numbers of their blocks; where two have a number, the first one counts.
fn parameters_by_number(
    alloc: Global,
    procedures: &[Procedure],
) -> Result<IndexMap<usize, usize>, AllocError>
    ensures { IfOk result (λ m. (n : ℕ) → get nat_eq m n ≡ parameters_found n (map procedure_of procedures.now)) }
{
    let mut counts = IndexMap::new(alloc);
    let mut left = procedures.len();
    while left > 0 {
        left -= 1;
        let procedure = &procedures[left];
        counts.insert(procedure.block.head.number, procedure.parameters.len())?;
    }
    Ok(counts)
}

/// How many parameters the block of a number has.
#[tactic(auto, using(crate::proofs::Framing::parameters_are))]
fn parameters_of(typed: &Typed, counts: &IndexMap<usize, usize>, number: usize) -> usize
    requires { (n : ℕ) → get nat_eq counts.now n ≡ parameters_found n (program_of typed.now).procedures }
    ensures { result ≡ length (parameters_of_block (program_of typed.now) number) }
{
    match counts.get(&number) {
        Some(count) => *count,
        None => 0,
    }
}

/// The frame of a block that may declare variables.
#[tactic(auto, using(crate::proofs::Framing::variables_here, crate::proofs::Framing::variables_nowhere))]
fn declaring_frame(
    alloc: Global,
    typed: &Typed,
    counts: &IndexMap<usize, usize>,
    block: &BlockWords,
) -> Result<BlockFrame, AllocError>
    requires { (n : ℕ) → get nat_eq counts.now n ≡ parameters_found n (program_of typed.now).procedures }
    ensures { IfOk result (λ f. frame_shown f ≡ declaring_frame (program_of typed.now) (block_words_of block.now)) }
{
    let number = block.head.number;
    let parameters = parameters_of(typed, counts, number);
    if number < typed.variables.len() {
        let variables = &typed.variables[number];
        return Ok(frame_with(alloc, block.head, block.words, parameters, variables)?);
    }
    Ok(frame_with(alloc, block.head, block.words, parameters, &[])?)
}

/// The frame of a block.
fn frame_of(
    alloc: Global,
    typed: &Typed,
    counts: &IndexMap<usize, usize>,
    block: &BlockWords,
) -> Result<BlockFrame, AllocError>
    requires { (n : ℕ) → get nat_eq counts.now n ≡ parameters_found n (program_of typed.now).procedures }
    ensures { IfOk result (λ f. frame_shown f ≡ frame_of (program_of typed.now) (block_words_of block.now)) }
{
    match block.head.kind {
        BlockKind::SimpleUnit => frame_with(alloc, block.head, block.words, 0, &[]),
        BlockKind::Procedure => declaring_frame(alloc, typed, counts, block),
        BlockKind::Begin => declaring_frame(alloc, typed, counts, block),
        BlockKind::Unit => declaring_frame(alloc, typed, counts, block),
    }
}

/// The frame of each block of a program, in the order in which blocks begin, an outer one before those inside it: procedure
/// after procedure, each with the begin blocks and on-units in it. Time is linear in the program. Where memory runs out, or a
/// frame has more words or bytes than 32 bits hold, that is want of memory.
#[tactic(auto, using(crate::proofs::Framing::next_frame, crate::proofs::Framing::nothing_behind, std::proofs::lemmas::List::drop_all))]
pub fn plan(alloc: Global, typed: &Typed) -> Result<Vec<BlockFrame>, AllocError>
    ensures { IfOk result (λ fs. map frame_shown fs.items ≡ planned (program_of typed.now)) }
{
    let counts = parameters_by_number(alloc, &typed.procedures)?;
    let blocks = blocks_of(alloc, &typed.procedures)?;
    let mut frames = Vec::new(alloc);
    for block in &blocks {
        frames.push(frame_of(alloc, typed, &counts, block)?)?;
    }
    Ok(frames)
}
