// Frames as they begin and end.

ghost use Rattle.std.specs.Prelude.{◌≡◌, ◌<◌, ◌++◌, OnOk};
ghost use Rattle.pli_coding.specs.Entries as form;
ghost use Rattle.rv_entry.specs.Pieces.{display_ended, display_kept, display_read, display_written, frame_left, frame_linked, frame_measured, frame_placed, register_restored, register_saved, return_restored, return_saved, stack_lowered, stack_raised};

use pli_frames::fixed::{
    display, frame_below, lower_top, own_offset, return_address, saved_register, temporary_bytes,
};
use pli_frames::frame::fixed_size;
use rv_address::number::signed;
use rv_assembly::code::Code;
use rv_assembly::item::Item;
use rv_assembly::registers::{a0, frame, held, return_register, stack, u0, u1};
use rv_meaning::instr::Register;
use std::alloc::AllocError;

// ---- the registers that hold temporaries

#[tactic(auto, unfolding(crate::specs::Pieces::register_saved))]
fn register_saved(code: &mut Code, frame: Register, n: u8) -> Result<(), AllocError>
    ensures { OnOk result (code.new ≡ code.old ++ register_saved frame n) }
{
    code.store_word(frame, held(n as usize), saved_register(n))
}

#[tactic(auto, unfolding(crate::specs::Pieces::register_restored))]
fn register_restored(code: &mut Code, n: u8) -> Result<(), AllocError>
    ensures { OnOk result (code.new ≡ code.old ++ register_restored n) }
{
    code.load_word(held(n as usize), frame(), saved_register(n))
}

fn return_saved(code: &mut Code, frame: Register) -> Result<(), AllocError>
    ensures { OnOk result (code.new ≡ code.old ++ return_saved frame) }
{
    code.store_word(frame, return_register(), return_address())
}

fn return_restored(code: &mut Code) -> Result<(), AllocError>
    ensures { OnOk result (code.new ≡ code.old ++ return_restored) }
{
    code.load_word(return_register(), frame(), return_address())
}

#[tactic(auto, using(crate::proofs::Frames::next_saved, crate::proofs::Frames::all_are_saved))]
fn registers_saved(code: &mut Code, frame: Register, count: u8) -> Result<(), AllocError>
    ensures { OnOk result (code.new ≡ code.old ++ form.registers_saved frame 0 count) }
{
    for n in 0..count {
        register_saved(code, frame, n)?;
    }
    Ok(())
}

/// The first so many registers that hold temporaries, from the running frame.
#[tactic(auto, using(crate::proofs::Frames::next_restored, crate::proofs::Frames::all_are_restored))]
pub fn held_restored(code: &mut Code, count: u8) -> Result<(), AllocError>
    ensures { OnOk result (code.new ≡ code.old ++ form.registers_restored 0 count) }
{
    for n in 0..count {
        register_restored(code, n)?;
    }
    Ok(())
}

fn all_saved(code: &mut Code, frame: Register, count: u8) -> Result<(), AllocError>
    ensures { OnOk result (code.new ≡ code.old ++ form.all_saved frame count) }
{
    return_saved(code, frame)?;
    registers_saved(code, frame, count)
}

/// All that a frame saved, with so many registers that hold temporaries, from the running frame.
pub fn all_restored(code: &mut Code, count: u8) -> Result<(), AllocError>
    ensures { OnOk result (code.new ≡ code.old ++ form.all_restored count) }
{
    return_restored(code)?;
    held_restored(code, count)
}

// ---- the display

#[tactic(auto, unfolding(crate::specs::Pieces::display_read))]
fn display_read(code: &mut Code, n: usize) -> Result<(), AllocError>
    ensures { OnOk result (code.new ≡ code.old ++ display_read n) }
{
    let place = display(n)?;
    code.load_word(u1(), a0(), place)
}

#[tactic(auto, unfolding(crate::specs::Pieces::display_written))]
fn display_written(code: &mut Code, register: Register, n: usize) -> Result<(), AllocError>
    ensures { OnOk result (code.new ≡ code.old ++ display_written register n) }
{
    let place = display(n)?;
    code.store_word(frame(), register, place)
}

/// The word for a level, from the frame in a0.
#[tactic(auto, unfolding(crate::specs::Pieces::display_kept))]
fn display_kept(code: &mut Code, n: usize) -> Result<(), AllocError>
    ensures { OnOk result (code.new ≡ code.old ++ display_kept n) }
{
    display_read(code, n)?;
    display_written(code, u1(), n)
}

/// The word for the level of the frame in a0.
#[tactic(auto, unfolding(crate::specs::Pieces::display_ended))]
fn display_ended(code: &mut Code, outer: usize) -> Result<(), AllocError>
    ensures { OnOk result (code.new ≡ code.old ++ display_ended outer) }
{
    display_written(code, a0(), outer)
}

/// The words up to a level, from the frame in a0, and that frame itself.
#[tactic(auto, using(crate::proofs::Frames::next_displayed, crate::proofs::Frames::outer_displayed))]
fn display_copied(code: &mut Code, outer: usize) -> Result<(), AllocError>
    ensures { OnOk result (code.new ≡ code.old ++ form.display_copied 0 outer) }
{
    for n in 0..outer {
        display_kept(code, n)?;
    }
    Ok(display_ended(code, outer)?)
}

#[tactic(auto, using(crate::proofs::Frames::some_level))]
fn display_made(code: &mut Code, level: usize) -> Result<(), AllocError>
    ensures { OnOk result (code.new ≡ code.old ++ form.display_made level) }
{
    if level == 0 {
        return Ok(());
    }
    Ok(display_copied(code, level - 1)?)
}

// ---- frames

fn saved_if(code: &mut Code, saved: Option<u8>) -> Result<(), AllocError>
    ensures { OnOk result (code.new ≡ code.old ++ form.saved_if saved) }
{
    match saved {
        None => Ok(()),
        Some(count) => all_saved(code, u0(), count),
    }
}

/// Where the new frame is, in u0.
#[tactic(auto, unfolding(crate::specs::Pieces::frame_placed))]
fn frame_placed(code: &mut Code, words: u32) -> Result<(), AllocError>
    ensures { OnOk result (code.new ≡ code.old ++ frame_placed words) }
{
    let bytes = signed(temporary_bytes(words)?)?;
    code.plus(u0(), stack(), bytes)
}

/// The frame below, and the lower stack's top, which goes on.
#[tactic(auto, unfolding(crate::specs::Pieces::frame_linked))]
fn frame_linked(code: &mut Code) -> Result<(), AllocError>
    ensures { OnOk result (code.new ≡ code.old ++ frame_linked) }
{
    code.store_word(u0(), frame(), frame_below())?;
    code.load_word(u1(), frame(), lower_top())?;
    code.copy(frame(), u0())?;
    code.store_word(frame(), u1(), lower_top())
}

/// The frame's own offset.
#[tactic(auto, unfolding(crate::specs::Pieces::frame_measured))]
fn frame_measured(code: &mut Code) -> Result<(), AllocError>
    ensures { OnOk result (code.new ≡ code.old ++ frame_measured) }
{
    code.push(Item::BaseIn(u1()))?;
    code.subtract(u1(), frame(), u1())?;
    code.store_word(frame(), u1(), own_offset())
}

/// The stack goes on behind the frame's fixed part.
#[tactic(auto, unfolding(crate::specs::Pieces::stack_raised))]
fn stack_raised(code: &mut Code, level: usize, parameters: usize) -> Result<(), AllocError>
    ensures { OnOk result (code.new ≡ code.old ++ stack_raised level parameters) }
{
    let bytes = signed(fixed_size(level, parameters)?)?;
    code.plus(stack(), frame(), bytes)
}

/// A new frame above the temporaries of its block, which are so many words; the frame of the block around it is in a0. One that is
/// called or raised saves so many registers that hold temporaries.
#[tactic(auto, using(crate::proofs::Frames::frames))]
pub fn frame_begun(
    code: &mut Code,
    words: u32,
    level: usize,
    parameters: usize,
    saved: Option<u8>,
) -> Result<(), AllocError>
    ensures { OnOk result (code.new ≡ code.old ++ form.frame_begun words level parameters saved) }
{
    frame_placed(code, words)?;
    saved_if(code, saved)?;
    frame_linked(code)?;
    display_made(code, level)?;
    frame_measured(code)?;
    stack_raised(code, level, parameters)
}

/// The stack ends where the temporaries of the running frame begin.
#[tactic(auto, unfolding(crate::specs::Pieces::stack_lowered))]
fn stack_lowered(code: &mut Code, words: u32) -> Result<(), AllocError>
    ensures { OnOk result (code.new ≡ code.old ++ stack_lowered words) }
{
    let bytes = signed(temporary_bytes(words)?)?;
    code.plus(stack(), frame(), -bytes)
}

#[tactic(auto, unfolding(crate::specs::Pieces::frame_left))]
fn frame_left(code: &mut Code) -> Result<(), AllocError>
    ensures { OnOk result (code.new ≡ code.old ++ frame_left) }
{
    code.load_word(frame(), frame(), frame_below())
}

/// The running frame ends, whose block's temporaries are so many words.
#[tactic(auto, unfolding(crate::specs::Pieces::stack_lowered, crate::specs::Pieces::frame_left))]
pub fn frame_ended(code: &mut Code, words: u32) -> Result<(), AllocError>
    ensures { OnOk result (code.new ≡ code.old ++ form.frame_ended words) }
{
    stack_lowered(code, words)?;
    frame_left(code)
}
