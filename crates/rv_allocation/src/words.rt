// The two words behind the temporaries in use in which what a generation is made of waits: its signature's number, and the extent
// for REFER.

ghost use Rattle.std.specs.Prelude.{◌≡◌, ◌++◌, OnOk, IfOk};
ghost use Rattle.pli_coding.specs.Allocating as form;
ghost use Rattle.pli_frames.specs.TakenView.{taken_of};
ghost use Rattle.rv_allocation.specs.Pieces.{extent_kept, extent_waiting, number_kept, number_waiting};

use pli_frames::fixed::words_place;
use pli_frames::taken::Taken;
use rv_assembly::code::Code;
use rv_assembly::registers::{a0, a1, frame};
use rv_meaning::instr::Register;
use std::alloc::AllocError;

fn allocated_number(taken: Taken) -> Result<i32, AllocError>
    ensures { IfOk result (λ d. d ≡ form.allocated_number (taken_of taken)) }
{
    words_place(taken.words, 1)
}

fn allocated_extent(taken: Taken) -> Result<i32, AllocError>
    ensures { IfOk result (λ d. d ≡ form.allocated_extent (taken_of taken)) }
{
    let behind = taken.with_words(1)?;
    words_place(behind.words, 1)
}

/// The number in a0 begins to wait.
fn number_kept(code: &mut Code, taken: Taken) -> Result<(), AllocError>
    ensures { OnOk result (code.new ≡ code.old ++ number_kept (taken_of taken)) }
{
    let place = allocated_number(taken)?;
    code.store_word(frame(), a0(), place)
}

/// The extent in a1 begins to wait.
fn extent_kept(code: &mut Code, taken: Taken) -> Result<(), AllocError>
    ensures { OnOk result (code.new ≡ code.old ++ extent_kept (taken_of taken)) }
{
    let place = allocated_extent(taken)?;
    code.store_word(frame(), a1(), place)
}

/// The number in a0 and the extent in a1 begin to wait.
pub fn both_kept(code: &mut Code, taken: Taken) -> Result<(), AllocError>
    ensures { OnOk result (code.new ≡ code.old ++ form.both_kept (taken_of taken)) }
{
    number_kept(code, taken)?;
    extent_kept(code, taken)
}

/// The number that waits, in a register.
pub fn number_waiting(code: &mut Code, register: Register, taken: Taken) -> Result<(), AllocError>
    ensures { OnOk result (code.new ≡ code.old ++ number_waiting register (taken_of taken)) }
{
    let place = allocated_number(taken)?;
    code.load_word(register, frame(), place)
}

/// The extent that waits, in a register.
pub fn extent_waiting(code: &mut Code, register: Register, taken: Taken) -> Result<(), AllocError>
    ensures { OnOk result (code.new ≡ code.old ++ extent_waiting register (taken_of taken)) }
{
    let place = allocated_extent(taken)?;
    code.load_word(register, frame(), place)
}

/// The temporaries in use while they wait.
pub fn behind_amounts(taken: Taken) -> Result<Taken, AllocError>
    ensures { IfOk result (λ t. taken_of t ≡ form.behind_amounts (taken_of taken)) }
{
    taken.with_words(2)
}
