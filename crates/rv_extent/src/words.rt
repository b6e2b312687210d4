// The four words behind the temporaries in use in which extents wait: the number of the signature so far, the bytes to reserve, a
// lower bound, and the extent for REFER.

ghost use Rattle.std.specs.Prelude.{◌≡◌, ◌++◌, OnOk, IfOk};
ghost use Rattle.pli_coding.specs.Extents as form;
ghost use Rattle.pli_frames.specs.TakenView.{taken_of};
ghost use Rattle.rv_extent.specs.Pieces.{amount_kept, amount_waiting, bytes_kept, lower_kept, lower_waiting, signature_kept, signature_loaded};

use pli_frames::fixed::words_place;
use pli_frames::taken::Taken;
use rv_assembly::code::Code;
use rv_assembly::registers::{a0, a1, a3, frame};
use rv_meaning::instr::Register;
use std::alloc::AllocError;

/// How many they are.
pub fn extent_words() -> u32
    ensures { result ≡ form.extent_words }
{
    4
}

/// The word of the signature's number.
pub fn number_word(taken: Taken) -> Result<i32, AllocError>
    ensures { IfOk result (λ d. d ≡ form.number_word (taken_of taken)) }
{
    words_place(taken.words, 1)
}

/// The word of the bytes to reserve.
pub fn bytes_word(taken: Taken) -> Result<i32, AllocError>
    ensures { IfOk result (λ d. d ≡ form.bytes_word (taken_of taken)) }
{
    let behind = taken.with_words(1)?;
    words_place(behind.words, 1)
}

fn lower_word(taken: Taken) -> Result<i32, AllocError>
    ensures { IfOk result (λ d. d ≡ form.lower_word (taken_of taken)) }
{
    let behind = taken.with_words(2)?;
    words_place(behind.words, 1)
}

fn refer_word(taken: Taken) -> Result<i32, AllocError>
    ensures { IfOk result (λ d. d ≡ form.refer_word (taken_of taken)) }
{
    let behind = taken.with_words(3)?;
    words_place(behind.words, 1)
}

/// The number of the signature so far, in a register.
pub fn signature_loaded(code: &mut Code, taken: Taken, register: Register) -> Result<(), AllocError>
    ensures { OnOk result (code.new ≡ code.old ++ signature_loaded (taken_of taken) register) }
{
    let place = number_word(taken)?;
    code.load_word(register, frame(), place)
}

/// The number in a0, as that of the signature so far.
pub fn signature_kept(code: &mut Code, taken: Taken) -> Result<(), AllocError>
    ensures { OnOk result (code.new ≡ code.old ++ signature_kept (taken_of taken)) }
{
    let place = number_word(taken)?;
    code.store_word(frame(), a0(), place)
}

/// The bytes to reserve, which are in a1.
pub fn bytes_kept(code: &mut Code, taken: Taken) -> Result<(), AllocError>
    ensures { OnOk result (code.new ≡ code.old ++ bytes_kept (taken_of taken)) }
{
    let place = bytes_word(taken)?;
    code.store_word(frame(), a1(), place)
}

/// The lower bound in a0.
pub fn lower_kept(code: &mut Code, taken: Taken) -> Result<(), AllocError>
    ensures { OnOk result (code.new ≡ code.old ++ lower_kept (taken_of taken)) }
{
    let place = lower_word(taken)?;
    code.store_word(frame(), a0(), place)
}

/// The lower bound that waits, in a register.
pub fn lower_waiting(code: &mut Code, taken: Taken, register: Register) -> Result<(), AllocError>
    ensures { OnOk result (code.new ≡ code.old ++ lower_waiting (taken_of taken) register) }
{
    let place = lower_word(taken)?;
    code.load_word(register, frame(), place)
}

/// The extent in a3, for REFER.
pub fn amount_kept(code: &mut Code, taken: Taken) -> Result<(), AllocError>
    ensures { OnOk result (code.new ≡ code.old ++ amount_kept (taken_of taken)) }
{
    let place = refer_word(taken)?;
    code.store_word(frame(), a3(), place)
}

/// The extent for REFER, in a1.
pub fn amount_waiting(code: &mut Code, taken: Taken) -> Result<(), AllocError>
    ensures { OnOk result (code.new ≡ code.old ++ amount_waiting (taken_of taken)) }
{
    let place = refer_word(taken)?;
    code.load_word(a1(), frame(), place)
}
