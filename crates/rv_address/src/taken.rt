// Numbers that wait: each in the next register that holds temporaries, or in a word of the frame.

ghost use Rattle.std.specs.Prelude.{◌≡◌, ◌++◌, OnOk};
ghost use Rattle.pli_coding.specs.Environments as form;
ghost use Rattle.pli_frames.specs.TakenView.{taken_of};

use pli_frames::fixed::words_place;
use pli_frames::taken::Taken;
use rv_assembly::code::Code;
use rv_assembly::registers;
use rv_meaning::instr::Register;
use std::alloc::AllocError;

/// A register's value, in the next place for a number.
pub fn save(code: &mut Code, register: Register, taken: Taken) -> Result<(), AllocError>
    ensures { OnOk result (code.new ≡ code.old ++ form.save register (taken_of taken)) }
{
    if taken.is_register_left() {
        return Ok(code.copy(registers::held(taken.registers as usize), register)?);
    }
    let place = words_place(taken.words, 1)?;
    code.store_word(registers::frame(), register, place)
}

/// What was saved there, in a register.
pub fn fetch(code: &mut Code, register: Register, taken: Taken) -> Result<(), AllocError>
    ensures { OnOk result (code.new ≡ code.old ++ form.fetch register (taken_of taken)) }
{
    if taken.is_register_left() {
        return Ok(code.copy(register, registers::held(taken.registers as usize))?);
    }
    let place = words_place(taken.words, 1)?;
    code.load_word(register, registers::frame(), place)
}
