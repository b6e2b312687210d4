// Words as instructions, and what their operations give.

use crate::numbers::numbers;
use anyhow::Result;
use rv_isa::decode::decode;
use rv_isa::encode::encode;
use rv_machine::arithmetic::{holds, immediate_operated, operated, shift_operated};
use rv_meaning::instr::Instr;

/// Each word's instruction, with the word that this is encoded to.
pub fn tell_word(rt: &HostRuntime, name: &str, given: &str) -> Result<()> {
    for word in numbers(rt.alloc(), given)? {
        match decode(word) {
            Some(instr) => {
                let again = encode(instr);
                println!(rt; "{name}: {instr:?} {again:08x}")?;
            }
            None => println!(rt; "{name}: none")?,
        }
    }
    Ok(())
}

// What an instruction's operation gives, whatever operands the instruction names.
fn result(instr: Instr, first: u32, second: u32) -> Option<u32> {
    match instr {
        Instr::Registers { op, .. } => Some(operated(op, first, second)),
        Instr::Immediate { op, .. } => Some(immediate_operated(op, first, second)),
        Instr::Shift { op, amount, .. } if amount < 32 => Some(shift_operated(op, first, amount)),
        Instr::Branch { test, .. } => Some(u32::from(holds(test, first, second))),
        _ => None,
    }
}

/// A word's operation on two values; that of a shift by a constant takes the word's own amount.
pub fn tell_operation(rt: &HostRuntime, name: &str, given: &str) -> Result<()> {
    let given = numbers(rt.alloc(), given)?;
    let [word, first, second] = *given.as_slice() else {
        println!(rt; "{name}: not three numbers")?;
        return Ok(());
    };
    match decode(word).and_then(|instr| result(instr, first, second)) {
        Some(value) => println!(rt; "{name} of {first:08x} and {second:08x}: {value:08x}")?,
        None => println!(rt; "{name}: no operation")?,
    }
    Ok(())
}
