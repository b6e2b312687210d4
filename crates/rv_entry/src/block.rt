// Blocks as they are entered and left.

ghost use Rattle.std.specs.Prelude.{◌≡◌, [], ◌∷◌, ◌++◌, OnOk};
ghost use Rattle.pli_coding.specs.Entries as form;
ghost use Rattle.pli_coding.specs.Instructions.{small};
ghost use Rattle.pli_coding.specs.Registers.{a0};

use pli_frames::fixed::own_offset;
use rv_assembly::code::Code;
use rv_assembly::registers::{a0, a1, a2, a3, frame};
use std::alloc::AllocError;

/// A small number in a0. One that no instruction holds is want of memory.
fn number_told(code: &mut Code, number: u32) -> Result<(), AllocError>
    ensures { OnOk result (code.new ≡ code.old ++ small a0 number ∷ []) }
{
    if number >= 2048 {
        return Err(AllocError);
    }
    Ok(code.small(a0(), number)?)
}

/// A block of a kind, 0 a procedure, 1 a begin block, 2 an on-unit, whose first word has the line; its argument texts are counted
/// in a3.
pub fn block_entered(code: &mut Code, kind: u32, line: u32) -> Result<(), AllocError>
    ensures { OnOk result (code.new ≡ code.old ++ form.block_entered kind line) }
{
    code.load_word(a1(), frame(), own_offset())?;
    number_told(code, kind)?;
    code.number(a2(), line)?;
    code.service(4)
}

/// The same without argument texts.
pub fn entered_without_texts(code: &mut Code, kind: u32, line: u32) -> Result<(), AllocError>
    ensures { OnOk result (code.new ≡ code.old ++ form.entered_without_texts kind line) }
{
    code.small(a3(), 0)?;
    block_entered(code, kind, line)
}

/// The newest activation ends; with 1 the top text is kept.
pub fn block_left(code: &mut Code, keep: u32) -> Result<(), AllocError>
    ensures { OnOk result (code.new ≡ code.old ++ form.block_left keep) }
{
    number_told(code, keep)?;
    code.service(5)
}
