// Words of the list of arguments: six for each.

ghost use Rattle.std.specs.Prelude.{◌≡◌, ◌++◌, OnOk};
ghost use Rattle.rv_entry.specs.Pieces.{argument_loaded, place_kept};

use pli_frames::fixed::argument_at;
use rv_assembly::code::Code;
use rv_assembly::registers::{u1, u5};
use rv_meaning::instr::Register;
use std::alloc::AllocError;

/// A word of the nth argument, in a register.
#[tactic(auto, unfolding(crate::specs::Pieces::argument_loaded))]
pub fn argument_loaded(
    code: &mut Code,
    register: Register,
    n: usize,
    word: u8,
) -> Result<(), AllocError>
    ensures { OnOk result (code.new ≡ code.old ++ argument_loaded register n word) }
{
    let place = argument_at(n, word)?;
    code.load_word(register, u5(), place)
}

/// The place in u1, which isn't 0, in place of the 1 for a copy.
#[tactic(auto, unfolding(crate::specs::Pieces::place_kept))]
pub fn place_kept(code: &mut Code, n: usize) -> Result<(), AllocError>
    ensures { OnOk result (code.new ≡ code.old ++ place_kept n) }
{
    let place = argument_at(n, 5)?;
    code.store_word(u5(), u1(), place)
}
