// Parameters: where the list of arguments is, whose address comes in a1, and the copies that stand for values.

ghost use Rattle.std.specs.Prelude.{◌≡◌, ◌++◌, OnOk};
ghost use Rattle.pli_coding.specs.Entries as form;
ghost use Rattle.rv_address.specs.Around.{environment_of};
ghost use Rattle.rv_entry.specs.Pieces.{list_measured, list_placed};

use crate::copy::copies_made;
use crate::text::texts_filled;
use pli_frames::fixed::{list_offset, list_place};
use rv_address::environment::Environment;
use rv_address::number::signed;
use rv_assembly::code::Code;
use rv_assembly::registers::{a1, frame, u1};
use std::alloc::{AllocError, Global};

/// The list's address, behind the display.
#[tactic(auto, unfolding(crate::specs::Pieces::list_placed))]
fn list_placed(code: &mut Code, level: usize) -> Result<(), AllocError>
    ensures { OnOk result (code.new ≡ code.old ++ list_placed level) }
{
    let place = signed(list_place(level)?)?;
    code.store_word(frame(), a1(), place)
}

/// Its offset, from that of the frame.
#[tactic(auto, unfolding(crate::specs::Pieces::list_measured))]
fn list_measured(code: &mut Code) -> Result<(), AllocError>
    ensures { OnOk result (code.new ≡ code.old ++ list_measured) }
{
    code.subtract(a1(), a1(), frame())?;
    code.add(a1(), a1(), u1())?;
    code.store_word(frame(), a1(), list_offset())
}

/// Where the list is, in the frame of a procedure whose block has the level; without parameters there is none.
#[tactic(auto, using(crate::proofs::Parameters::kept, crate::proofs::Parameters::none_kept))]
pub fn list_kept(code: &mut Code, level: usize, parameters: &[usize]) -> Result<(), AllocError>
    ensures { OnOk result (code.new ≡ code.old ++ form.list_kept level parameters.now) }
{
    if parameters.is_empty() {
        return Ok(());
    }
    list_placed(code, level)?;
    Ok(list_measured(code)?)
}

/// The copies that stand for values, made and filled.
pub fn arguments_copied(
    alloc: Global,
    code: &mut Code,
    environment: &Environment,
    parameters: &[usize],
) -> Result<(), AllocError>
    ensures { OnOk result (code.new ≡ code.old ++ form.arguments_copied (environment_of environment.now) parameters.now) }
{
    copies_made(alloc, code, environment, parameters)?;
    texts_filled(code, environment, parameters)
}
