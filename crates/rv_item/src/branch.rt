// Branches over code that was written. None goes so far that its instruction doesn't hold the distance, so that such a one is
// want of memory.

ghost use Rattle.std.specs.Prelude.{◌≡◌, OnOk};
ghost use Rattle.rv_assembly.specs.Places.{IsPlace, chosen, skipped};

use rv_assembly::code::Code;
use rv_assembly::place::Place;
use rv_meaning::instr::{BranchTest, Register};
use std::alloc::AllocError;

/// A branch at a place, over all that was written since.
pub fn skip_where(
    code: &mut Code,
    place: Place,
    test: BranchTest,
    left: Register,
    right: Register,
) -> Result<(), AllocError>
    requires { IsPlace 1 code.old place }
    ensures { OnOk result (code.new ≡ skipped code.old place test left right) }
{
    if code.words_behind(place) >= 1023 {
        return Err(AllocError);
    }
    code.skip_where(place, test, left, right);
    Ok(())
}

/// A branch at the first place past the jump at the second one, which goes over all that was written since.
pub fn choose(
    code: &mut Code,
    branch: Place,
    jump: Place,
    test: BranchTest,
    left: Register,
    right: Register,
) -> Result<(), AllocError>
    requires kept_branch { IsPlace 1 code.old branch }
    requires kept_jump { IsPlace 2 code.old jump }
    ensures { OnOk result (code.new ≡ chosen code.old branch jump test left right) }
{
    if jump.words_from(branch) >= 1023 {
        return Err(AllocError);
    }
    code.choose(branch, jump, test, left, right);
    Ok(())
}
