// The end of a run.

ghost use Rattle.std.specs.Prelude.{◌≡◌, ◌++◌, OnOk};
ghost use Rattle.pli_coding.specs.Procedures as form;

use rv_assembly::code::Code;
use rv_assembly::registers::{a0, a1};
use std::alloc::AllocError;

/// The run ends with no error.
pub fn finish_code(code: &mut Code) -> Result<(), AllocError>
    ensures { OnOk result (code.new ≡ code.old ++ form.finish_code) }
{
    code.small(a0(), 0)?;
    code.small(a1(), 0)?;
    code.service(2)
}
