// Numbers and bits as texts.

ghost use Rattle.std.specs.Prelude.{◌≡◌, ◌++◌, OnOk};
ghost use Rattle.pli_coding.specs.Streams as form;

use rv_assembly::code::Code;
use rv_item::text::number_or_bit;
use std::alloc::AllocError;

/// A number with the places of its precision as a text; with 0 a bit.
pub fn as_text(code: &mut Code, precision: u64) -> Result<(), AllocError>
    ensures { OnOk result (code.new ≡ code.old ++ form.as_text precision) }
{
    number_or_bit(code, precision)
}
