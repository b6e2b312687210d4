// Numbers and bits as texts.

ghost use Rattle.std.specs.Prelude.{◌≡◌, ◌++◌, OnOk};
ghost use Rattle.pli_coding.specs.Streams as form;
ghost use Rattle.rv_item.specs.Pieces.{number_text};

use pli_frames::taken::Taken;
use rv_address::taken::fetch;
use rv_assembly::code::Code;
use rv_assembly::registers::a1;
use rv_operation::text::number_pushed;
use std::alloc::AllocError;

/// A number with the places of its precision as a text; with 0 a bit.
#[tactic(auto, unfolding(rv_operation::specs::Pieces::number_pushed))]
pub fn number_or_bit(code: &mut Code, precision: u64) -> Result<(), AllocError>
    ensures { OnOk result (code.new ≡ code.old ++ form.as_text precision) }
{
    number_pushed(code, precision)
}

/// The places that a number has as a text: those of a precision, or of one that waits.
#[derive(Clone, Copy, PartialEq, Eq, Debug)]
pub enum NumberText {
    Known(u64),
    Waiting(Taken),
}

/// The number in a0 as a text.
pub fn number_text(code: &mut Code, places: NumberText) -> Result<(), AllocError>
    ensures { OnOk result (code.new ≡ code.old ++ number_text places) }
{
    match places {
        NumberText::Known(precision) => number_or_bit(code, precision),
        NumberText::Waiting(taken) => {
            fetch(code, a1(), taken)?;
            code.service(21)
        }
    }
}
