// Texts on the text stack: constants, conversions, and the built-in functions on them.

ghost use Rattle.std.specs.Prelude.{◌≡◌, [], ◌∷◌, ◌++◌, OnOk};
ghost use Rattle.pli_typing.specs.TypedView.{comparison_of};
ghost use Rattle.pli_coding.specs.Expressions as form;
ghost use Rattle.pli_coding.specs.Instructions as short;
ghost use Rattle.pli_coding.specs.Registers.{a1};
ghost use Rattle.pli_frames.specs.TakenView.{taken_of};
ghost use Rattle.rv_operation.specs.Pieces.{bit_pushed, end_cut, index_found, number_pushed, substring_cut, text_measured, text_to_bit, text_to_number, texts_compared, verified};

use crate::arithmetic::compared_code;
use pli_frames::taken::Taken;
use pli_typing::typed::Comparison;
use rv_address::number::count;
use rv_address::taken::fetch;
use rv_assembly::code::Code;
use rv_assembly::item::{Datum, Item, Symbol};
use rv_assembly::registers::{a0, a1, a2, u1};
use std::alloc::{AllocError, Global};

/// A text constant.
pub fn constant_pushed(alloc: Global, code: &mut Code, bytes: &[u8]) -> Result<(), AllocError>
    ensures { OnOk result (code.new ≡ code.old ++ form.constant_pushed bytes.now) }
{
    let datum = Datum::ConstantBytes(bytes.to_vec(alloc)?);
    code.push(Item::OffsetOf(a0(), Symbol::DataPlace(datum)))?;
    count(code, a1(), bytes.len())?;
    code.small(a2(), 0)?;
    code.service(20)
}

// ---- conversions

/// A precision; none is so great that no instruction holds it, so that such a one is want of memory.
fn precision_given(code: &mut Code, precision: u64) -> Result<(), AllocError>
    ensures { OnOk result (code.new ≡ code.old ++ short.small a1 precision ∷ []) }
{
    if precision >= 2048 {
        return Err(AllocError);
    }
    code.small(a1(), precision as u32)
}

/// A number of a precision as a text.
#[tactic(auto, unfolding(crate::specs::Pieces::number_pushed))]
pub fn number_pushed(code: &mut Code, precision: u64) -> Result<(), AllocError>
    ensures { OnOk result (code.new ≡ code.old ++ number_pushed precision) }
{
    precision_given(code, precision)?;
    code.service(21)
}

/// A bit as a text.
#[tactic(auto, unfolding(crate::specs::Pieces::bit_pushed))]
pub fn bit_pushed(code: &mut Code) -> Result<(), AllocError>
    ensures { OnOk result (code.new ≡ code.old ++ bit_pushed) }
{
    code.small(a1(), 0)?;
    code.service(21)
}

/// The text on top as a number.
#[tactic(auto, unfolding(crate::specs::Pieces::text_to_number))]
pub fn text_to_number(code: &mut Code) -> Result<(), AllocError>
    ensures { OnOk result (code.new ≡ code.old ++ text_to_number) }
{
    code.small(a0(), 0)?;
    code.tested_service(26)
}

/// The text on top as a bit.
#[tactic(auto, unfolding(crate::specs::Pieces::text_to_bit))]
pub fn text_to_bit(code: &mut Code) -> Result<(), AllocError>
    ensures { OnOk result (code.new ≡ code.old ++ text_to_bit) }
{
    code.small(a0(), 1)?;
    code.tested_service(26)
}

// ---- built-in functions

/// LENGTH of the text on top.
#[tactic(auto, unfolding(crate::specs::Pieces::text_measured))]
pub fn text_measured(code: &mut Code) -> Result<(), AllocError>
    ensures { OnOk result (code.new ≡ code.old ++ text_measured) }
{
    code.small(a2(), 3)?;
    code.service(27)
}

/// INDEX of the two texts on top.
#[tactic(auto, unfolding(crate::specs::Pieces::index_found))]
pub fn index_found(code: &mut Code) -> Result<(), AllocError>
    ensures { OnOk result (code.new ≡ code.old ++ index_found) }
{
    code.small(a0(), 0)?;
    code.service(25)
}

/// VERIFY of the two texts on top.
#[tactic(auto, unfolding(crate::specs::Pieces::verified))]
pub fn verified(code: &mut Code) -> Result<(), AllocError>
    ensures { OnOk result (code.new ≡ code.old ++ verified) }
{
    code.small(a0(), 1)?;
    code.service(25)
}

/// SUBSTR to the text's end, with the start in a0.
#[tactic(auto, unfolding(crate::specs::Pieces::end_cut))]
pub fn end_cut(code: &mut Code) -> Result<(), AllocError>
    ensures { OnOk result (code.new ≡ code.old ++ end_cut) }
{
    code.small(a2(), 0)?;
    code.tested_service(23)
}

/// SUBSTR, with the number of characters in a0 and the start waiting.
#[tactic(auto, unfolding(crate::specs::Pieces::substring_cut))]
pub fn substring_cut(code: &mut Code, taken: Taken) -> Result<(), AllocError>
    ensures { OnOk result (code.new ≡ code.old ++ substring_cut (taken_of taken)) }
{
    code.copy(a1(), a0())?;
    fetch(code, a0(), taken)?;
    code.small(a2(), 1)?;
    code.tested_service(23)
}

/// A comparison of the two texts on top.
#[tactic(auto, unfolding(crate::specs::Pieces::texts_compared))]
pub fn texts_compared(code: &mut Code, comparison: Comparison) -> Result<(), AllocError>
    ensures { OnOk result (code.new ≡ code.old ++ texts_compared (comparison_of comparison)) }
{
    code.service(24)?;
    code.copy(u1(), a0())?;
    code.small(a0(), 0)?;
    compared_code(code, comparison)
}
