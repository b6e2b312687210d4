// Values to and from an address in GET and PUT, by their kind.

ghost use Rattle.std.specs.Prelude.{◌≡◌, ◌++◌, OnOk};
ghost use Rattle.pli_typing.specs.TypedView.{leaf_type_of};
ghost use Rattle.pli_coding.specs.Streams as form;
ghost use Rattle.pli_frames.specs.TakenView.{taken_of};
ghost use Rattle.rv_address.specs.Places.{address_of};
ghost use Rattle.rv_item.specs.Lists.{formats_in};
ghost use Rattle.rv_item.specs.Shown.{number_converted, text_shown, word_shown};

use crate::field::{bit_got, number_got, number_put, text_got, text_put};
use crate::fields::Fields;
use crate::text::NumberText;
use pli_frames::taken::Taken;
use pli_typing::typed::LeafType;
use rv_address::taken::save;
use rv_address::transfer::{Address, loaded, stored, text_pushed, text_stored};
use rv_assembly::code::Code;
use rv_assembly::registers::a0;
use rv_operation::arithmetic::fitted_code;
use std::alloc::AllocError;

// ---- PUT

#[tactic(auto, unfolding(crate::specs::Shown::word_shown))]
fn word_shown(
    code: &mut Code,
    taken: Taken,
    fields: &Fields,
    kind: LeafType,
    address: Address,
    precision: u64,
) -> Result<(), AllocError>
    ensures { OnOk result (code.new ≡ code.old ++ word_shown (taken_of taken) (formats_in fields.now) (leaf_type_of kind) (address_of address) precision) }
{
    loaded(code, kind, a0(), address)?;
    save(code, a0(), taken)?;
    number_put(code, taken, fields, NumberText::Known(precision))
}

#[tactic(auto, unfolding(crate::specs::Shown::text_shown))]
fn text_shown(
    code: &mut Code,
    fields: &Fields,
    kind: LeafType,
    address: Address,
) -> Result<(), AllocError>
    ensures { OnOk result (code.new ≡ code.old ++ text_shown (formats_in fields.now) (leaf_type_of kind) (address_of address)) }
{
    text_pushed(code, kind, address)?;
    text_put(code, fields)
}

/// What stands at an address, to the output.
#[tactic(auto, unfolding(crate::specs::Shown::word_shown, crate::specs::Shown::text_shown))]
pub fn element_shown(
    code: &mut Code,
    taken: Taken,
    fields: &Fields,
    kind: LeafType,
    address: Address,
) -> Result<(), AllocError>
    ensures { OnOk result (code.new ≡ code.old ++ form.element_shown (taken_of taken) (formats_in fields.now) (leaf_type_of kind) (address_of address)) }
{
    match kind {
        LeafType::Fixed(precision) => word_shown(code, taken, fields, kind, address, precision),
        LeafType::Character(_) => text_shown(code, fields, kind, address),
        LeafType::Varying(_) => text_shown(code, fields, kind, address),
        LeafType::Bit => word_shown(code, taken, fields, kind, address, 0),
        LeafType::Pointer => Ok(()),
        LeafType::Offset(_) => Ok(()),
        LeafType::Area(_) => Ok(()),
    }
}

// ---- GET

#[tactic(auto, unfolding(crate::specs::Shown::number_converted))]
fn number_converted(
    code: &mut Code,
    taken: Taken,
    fields: &Fields,
    precision: u64,
) -> Result<(), AllocError>
    ensures { OnOk result (code.new ≡ code.old ++ number_converted (taken_of taken) (formats_in fields.now) precision) }
{
    number_got(code, fields)?;
    fitted_code(code, taken, precision)
}

/// A field as a value in a0, or as the top text.
#[tactic(auto, unfolding(crate::specs::Shown::number_converted))]
pub fn field_converted(
    code: &mut Code,
    taken: Taken,
    fields: &Fields,
    kind: LeafType,
) -> Result<(), AllocError>
    ensures { OnOk result (code.new ≡ code.old ++ form.field_converted (taken_of taken) (formats_in fields.now) (leaf_type_of kind)) }
{
    match kind {
        LeafType::Fixed(precision) => number_converted(code, taken, fields, precision),
        LeafType::Character(_) => text_got(code, fields),
        LeafType::Varying(_) => text_got(code, fields),
        LeafType::Bit => bit_got(code),
        LeafType::Pointer => Ok(()),
        LeafType::Offset(_) => Ok(()),
        LeafType::Area(_) => Ok(()),
    }
}

/// The value or text, to an address.
pub fn field_kept(code: &mut Code, kind: LeafType, address: Address) -> Result<(), AllocError>
    ensures { OnOk result (code.new ≡ code.old ++ form.field_kept (leaf_type_of kind) (address_of address)) }
{
    match kind {
        LeafType::Fixed(_) => stored(code, kind, a0(), address),
        LeafType::Character(_) => text_stored(code, kind, address),
        LeafType::Varying(_) => text_stored(code, kind, address),
        LeafType::Bit => stored(code, kind, a0(), address),
        LeafType::Pointer => Ok(()),
        LeafType::Offset(_) => Ok(()),
        LeafType::Area(_) => Ok(()),
    }
}
