// Fields of GET for elements of an aggregate, converted before their target is reached.

ghost use Rattle.std.specs.Prelude.{◌≡◌, ◌++◌, OnOk};
ghost use Rattle.pli_typing.specs.TypedView.{reference_of};
ghost use Rattle.pli_coding.specs.Environments.{save};
ghost use Rattle.pli_coding.specs.Registers.{a0};
ghost use Rattle.pli_coding.specs.Streams as form;
ghost use Rattle.pli_frames.specs.TakenView.{taken_of};
ghost use Rattle.rv_address.specs.Around.{environment_of};
ghost use Rattle.rv_item.specs.Lists.{formats_in};
ghost use Rattle.rv_item.specs.Moved.{kinds_taken};

use crate::field::{bit_got, number_got, text_got};
use crate::fields::Fields;
use crate::fitting::number_fitted;
use crate::kinds::{Kinds, kinds_in};
use crate::moved::{Motion, element_moved};
use pli_frames::taken::Taken;
use pli_typing::typed::Reference;
use rv_address::environment::Environment;
use rv_address::taken::save;
use rv_assembly::code::Code;
use rv_assembly::registers::a0;
use std::alloc::AllocError;

fn fixed_field_taken(code: &mut Code, taken: Taken, fields: &Fields) -> Result<(), AllocError>
    ensures { OnOk result (code.new ≡ code.old ++ (form.number_got (formats_in fields.now) ++ form.number_fitted (taken_of taken))) }
{
    number_got(code, fields)?;
    number_fitted(code, taken)
}

fn bit_field_taken(code: &mut Code, taken: Taken) -> Result<(), AllocError>
    ensures { OnOk result (code.new ≡ code.old ++ (form.bit_got ++ save a0 (taken_of taken))) }
{
    bit_got(code)?;
    save(code, a0(), taken)
}

/// Where elements are of several kinds, the field is a text first.
#[tactic(auto, unfolding(crate::specs::Moved::fixed_moved, crate::specs::Moved::bit_moved, crate::specs::Moved::text_moved, crate::specs::Moved::element_moved))]
fn mixed_field_taken(
    code: &mut Code,
    environment: &Environment,
    taken: Taken,
    fields: &Fields,
    reference: &Reference,
) -> Result<(), AllocError>
    ensures { OnOk result (code.new ≡ code.old ++ form.mixed_field_taken (environment_of environment.now) (taken_of taken) (formats_in fields.now) (reference_of reference.now)) }
{
    text_got(code, fields)?;
    element_moved(code, environment, taken, reference, Motion::Converting)
}

fn kinds_taken(
    code: &mut Code,
    environment: &Environment,
    taken: Taken,
    fields: &Fields,
    reference: &Reference,
    kinds: Kinds,
) -> Result<(), AllocError>
    ensures { OnOk result (code.new ≡ code.old ++ kinds_taken kinds (environment_of environment.now) (taken_of taken) (formats_in fields.now) (reference_of reference.now)) }
{
    if kinds.fixed && !kinds.bit && !kinds.text {
        return fixed_field_taken(code, taken, fields);
    }
    if kinds.fixed || kinds.bit && kinds.text {
        return mixed_field_taken(code, environment, taken, fields, reference);
    }
    if kinds.bit {
        return bit_field_taken(code, taken);
    }
    text_got(code, fields)
}

/// A text on the stack, or a number or a bit that waits; what the element is stands in the buffer.
#[tactic(auto, using(crate::proofs::Moving::kinds_taken_are))]
pub fn element_field_taken(
    code: &mut Code,
    environment: &Environment,
    taken: Taken,
    fields: &Fields,
    reference: &Reference,
) -> Result<(), AllocError>
    ensures { OnOk result (code.new ≡ code.old ++ form.element_field_taken (environment_of environment.now) (taken_of taken) (formats_in fields.now) (reference_of reference.now)) }
{
    let kinds = kinds_in(environment, reference)?;
    kinds_taken(code, environment, taken, fields, reference, kinds)
}
