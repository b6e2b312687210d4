// Elements of an aggregate to the output.

ghost use Rattle.std.specs.Prelude.{◌≡◌, ◌++◌, OnOk};
ghost use Rattle.pli_typing.specs.TypedView.{reference_of};
ghost use Rattle.pli_coding.specs.Streams as form;
ghost use Rattle.pli_frames.specs.TakenView.{taken_of};
ghost use Rattle.rv_address.specs.Around.{environment_of};
ghost use Rattle.rv_item.specs.Lists.{formats_in};
ghost use Rattle.rv_item.specs.Moved.{kinds_written};

use crate::element::fixed_loaded;
use crate::field::{number_put, text_put};
use crate::fields::Fields;
use crate::kinds::{Kinds, kinds_in};
use crate::moved::{Motion, element_moved};
use crate::text::NumberText;
use pli_frames::taken::Taken;
use pli_typing::typed::Reference;
use rv_address::environment::Environment;
use rv_address::taken::save;
use rv_assembly::code::Code;
use rv_assembly::registers::{a0, u2};
use std::alloc::AllocError;

/// Where all elements are numbers: the precision waits behind the number.
fn fixed_element_put(code: &mut Code, taken: Taken, fields: &Fields) -> Result<(), AllocError>
    ensures { OnOk result (code.new ≡ code.old ++ form.fixed_element_put (taken_of taken) (formats_in fields.now)) }
{
    let behind = taken.with_number()?;
    fixed_loaded(code)?;
    save(code, a0(), taken)?;
    save(code, u2(), behind)?;
    number_put(code, taken, fields, NumberText::Waiting(behind))
}

/// Where they are others too, each is a text first.
#[tactic(auto, unfolding(crate::specs::Moved::fixed_moved, crate::specs::Moved::bit_moved, crate::specs::Moved::text_moved, crate::specs::Moved::element_moved))]
fn mixed_element_put(
    code: &mut Code,
    environment: &Environment,
    taken: Taken,
    fields: &Fields,
    reference: &Reference,
) -> Result<(), AllocError>
    ensures { OnOk result (code.new ≡ code.old ++ form.mixed_element_put (environment_of environment.now) (formats_in fields.now) (reference_of reference.now)) }
{
    element_moved(code, environment, taken, reference, Motion::Pushing)?;
    text_put(code, fields)
}

fn kinds_written(
    code: &mut Code,
    environment: &Environment,
    taken: Taken,
    fields: &Fields,
    reference: &Reference,
    kinds: Kinds,
) -> Result<(), AllocError>
    ensures { OnOk result (code.new ≡ code.old ++ kinds_written kinds (environment_of environment.now) (taken_of taken) (formats_in fields.now) (reference_of reference.now)) }
{
    if kinds.bit || kinds.text {
        return mixed_element_put(code, environment, taken, fields, reference);
    }
    fixed_element_put(code, taken, fields)
}

/// An element that was found.
#[tactic(auto, using(crate::proofs::Moving::kinds_written_are))]
pub fn element_written(
    code: &mut Code,
    environment: &Environment,
    taken: Taken,
    fields: &Fields,
    reference: &Reference,
) -> Result<(), AllocError>
    ensures { OnOk result (code.new ≡ code.old ++ form.element_written (environment_of environment.now) (taken_of taken) (formats_in fields.now) (reference_of reference.now)) }
{
    let kinds = kinds_in(environment, reference)?;
    kinds_written(code, environment, taken, fields, reference, kinds)
}
