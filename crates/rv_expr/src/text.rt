// The code of texts that are made from others, each form by a function of its own, so that a row of operators takes
// little of the host's stack.

ghost use Rattle.std.specs.Prelude.{◌≡◌, ◌++◌, OnOk};
ghost use Rattle.pli_typing.specs.TypedView.{bit_of, number_of, reference_of, text_of};
ghost use Rattle.pli_coding.specs.Environments.{save, with_number};
ghost use Rattle.pli_coding.specs.Instructions.{tested_service};
ghost use Rattle.pli_coding.specs.Registers.{a0};
ghost use Rattle.pli_coding.specs.Expressions as form;
ghost use Rattle.pli_frames.specs.TakenView.{taken_of};
ghost use Rattle.rv_address.specs.Around.{environment_of};
ghost use Rattle.rv_operation.specs.Pieces.{bit_pushed, end_cut, number_pushed, substring_cut, text_loaded};

use crate::expression::{bit_code, number_code, reference_code, text_code};
use pli_frames::taken::Taken;
use pli_typing::typed::{Bit, Number, Reference, Text};
use rv_address::environment::Environment;
use rv_address::taken::save;
use rv_assembly::code::Code;
use rv_assembly::registers::a0;
use rv_operation::reference::text_loaded;
use rv_operation::text::{bit_pushed, end_cut, number_pushed, substring_cut};
use std::alloc::{AllocError, Global};

/// The text of a variable.
#[cycle(walk)]
#[inline(never)]
#[tactic(auto, using(crate::proofs::Walks::parts))]
pub(crate) fn text_in(
    alloc: Global,
    code: &mut Code,
    environment: &Environment,
    taken: Taken,
    reference: &Reference,
) -> Result<(), AllocError>
    ensures { OnOk result (code.new ≡ code.old ++
        (form.reference_code (environment_of environment.now) (taken_of taken) (reference_of reference.now)
        ++ text_loaded (environment_of environment.now) (reference_of reference.now))) }
{
    reference_code(alloc, code, environment, taken, reference)?;
    text_loaded(code, environment, reference)
}

/// A number as a text.
#[cycle(walk)]
#[inline(never)]
#[tactic(auto, using(crate::proofs::Walks::parts))]
pub(crate) fn number_text(
    alloc: Global,
    code: &mut Code,
    environment: &Environment,
    taken: Taken,
    precision: u64,
    number: &Number,
) -> Result<(), AllocError>
    ensures { OnOk result (code.new ≡ code.old ++
        (form.number_code (environment_of environment.now) (taken_of taken) (number_of number.now)
        ++ number_pushed precision)) }
{
    number_code(alloc, code, environment, taken, number)?;
    number_pushed(code, precision)
}

/// A bit as a text.
#[cycle(walk)]
#[inline(never)]
#[tactic(auto, using(crate::proofs::Walks::parts))]
pub(crate) fn bit_text(
    alloc: Global,
    code: &mut Code,
    environment: &Environment,
    taken: Taken,
    bit: &Bit,
) -> Result<(), AllocError>
    ensures { OnOk result (code.new ≡ code.old ++
        (form.bit_code (environment_of environment.now) (taken_of taken) (bit_of bit.now)
        ++ bit_pushed)) }
{
    bit_code(alloc, code, environment, taken, bit)?;
    bit_pushed(code)
}

/// Two texts, one behind the other.
#[cycle(walk)]
#[inline(never)]
#[tactic(auto, using(crate::proofs::Walks::parts))]
pub(crate) fn joined_text(
    alloc: Global,
    code: &mut Code,
    environment: &Environment,
    taken: Taken,
    left: &Text,
    right: &Text,
) -> Result<(), AllocError>
    ensures { OnOk result (code.new ≡ code.old ++
        (form.text_code (environment_of environment.now) (taken_of taken) (text_of left.now)
        ++ (form.text_code (environment_of environment.now) (taken_of taken)
        (text_of right.now) ++ tested_service 22))) }
{
    text_code(alloc, code, environment, taken, left)?;
    text_code(alloc, code, environment, taken, right)?;
    code.tested_service(22)
}

/// SUBSTR up to the text's end.
#[cycle(walk)]
#[inline(never)]
#[tactic(auto, using(crate::proofs::Walks::parts))]
pub(crate) fn end_text(
    alloc: Global,
    code: &mut Code,
    environment: &Environment,
    taken: Taken,
    text: &Text,
    start: &Number,
) -> Result<(), AllocError>
    ensures { OnOk result (code.new ≡ code.old ++
        (form.text_code (environment_of environment.now) (taken_of taken) (text_of text.now)
        ++ (form.number_code (environment_of environment.now) (taken_of taken) (number_of start.now) ++ end_cut))) }
{
    text_code(alloc, code, environment, taken, text)?;
    number_code(alloc, code, environment, taken, start)?;
    end_cut(code)
}

/// SUBSTR of so many characters.
#[cycle(walk)]
#[inline(never)]
#[tactic(auto, using(crate::proofs::Walks::parts))]
pub(crate) fn part_text(
    alloc: Global,
    code: &mut Code,
    environment: &Environment,
    taken: Taken,
    text: &Text,
    start: &Number,
    count: &Number,
) -> Result<(), AllocError>
    ensures { OnOk result (code.new ≡ code.old ++
        (form.text_code (environment_of environment.now) (taken_of taken) (text_of text.now)
        ++ (form.number_code (environment_of environment.now) (taken_of taken) (number_of start.now)
        ++ (save a0 (taken_of taken) ++ (form.number_code (environment_of environment.now) (with_number
        (taken_of taken)) (number_of count.now) ++ substring_cut (taken_of taken)))))) }
{
    text_code(alloc, code, environment, taken, text)?;
    number_code(alloc, code, environment, taken, start)?;
    save(code, a0(), taken)?;
    number_code(alloc, code, environment, taken.with_number()?, count)?;
    substring_cut(code, taken)
}
