// An element to the output or from the input, by its kind.

ghost use Rattle.std.specs.Prelude.{◌≡◌, ◌<◌, ◌++◌, OnOk};
ghost use Rattle.pli_frames.specs.TakenView.{taken_of};
ghost use Rattle.rv_meaning.specs.declared.instr.BranchTest.TheVariants as Test;
ghost use Rattle.pli_typing.specs.TypedView.{reference_of};
ghost use Rattle.pli_coding.specs.Environments.{save};
ghost use Rattle.pli_coding.specs.Instructions.{choice, service};
ghost use Rattle.pli_coding.specs.Registers.{a0, u0, u1};
ghost use Rattle.pli_coding.specs.Streams as form;
ghost use Rattle.rv_address.specs.Around.{environment_of};
ghost use Rattle.rv_item.specs.Moved.{bit_moved, bits_and_texts, element_moved, fixed_moved, kind_tested, kinds_moved, text_moved};

use crate::branch::choose;
use crate::element::{bit_loaded, bit_stored, fixed_loaded, fixed_stored, kind_in, text_described};
use crate::fitting::{text_converted, text_fitted};
use crate::kinds::{Kinds, kinds_in};
use crate::text::number_or_bit;
use pli_frames::taken::Taken;
use pli_typing::typed::Reference;
use rv_address::environment::Environment;
use rv_address::taken::save;
use rv_assembly::code::Code;
use rv_assembly::registers::{a0, a1, u0, u1, u2};
use rv_meaning::instr::BranchTest;
use std::alloc::AllocError;

/// What is done by the kind: an element becomes the top text, the top text becomes its value, or this is stored.
#[derive(Clone, Copy, PartialEq, Eq, Debug)]
pub enum Motion {
    Pushing,
    Converting,
    Storing,
}

// ---- PUT

/// An element as the top text.
fn fixed_element_pushed(code: &mut Code) -> Result<(), AllocError>
    ensures { OnOk result (code.new ≡ code.old ++ form.fixed_element_pushed) }
{
    fixed_loaded(code)?;
    code.copy(a1(), u2())?;
    code.service(21)
}

fn bit_element_pushed(code: &mut Code) -> Result<(), AllocError>
    ensures { OnOk result (code.new ≡ code.old ++ form.bit_element_pushed) }
{
    bit_loaded(code)?;
    number_or_bit(code, 0)
}

fn text_element_pushed(code: &mut Code) -> Result<(), AllocError>
    ensures { OnOk result (code.new ≡ code.old ++ form.text_element_pushed) }
{
    text_described(code)?;
    code.service(20)
}

// ---- GET

/// The top text as a bit, which waits.
fn bit_converted(code: &mut Code, taken: Taken) -> Result<(), AllocError>
    ensures { OnOk result (code.new ≡ code.old ++ (form.text_converted 1 ++ save a0 (taken_of taken))) }
{
    text_converted(code, 1)?;
    save(code, a0(), taken)
}

fn text_stored(code: &mut Code) -> Result<(), AllocError>
    ensures { OnOk result (code.new ≡ code.old ++ (form.text_described ++ service 27)) }
{
    text_described(code)?;
    code.service(27)
}

// ---- each of them

#[tactic(auto, unfolding(crate::specs::Moved::fixed_moved))]
fn fixed_moved(code: &mut Code, taken: Taken, motion: Motion) -> Result<(), AllocError>
    ensures { OnOk result (code.new ≡ code.old ++ fixed_moved motion (taken_of taken)) }
{
    match motion {
        Motion::Pushing => fixed_element_pushed(code),
        Motion::Converting => text_fitted(code, taken),
        Motion::Storing => fixed_stored(code, taken),
    }
}

#[tactic(auto, unfolding(crate::specs::Moved::bit_moved))]
fn bit_moved(code: &mut Code, taken: Taken, motion: Motion) -> Result<(), AllocError>
    ensures { OnOk result (code.new ≡ code.old ++ bit_moved motion (taken_of taken)) }
{
    match motion {
        Motion::Pushing => bit_element_pushed(code),
        Motion::Converting => bit_converted(code, taken),
        Motion::Storing => bit_stored(code, taken),
    }
}

#[tactic(auto, unfolding(crate::specs::Moved::text_moved))]
fn text_moved(code: &mut Code, motion: Motion) -> Result<(), AllocError>
    ensures { OnOk result (code.new ≡ code.old ++ text_moved motion) }
{
    match motion {
        Motion::Pushing => text_element_pushed(code),
        Motion::Converting => Ok(()),
        Motion::Storing => text_stored(code),
    }
}

// ---- by the kind in the buffer

fn kind_tested(code: &mut Code, kind: u32) -> Result<(), AllocError>
    requires { kind < 2048 }
    ensures { OnOk result (code.new ≡ code.old ++ kind_tested kind) }
{
    kind_in(code, u0())?;
    code.small(u1(), kind)
}

#[tactic(auto, using(rv_assembly::proofs::Patching::patching))]
fn bit_or_text(code: &mut Code, taken: Taken, motion: Motion) -> Result<(), AllocError>
    ensures { OnOk result (code.new ≡ code.old ++ choice Test.Equal u0 u1 (bit_moved motion (taken_of taken)) (text_moved motion)) }
{
    let branch = code.keep_branch()?;
    text_moved(code, motion)?;
    let jump = code.keep_jump()?;
    bit_moved(code, taken, motion)?;
    choose(code, branch, jump, BranchTest::Equal, u0(), u1())
}

#[tactic(auto, unfolding(crate::specs::Moved::bits_and_texts))]
fn bits_and_texts(
    code: &mut Code,
    taken: Taken,
    motion: Motion,
    kinds: Kinds,
) -> Result<(), AllocError>
    ensures { OnOk result (code.new ≡ code.old ++ bits_and_texts kinds motion (taken_of taken)) }
{
    if kinds.bit && kinds.text {
        kind_tested(code, 4)?;
        return bit_or_text(code, taken, motion);
    }
    if kinds.bit {
        return bit_moved(code, taken, motion);
    }
    if kinds.text {
        return text_moved(code, motion);
    }
    Ok(())
}

#[tactic(auto, using(rv_assembly::proofs::Patching::patching))]
fn fixed_or_others(
    code: &mut Code,
    taken: Taken,
    motion: Motion,
    kinds: Kinds,
) -> Result<(), AllocError>
    ensures { OnOk result (code.new ≡ code.old ++ choice Test.Equal u0 u1 (fixed_moved motion (taken_of taken)) (bits_and_texts kinds motion (taken_of taken))) }
{
    let branch = code.keep_branch()?;
    bits_and_texts(code, taken, motion, kinds)?;
    let jump = code.keep_jump()?;
    fixed_moved(code, taken, motion)?;
    choose(code, branch, jump, BranchTest::Equal, u0(), u1())
}

fn kinds_moved(
    code: &mut Code,
    taken: Taken,
    motion: Motion,
    kinds: Kinds,
) -> Result<(), AllocError>
    ensures { OnOk result (code.new ≡ code.old ++ kinds_moved kinds motion (taken_of taken)) }
{
    if !kinds.fixed {
        return bits_and_texts(code, taken, motion, kinds);
    }
    if kinds.bit || kinds.text {
        kind_tested(code, 1)?;
        return fixed_or_others(code, taken, motion, kinds);
    }
    fixed_moved(code, taken, motion)
}

/// By the kind in the buffer.
#[tactic(auto, using(crate::proofs::Moving::kinds_are))]
pub fn element_moved(
    code: &mut Code,
    environment: &Environment,
    taken: Taken,
    reference: &Reference,
    motion: Motion,
) -> Result<(), AllocError>
    ensures { OnOk result (code.new ≡ code.old ++ element_moved motion (environment_of environment.now) (taken_of taken) (reference_of reference.now)) }
{
    let kinds = kinds_in(environment, reference)?;
    kinds_moved(code, taken, motion, kinds)
}
