// An element of an aggregate, from its offset in a0 and what the buffer tells of it.

ghost use Rattle.std.specs.Prelude.{◌≡◌, [], ◌∷◌, ◌++◌, pos, OnOk};
ghost use Rattle.pli_frames.specs.TakenView.{taken_of};
ghost use Rattle.rv_meaning.specs.declared.instr.Instr.TheVariants as I;
ghost use Rattle.rv_meaning.specs.declared.instr.LoadKind.TheVariants as Load;
ghost use Rattle.rv_meaning.specs.declared.instr.StoreKind.TheVariants as Store;
ghost use Rattle.rv_meaning.specs.declared.instr.BranchTest.TheVariants as Test;
ghost use Rattle.pli_coding.specs.Assembly.{Plain};
ghost use Rattle.pli_coding.specs.Frames.{buffer_kind, buffer_size};
ghost use Rattle.pli_coding.specs.Instructions.{choice, load_word};
ghost use Rattle.pli_coding.specs.Registers.{a0, frame_register, u1, u2, u3};
ghost use Rattle.pli_coding.specs.Streams as form;
ghost use Rattle.rv_item.specs.Moved.{bit_loaded};

use crate::branch::choose;
use pli_frames::fixed::{buffer, buffer_size};
use pli_frames::taken::Taken;
use rv_address::number::signed;
use rv_address::taken::fetch;
use rv_assembly::code::Code;
use rv_assembly::item::Item;
use rv_assembly::registers::{a0, a1, a2, frame, u0, u1, u2, u3};
use rv_meaning::instr::{BranchTest, ImmediateOp, LoadKind, Register, StoreKind};
use std::alloc::AllocError;

/// The kind in the buffer.
pub fn kind_in(code: &mut Code, register: Register) -> Result<(), AllocError>
    ensures { OnOk result (code.new ≡ code.old ++ load_word register frame_register buffer_kind) }
{
    code.load_word(register, frame(), signed(buffer())?)
}

/// The precision or length in the buffer.
pub fn size_in(code: &mut Code, register: Register) -> Result<(), AllocError>
    ensures { OnOk result (code.new ≡ code.old ++ load_word register frame_register buffer_size) }
{
    code.load_word(register, frame(), buffer_size())
}

/// Its address in u3.
pub fn element_addressed(code: &mut Code) -> Result<(), AllocError>
    ensures { OnOk result (code.new ≡ code.old ++ form.element_addressed) }
{
    code.push(Item::BaseIn(u0()))?;
    code.add(u3(), u0(), a0())
}

// ---- numbers, by the precision in u2: two bytes, or four

#[tactic(auto, using(rv_assembly::proofs::Patching::patching))]
fn width_loaded(code: &mut Code) -> Result<(), AllocError>
    ensures { OnOk result (code.new ≡ code.old ++ choice Test.Less u2 u1 (Plain (I.Load Load.Half a0 u3 (pos 0)) ∷ []) (Plain (I.Load Load.Word a0 u3 (pos 0)) ∷ [])) }
{
    let branch = code.keep_branch()?;
    code.load(LoadKind::Word, a0(), u3(), 0)?;
    let jump = code.keep_jump()?;
    code.load(LoadKind::Half, a0(), u3(), 0)?;
    choose(code, branch, jump, BranchTest::Less, u2(), u1())
}

#[tactic(auto, using(rv_assembly::proofs::Patching::patching))]
fn width_stored(code: &mut Code) -> Result<(), AllocError>
    ensures { OnOk result (code.new ≡ code.old ++ choice Test.Less u2 u1 (Plain (I.Store Store.Half u3 a0 (pos 0)) ∷ []) (Plain (I.Store Store.Word u3 a0 (pos 0)) ∷ [])) }
{
    let branch = code.keep_branch()?;
    code.store(StoreKind::Word, u3(), a0(), 0)?;
    let jump = code.keep_jump()?;
    code.store(StoreKind::Half, u3(), a0(), 0)?;
    choose(code, branch, jump, BranchTest::Less, u2(), u1())
}

/// A number in a0, its precision in u2.
pub fn fixed_loaded(code: &mut Code) -> Result<(), AllocError>
    ensures { OnOk result (code.new ≡ code.old ++ form.fixed_loaded) }
{
    element_addressed(code)?;
    size_in(code, u2())?;
    code.small(u1(), 16)?;
    width_loaded(code)
}

/// The number that waits.
pub fn fixed_stored(code: &mut Code, taken: Taken) -> Result<(), AllocError>
    ensures { OnOk result (code.new ≡ code.old ++ form.fixed_stored (taken_of taken)) }
{
    element_addressed(code)?;
    fetch(code, a0(), taken)?;
    size_in(code, u2())?;
    code.small(u1(), 16)?;
    width_stored(code)
}

// ---- bits and texts

/// A bit in a0.
pub fn bit_loaded(code: &mut Code) -> Result<(), AllocError>
    ensures { OnOk result (code.new ≡ code.old ++ bit_loaded) }
{
    element_addressed(code)?;
    code.load(LoadKind::ByteUnsigned, a0(), u3(), 0)
}

/// The bit that waits.
pub fn bit_stored(code: &mut Code, taken: Taken) -> Result<(), AllocError>
    ensures { OnOk result (code.new ≡ code.old ++ form.bit_stored (taken_of taken)) }
{
    element_addressed(code)?;
    fetch(code, a0(), taken)?;
    code.store(StoreKind::Byte, u3(), a0(), 0)
}

/// The length in a1, and in a2 whether the text varies.
pub fn text_described(code: &mut Code) -> Result<(), AllocError>
    ensures { OnOk result (code.new ≡ code.old ++ form.text_described) }
{
    size_in(code, a1())?;
    kind_in(code, a2())?;
    code.immediate(ImmediateOp::Add, a2(), a2(), -2)
}
