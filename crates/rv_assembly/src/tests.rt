// Each call once, with each allocation refused in turn; worked words are by the manual's fields.

ghost use Rattle.std.specs.Prelude.{◌≡◌, [], ◌∷◌, ◌++◌, OnOk};
ghost use Rattle.rv_meaning.specs.declared.instr.BranchTest.TheVariants as Test;
ghost use Rattle.pli_coding.specs.Registers.{a0, zero_register};
ghost use Rattle.pli_coding.specs.Assembly.{JumpAhead, size_of};
ghost use Rattle.pli_coding.specs.Instructions as form;

use crate::code::{Code, branch_over};
use crate::item::{Datum, InitialLeaf, Item, Symbol};
use crate::link::link;
use crate::registers;
use crate::statics::DatumRef;
use rv_meaning::instr::{BranchTest, ImmediateOp, LoadKind, RegisterOp, ShiftOp, StoreKind};
use std::alloc::{AllocError, Global};
use std::test::Fail;

fn short_sequences(alloc: Global) -> Result<Code, AllocError> {
    let (a0, a1) = (registers::a0(), registers::a1());
    let mut code = Code::new(alloc);
    code.immediate(ImmediateOp::Xor, a0, a0, -1)?;
    code.shift(ShiftOp::Left, a0, a0, 2)?;
    code.registers(RegisterOp::Multiply, a0, a0, a1)?;
    code.add(a0, a0, a1)?;
    code.subtract(a0, a0, a1)?;
    code.copy(a1, a0)?;
    code.small(a0, 7)?;
    code.lowest_number(registers::u1())?;
    code.constant(a0, -2049)?;
    code.number(a0, 4096)?;
    code.plus(a0, registers::frame(), 8)?;
    code.load(LoadKind::Half, a0, a1, 0)?;
    code.store(StoreKind::Byte, a1, a0, 0)?;
    code.load_word(a0, registers::frame(), 5000)?;
    code.store_word(registers::stack(), registers::held(0), -4)?;
    code.tested_service(30)?;
    code.error_raised(20)?;
    Ok(code)
}

#[test]
fn sequences_have_their_sizes(rt: HostRuntime) -> Result<(), Fail> {
    let code = short_sequences(rt.alloc())?;
    assert_eq!(rt; code.len(), 25);
    assert_eq!(rt; code.size(), 27);
    Ok(())
}

fn constant(alloc: Global, bytes: &[u8]) -> Result<Datum, AllocError> {
    Ok(Datum::ConstantBytes(bytes.to_vec(alloc)?))
}

fn put_data(alloc: Global, code: &mut Code) -> Result<(), AllocError> {
    let a0 = registers::a0();
    code.push(Item::OffsetOf(
        a0,
        Symbol::DataPlace(Datum::StaticStorage {
            block: 0,
            index: 1,
            bytes: 4,
        }),
    ))?;
    for _ in 0..2 {
        let text = constant(alloc, b"AB")?;
        code.push(Item::OffsetOf(a0, Symbol::DataPlace(text)))?;
    }
    let mut leaves = Vec::new(alloc);
    leaves.push(InitialLeaf {
        leaf: 3,
        values: b"AB".to_vec(alloc)?,
    })?;
    code.push(Item::OffsetOf(a0, Symbol::DataPlace(Datum::InitialValues(leaves))))
}

// Ten words that go back to their first one, with data that they name.
fn small_program(alloc: Global) -> Result<Code, AllocError> {
    let mut code = Code::new(alloc);
    code.push(Item::Mark(Symbol::ProcedureEntry { block: 0 }))?;
    put_data(alloc, &mut code)?;
    code.push(Item::CallTo(Symbol::ProcedureEntry { block: 0 }))?;
    Ok(code)
}

#[test]
fn data_stands_once_behind_the_code(rt: HostRuntime) -> Result<(), Fail> {
    let code = small_program(rt.alloc())?;
    let linked = link(rt.alloc(), &code)?;
    // auipc ra, 0 and jalr ra, ra, -32
    assert!(rt;
        linked.words.len() == 10 && &linked.words[8..] == [0x0000_0097u32, 0xfe00_80e7].as_slice()
    );
    let statics = [1, 0, 0, 0, 3, 0, 0, 0, 12, 0, 0, 0, b'A', b'B', 0, 0];
    assert!(rt; linked.statics.len() == 36 && &linked.statics[..16] == statics.as_slice());
    assert_eq!(rt;
        linked.links.datum_place(DatumRef::ConstantBytes(b"AB")),
        60
    );
    Ok(())
}

// Two where a0 is 0, else one.
#[tactic(auto, using(crate::proofs::Patching::patching))]
fn put_choice(code: &mut Code) -> Result<(), AllocError>
    ensures { OnOk result (code.new ≡ code.old ++ form.choice Test.Equal a0 zero_register (form.small a0 2 ∷ []) (form.small a0 1 ∷ [])) }
{
    let branch = code.keep_branch()?;
    code.small(registers::a0(), 1)?;
    let jump = code.keep_jump()?;
    code.small(registers::a0(), 2)?;
    code.choose(
        branch,
        jump,
        BranchTest::Equal,
        registers::a0(),
        registers::zero(),
    );
    Ok(())
}

// The choice, as often as it leaves 0.
#[tactic(auto, using(crate::proofs::Patching::patching))]
fn put_repeated(code: &mut Code) -> Result<(), AllocError>
    ensures { OnOk result (code.new ≡ code.old ++ form.repeated_while_zero (form.choice Test.Equal a0 zero_register (form.small a0 2 ∷ []) (form.small a0 1 ∷ []))) }
{
    let start = code.size();
    put_choice(code)?;
    code.repeat_while_zero(start)
}

// The choice where a0 isn't 0.
#[tactic(auto, using(crate::proofs::Patching::patching))]
fn put_long(code: &mut Code) -> Result<(), AllocError>
    ensures { OnOk result (code.new ≡ code.old ++ (form.skip_where Test.NotEqual a0 zero_register (JumpAhead (size_of (form.choice Test.Equal a0 zero_register (form.small a0 2 ∷ []) (form.small a0 1 ∷ []))) ∷ []) ++ form.choice Test.Equal a0 zero_register (form.small a0 2 ∷ []) (form.small a0 1 ∷ []))) }
{
    code.push(branch_over(BranchTest::NotEqual, registers::a0(), registers::zero(), 2))?;
    let jump = code.keep_jump()?;
    put_choice(code)?;
    code.jump_over(jump);
    Ok(())
}

fn branches(alloc: Global) -> Result<Code, AllocError> {
    let mut code = Code::new(alloc);
    put_repeated(&mut code)?;
    put_long(&mut code)?;
    Ok(code)
}

#[test]
fn branches_go_over_what_was_written(rt: HostRuntime) -> Result<(), Fail> {
    let code = branches(rt.alloc())?;
    let linked = link(rt.alloc(), &code)?;
    // beq a0, zero, 16, and auipc t6, 0 with jalr zero, t6, 12
    assert!(rt; linked.words.len() == 16 && linked.words[0] == 0x0005_0863);
    assert!(rt; &linked.words[2..4] == [0x0000_0f97u32, 0x00cf_8067].as_slice());
    Ok(())
}
