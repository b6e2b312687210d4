// The words of code whose places are known.

ghost use Rattle.std.specs.Prelude.{◌≡◌, ◌+◌, ◌*◌, ◌<◌, ◌^◌, [], ◌∷◌, ◌++◌, map, OnOk, IfOk};
ghost use Rattle.rv_meaning.specs.Encoding.{Fits, IsWithin, word_of};
ghost use Rattle.rv_meaning.specs.Images.{AllInstructions};
ghost use Rattle.pli_coding.specs.Registers.{zero_register, return_register, far_register};
ghost use Rattle.pli_coding.specs.Linking as form;
ghost use Rattle.rv_assembly.specs.View.{item_of};
ghost use Rattle.rv_assembly.specs.Fitting.{FitsIn};
ghost use Rattle.rv_assembly.specs.Found.{shown};

use crate::code::Code;
use crate::item::Item;
use crate::links::Links;
use crate::parts::{lower_of, upper_of};
use crate::registers;
use rv_isa::encode::encode;
use rv_meaning::instr::{ImmediateOp, Instr, Register};
use std::alloc::{AllocError, Global};

fn put(words: &mut Vec<u32>, instr: Instr) -> Result<(), AllocError>
    requires { Fits instr }
    ensures { OnOk result (words.new.items ≡ words.old.items ++ word_of instr ∷ []) }
{
    words.push(encode(instr))?;
    Ok(())
}

fn put_added(words: &mut Vec<u32>, register: Register, word: u32) -> Result<(), AllocError>
    ensures { OnOk result (words.new.items ≡ words.old.items ++ word_of (form.added register word) ∷ []) }
{
    put(
        words,
        Instr::Immediate {
            op: ImmediateOp::Add,
            rd: register,
            rs1: register,
            immediate: lower_of(word),
        },
    )
}

fn put_offset(words: &mut Vec<u32>, register: Register, offset: u32) -> Result<(), AllocError>
    ensures { OnOk result (words.new.items ≡ words.old.items ++ map word_of (form.offset_code register offset)) }
{
    put(
        words,
        Instr::LoadUpper {
            rd: register,
            upper: upper_of(offset),
        },
    )?;
    put_added(words, register, offset)
}

fn put_address(words: &mut Vec<u32>, register: Register, distance: u32) -> Result<(), AllocError>
    ensures { OnOk result (words.new.items ≡ words.old.items ++ map word_of (form.address_code register distance)) }
{
    put(
        words,
        Instr::AddUpperToPc {
            rd: register,
            upper: upper_of(distance),
        },
    )?;
    put_added(words, register, distance)
}

fn put_jump(
    words: &mut Vec<u32>,
    link: Register,
    through: Register,
    distance: u32,
) -> Result<(), AllocError>
    ensures { OnOk result (words.new.items ≡ words.old.items ++ map word_of (form.jump_code link through distance)) }
{
    put(
        words,
        Instr::AddUpperToPc {
            rd: through,
            upper: upper_of(distance),
        },
    )?;
    put(
        words,
        Instr::JumpRegister {
            rd: link,
            rs1: through,
            offset: lower_of(distance),
        },
    )
}

// From one place to another, as a word.
fn distance(from: u32, to: u32) -> u32
    ensures { result ≡ form.distance from to }
{
    if from <= to {
        to - from
    } else {
        u32::MAX - (from - to) + 1
    }
}

fn put_go(words: &mut Vec<u32>, distance: u32) -> Result<(), AllocError>
    ensures { OnOk result (words.new.items ≡ words.old.items ++ map word_of (form.jump_code zero_register far_register distance)) }
{
    put_jump(words, registers::zero(), registers::far(), distance)
}

fn put_call(words: &mut Vec<u32>, distance: u32) -> Result<(), AllocError>
    ensures { OnOk result (words.new.items ≡ words.old.items ++ map word_of (form.jump_code return_register return_register distance)) }
{
    put_jump(
        words,
        registers::return_register(),
        registers::return_register(),
        distance,
    )
}

fn put_item<'a>(
    words: &mut Vec<u32>,
    links: &Links<'a>,
    at: u32,
    item: &'a Item,
) -> Result<(), AllocError>
    requires fits { FitsIn (item_of item.now) }
    requires near { at < 2 ^ 30 }
    ensures { OnOk result (words.new.items ≡ words.old.items ++ map word_of (form.item_code (shown links.now.marks.items links.now.placed.items) at (item_of item.now))) }
{
    match item {
        Item::Plain(instr) => put(words, *instr),
        Item::BaseIn(register) => put_address(words, *register, distance(at, 0)),
        Item::OffsetOf(register, symbol) => put_offset(words, *register, links.place_of(symbol)),
        Item::OffsetAhead(register, count) => {
            put_offset(words, *register, at + 4 * (2 + *count as u32))
        }
        Item::JumpTo(symbol) => put_go(words, distance(at, links.place_of(symbol))),
        Item::CallTo(symbol) => put_call(words, distance(at, links.place_of(symbol))),
        Item::JumpAhead(count) => put_go(words, distance(at, at + 4 * (2 + *count as u32))),
        Item::JumpBack(count) => put_go(words, distance(4 * *count as u32, 0)),
        Item::Mark(_) => Ok(()),
    }
}

/// The words of the code at its places, from the base on.
#[tactic(auto, using(crate::proofs::LinkedSteps::next_words, crate::proofs::LinkedSteps::next_fits, crate::proofs::LinkedSteps::fits_here, crate::proofs::Marking::next_place, crate::proofs::Marking::place_fits, crate::proofs::LinkedSteps::place_near))]
pub(crate) fn words_of<'a>(
    alloc: Global,
    code: &'a Code,
    links: &Links<'a>,
) -> Result<Vec<u32>, AllocError>
    ensures words { IfOk result (λ w. w.items ≡ map word_of (form.linked (shown links.now.marks.items links.now.placed.items) 0 code.now)) }
    ensures instructions { IfOk result (λ w. AllInstructions w.items) }
{
    let mut words = Vec::new(alloc);
    let mut at: u32 = 0;
    let items = code.items();
    for item in items {
        put_item(&mut words, links, at, item)?;
        at += 4 * item.size() as u32;
    }
    Ok(words)
}
