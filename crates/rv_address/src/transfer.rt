// Values to and from elements: numbers, bits and OFFSET values by a register, names word by word, texts by the text stack.

ghost use Rattle.std.specs.Prelude.{◌≡◌, ◌*◌, ◌++◌, OnOk};
ghost use Rattle.pli_typing.specs.TypedView.{extent_of, leaf_type_of};
ghost use Rattle.pli_coding.specs.Locating as form;
ghost use Rattle.rv_address.specs.Pieces.{word_loaded, word_stored};
ghost use Rattle.rv_address.specs.Places.{address_of};

use crate::number::{behind, constant};
use pli_frames::fixed::buffer_size;
use pli_typing::typed::{Extent, LeafType};
use rv_assembly::code::Code;
use rv_assembly::item::Item;
use rv_assembly::registers;
use rv_meaning::instr::{LoadKind, Register, StoreKind};
use std::alloc::AllocError;

/// An element's address: a register, and a displacement.
#[derive(Clone, Copy, PartialEq, Eq, Debug)]
pub struct Address {
    pub register: Register,
    pub displacement: i32,
}

/// A number, bit or OFFSET value that stands at an address.
pub fn loaded(
    code: &mut Code,
    kind: LeafType,
    register: Register,
    address: Address,
) -> Result<(), AllocError>
    ensures { OnOk result (code.new ≡ code.old ++ form.loaded (leaf_type_of kind) register (address_of address)) }
{
    let load = match kind {
        LeafType::Fixed(precision) => if precision <= 15 {
            LoadKind::Half
        } else {
            LoadKind::Word
        },
        LeafType::Bit => LoadKind::ByteUnsigned,
        _ => LoadKind::Word,
    };
    code.load(load, register, address.register, address.displacement)
}

/// A number, bit or OFFSET value, to an address.
pub fn stored(
    code: &mut Code,
    kind: LeafType,
    value: Register,
    address: Address,
) -> Result<(), AllocError>
    ensures { OnOk result (code.new ≡ code.old ++ form.stored (leaf_type_of kind) value (address_of address)) }
{
    let store = match kind {
        LeafType::Fixed(precision) => if precision <= 15 {
            StoreKind::Half
        } else {
            StoreKind::Word
        },
        LeafType::Bit => StoreKind::Byte,
        _ => StoreKind::Word,
    };
    code.store(store, address.register, value, address.displacement)
}

fn word_loaded(code: &mut Code, from: Address, n: u8) -> Result<(), AllocError>
    ensures { OnOk result (code.new ≡ code.old ++ word_loaded (address_of from) n) }
{
    let place = behind(4 * u32::from(n), from.displacement)?;
    code.load_word(registers::u1(), from.register, place)
}

fn word_stored(code: &mut Code, to: Address, n: u8) -> Result<(), AllocError>
    ensures { OnOk result (code.new ≡ code.old ++ word_stored (address_of to) n) }
{
    let place = behind(4 * u32::from(n), to.displacement)?;
    code.store_word(to.register, registers::u1(), place)
}

/// The nth word of a name.
fn word_copied(code: &mut Code, from: Address, to: Address, n: u8) -> Result<(), AllocError>
    ensures { OnOk result (code.new ≡ code.old ++ form.word_copied (address_of from) (address_of to) n) }
{
    word_loaded(code, from, n)?;
    word_stored(code, to, n)
}

/// A name, from one address to another.
pub fn name_copied(code: &mut Code, from: Address, to: Address) -> Result<(), AllocError>
    ensures { OnOk result (code.new ≡ code.old ++ form.name_copied (address_of from) (address_of to)) }
{
    word_copied(code, from, to, 0)?;
    word_copied(code, from, to, 1)?;
    word_copied(code, from, to, 2)?;
    word_copied(code, from, to, 3)
}

/// A place of the running frame.
pub fn in_own_frame(place: i32) -> Address
    ensures { address_of result ≡ form.in_own_frame place }
{
    Address {
        register: registers::frame(),
        displacement: place,
    }
}

/// An address as an offset, in a0.
pub fn address_offset(code: &mut Code, address: Address) -> Result<(), AllocError>
    ensures { OnOk result (code.new ≡ code.old ++ form.address_offset (address_of address)) }
{
    code.push(Item::BaseIn(registers::u0()))?;
    code.subtract(registers::a0(), address.register, registers::u0())?;
    code.plus(registers::a0(), registers::a0(), address.displacement)
}

/// A text's length, constant or from the buffer.
pub fn length_loaded(code: &mut Code, register: Register, length: Extent) -> Result<(), AllocError>
    ensures { OnOk result (code.new ≡ code.old ++ form.length_loaded register (extent_of length)) }
{
    match length {
        Extent::Constant(number) => constant(code, register, number),
        Extent::Star => code.load_word(register, registers::frame(), buffer_size()),
        Extent::Refer => code.load_word(register, registers::frame(), buffer_size()),
        Extent::Evaluated(_) => code.load_word(register, registers::frame(), buffer_size()),
    }
}

/// A text's length in a1, and in a2 whether it varies.
pub fn text_kind(code: &mut Code, kind: LeafType) -> Result<(), AllocError>
    ensures { OnOk result (code.new ≡ code.old ++ form.text_kind (leaf_type_of kind)) }
{
    match kind {
        LeafType::Character(length) => {
            length_loaded(code, registers::a1(), length)?;
            code.small(registers::a2(), 0)
        }
        LeafType::Varying(length) => {
            length_loaded(code, registers::a1(), length)?;
            code.small(registers::a2(), 1)
        }
        _ => Ok(()),
    }
}

/// The text at an address, on the text stack.
pub fn text_pushed(code: &mut Code, kind: LeafType, address: Address) -> Result<(), AllocError>
    ensures { OnOk result (code.new ≡ code.old ++ form.text_pushed (leaf_type_of kind) (address_of address)) }
{
    address_offset(code, address)?;
    text_kind(code, kind)?;
    code.service(20)
}

/// The top text, to an address.
pub fn text_stored(code: &mut Code, kind: LeafType, address: Address) -> Result<(), AllocError>
    ensures { OnOk result (code.new ≡ code.old ++ form.text_stored (leaf_type_of kind) (address_of address)) }
{
    address_offset(code, address)?;
    text_kind(code, kind)?;
    code.service(27)
}
