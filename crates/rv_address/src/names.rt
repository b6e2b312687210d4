// Frames, and names and numbers of signatures by where they stand.

ghost use Rattle.std.specs.Prelude.{◌≡◌, [], ◌∷◌, ◌++◌, OnOk, IfOk};
ghost use Rattle.pli_coding.specs.Assembly.{DataPlace, OffsetOf, StaticStorage};
ghost use Rattle.pli_coding.specs.Locating as form;
ghost use Rattle.rv_assembly.specs.View.{datum_of};
ghost use Rattle.rv_address.specs.Around.{environment_of};
ghost use Rattle.rv_address.specs.Pieces.{list_loaded};
ghost use Rattle.rv_address.specs.Places.{name_of, number_of};

use crate::environment::Environment;
use crate::number::signed;
use pli_frames::fixed::{display, list_offset, list_place, own_offset};
use rv_assembly::code::Code;
use rv_assembly::item::{Datum, Item, Symbol};
use rv_assembly::registers;
use rv_meaning::instr::Register;
use std::alloc::AllocError;

/// Where a name stands: in the frame at a level, in the list of arguments that this frame has, or in the static data of
/// a variable of so many bytes, in front or at a place.
#[derive(Clone, Copy, PartialEq, Eq, Debug)]
pub enum NamePlace {
    Frame {
        level: usize,
        place: i32,
    },
    List {
        level: usize,
        place: i32,
    },
    Static {
        block: usize,
        index: usize,
        bytes: usize,
    },
    InStatic {
        block: usize,
        index: usize,
        bytes: usize,
        place: u32,
    },
}

/// Where the number of a signature is: a constant, a word of a frame, of its list of arguments, or of static data.
#[derive(Clone, Copy, PartialEq, Eq, Debug)]
pub enum NumberPlace {
    Known(u32),
    Frame { level: usize, place: i32 },
    List { level: usize, place: i32 },
    Word { block: usize, index: usize },
}

/// A variable's name, and its signature's number.
#[derive(Clone, Copy, PartialEq, Eq, Debug)]
pub struct Located {
    pub name: NamePlace,
    pub number: NumberPlace,
}

/// Finds the frame at a level; `frame_in` has its address then.
pub fn frame_found(
    code: &mut Code,
    environment: &Environment,
    level: usize,
    register: Register,
) -> Result<(), AllocError>
    ensures { OnOk result (code.new ≡ code.old ++ form.frame_found (environment_of environment.now) level register) }
{
    if level == environment.level {
        return Ok(());
    }
    let place = display(level)?;
    code.load_word(register, registers::frame(), place)
}

/// The register that has the address of a frame once it was found.
pub fn frame_in(environment: &Environment, level: usize, register: Register) -> Register
    ensures { result ≡ form.frame_in (environment_of environment.now) level register }
{
    if level == environment.level {
        registers::frame()
    } else {
        register
    }
}

/// The offset of a place of a frame.
pub fn frame_offset(
    code: &mut Code,
    environment: &Environment,
    level: usize,
    register: Register,
    place: i32,
) -> Result<(), AllocError>
    ensures { OnOk result (code.new ≡ code.old ++ form.frame_offset (environment_of environment.now) level register place) }
{
    frame_found(code, environment, level, register)?;
    code.load_word(
        register,
        frame_in(environment, level, register),
        own_offset(),
    )?;
    code.plus(register, register, place)
}

/// The offset of a place of the running frame.
pub fn own_place(
    code: &mut Code,
    environment: &Environment,
    register: Register,
    place: i32,
) -> Result<(), AllocError>
    ensures { OnOk result (code.new ≡ code.old ++ form.own_place (environment_of environment.now) register place) }
{
    frame_offset(code, environment, environment.level, register, place)
}

/// The offset of the storage of a STATIC variable of so many bytes.
fn storage_offset(
    code: &mut Code,
    register: Register,
    block: usize,
    index: usize,
    bytes: usize,
) -> Result<(), AllocError>
    ensures { OnOk result (code.new ≡ code.old ++ OffsetOf register (DataPlace (StaticStorage block index bytes)) ∷ []) }
{
    code.push(Item::OffsetOf(
        register,
        Symbol::DataPlace(Datum::StaticStorage {
            block,
            index,
            bytes,
        }),
    ))
}

/// The offset of a place of the list of arguments that a frame has.
fn argument_offset(
    code: &mut Code,
    environment: &Environment,
    level: usize,
    register: Register,
    place: i32,
) -> Result<(), AllocError>
    ensures { OnOk result (code.new ≡ code.old
        ++ form.argument_offset (environment_of environment.now) level register place) }
{
    frame_found(code, environment, level, register)?;
    code.load_word(
        register,
        frame_in(environment, level, register),
        list_offset(),
    )?;
    code.plus(register, register, place)
}

/// The address of that list, once the frame was found.
fn list_loaded(
    code: &mut Code,
    environment: &Environment,
    level: usize,
    register: Register,
) -> Result<(), AllocError>
    ensures { OnOk result (code.new ≡ code.old ++ list_loaded (environment_of environment.now) level register) }
{
    let place = signed(list_place(level)?)?;
    code.load_word(register, frame_in(environment, level, register), place)
}

/// The word at a place of it.
fn argument_word(
    code: &mut Code,
    environment: &Environment,
    level: usize,
    register: Register,
    place: i32,
) -> Result<(), AllocError>
    ensures { OnOk result (code.new ≡ code.old
        ++ form.argument_word (environment_of environment.now) level register place) }
{
    frame_found(code, environment, level, register)?;
    list_loaded(code, environment, level, register)?;
    code.load_word(register, register, place)
}

/// The offset of a name.
pub fn name_offset(
    code: &mut Code,
    environment: &Environment,
    register: Register,
    name: NamePlace,
) -> Result<(), AllocError>
    ensures { OnOk result (code.new ≡ code.old ++ form.name_offset (environment_of environment.now) register (name_of name)) }
{
    match name {
        NamePlace::Frame { level, place } => {
            frame_offset(code, environment, level, register, place)
        }
        NamePlace::List { level, place } => {
            argument_offset(code, environment, level, register, place)
        }
        NamePlace::Static {
            block,
            index,
            bytes,
        } => storage_offset(code, register, block, index, bytes),
        NamePlace::InStatic {
            block,
            index,
            bytes,
            place,
        } => {
            storage_offset(code, register, block, index, bytes)?;
            code.plus(register, register, signed(place)?)
        }
    }
}

/// The word of static data, by way of the base in another register.
pub fn data_word(
    code: &mut Code,
    register: Register,
    through: Register,
    datum: Datum,
) -> Result<(), AllocError>
    ensures { OnOk result (code.new ≡ code.old ++ form.data_word register through (datum_of datum)) }
{
    code.push(Item::OffsetOf(register, Symbol::DataPlace(datum)))?;
    code.push(Item::BaseIn(through))?;
    code.add(register, register, through)?;
    code.load_word(register, register, 0)
}

/// The number of a signature.
pub fn number_loaded(
    code: &mut Code,
    environment: &Environment,
    register: Register,
    number: NumberPlace,
) -> Result<(), AllocError>
    ensures { OnOk result (code.new ≡ code.old ++ form.number_loaded (environment_of environment.now) register (number_of number)) }
{
    match number {
        NumberPlace::Known(number) => code.number(register, number),
        NumberPlace::Frame { level, place } => {
            frame_found(code, environment, level, register)?;
            code.load_word(register, frame_in(environment, level, register), place)
        }
        NumberPlace::List { level, place } => {
            argument_word(code, environment, level, register, place)
        }
        NumberPlace::Word { block, index } => {
            let datum = Datum::NumberWord { block, index };
            data_word(code, register, registers::u0(), datum)
        }
    }
}
