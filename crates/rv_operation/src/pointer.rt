// Names in words of the frame, and offsets: NULL, whether two are equal, and what one is in an area.

ghost use Rattle.std.specs.Prelude.{◌≡◌, ◌++◌, OnOk, IfOk};
ghost use Rattle.pli_typing.specs.TypedView.{variable_of};
ghost use Rattle.pli_coding.specs.Locating.{FrameName, in_own_frame, own_place, waiting_name};
ghost use Rattle.pli_coding.specs.Storing.{area_name};
ghost use Rattle.pli_frames.specs.TakenView.{taken_of};
ghost use Rattle.rv_address.specs.Around.{environment_of};
ghost use Rattle.rv_address.specs.Places.{address_of, name_of};
ghost use Rattle.rv_operation.specs.Pieces.{at_result, name_null, name_nulled, name_to_offset, names_compared, names_differ, null_compared, null_differs, null_kept, offset_to_name, offsets_compared, places_compared, result_kept, word_loaded, word_nulled, words_differ};

use crate::arithmetic::equal_code;
use pli_frames::taken::Taken;
use pli_typing::typed::Variable;
use rv_address::environment::Environment;
use rv_address::located::{located, waiting_name};
use rv_address::names::{NamePlace, name_offset, own_place};
use rv_address::number::behind;
use rv_address::taken::fetch;
use rv_address::transfer::{Address, in_own_frame, name_copied};
use rv_assembly::code::Code;
use rv_assembly::registers::{a0, a1, a2, a3, frame, u0, u1, u2, zero};
use rv_meaning::instr::{Register, RegisterOp};
use std::alloc::AllocError;

fn word_nulled(code: &mut Code, to: Address, n: u8) -> Result<(), AllocError>
    ensures { OnOk result (code.new ≡ code.old ++ word_nulled (address_of to) n) }
{
    let place = behind(4 * u32::from(n), to.displacement)?;
    code.store_word(to.register, zero(), place)
}

/// The null name, to an address.
fn name_nulled(code: &mut Code, to: Address) -> Result<(), AllocError>
    ensures { OnOk result (code.new ≡ code.old ++ name_nulled (address_of to)) }
{
    word_nulled(code, to, 0)?;
    word_nulled(code, to, 1)?;
    word_nulled(code, to, 2)?;
    word_nulled(code, to, 3)
}

/// The address of the words behind the temporaries in use, where a name waits.
pub fn waiting_address(taken: Taken) -> Result<Address, AllocError>
    ensures { IfOk result (λ a. address_of a ≡ in_own_frame (waiting_name (taken_of taken))) }
{
    let place = waiting_name(taken)?;
    Ok(in_own_frame(place))
}

/// The place of an address, in the running frame.
pub(crate) fn framed(address: Address) -> Address
    ensures { address_of result ≡ in_own_frame address.displacement }
{
    Address {
        register: frame(),
        displacement: address.displacement,
    }
}

/// NULL, to a place of the running frame.
#[tactic(auto, using(crate::proofs::FramedNames::null_framed))]
pub fn null_kept(code: &mut Code, to: Address) -> Result<(), AllocError>
    ensures { OnOk result (code.new ≡ code.old ++ null_kept to.displacement) }
{
    let place = framed(to);
    name_nulled(code, place)
}

// ---- comparisons

/// The nth word of a name.
fn word_loaded(code: &mut Code, register: Register, from: Address, n: u8) -> Result<(), AllocError>
    ensures { OnOk result (code.new ≡ code.old ++ word_loaded register (address_of from) n) }
{
    let place = behind(4 * u32::from(n), from.displacement)?;
    code.load_word(register, from.register, place)
}

/// Where the nth words of two names differ, as bits of u0.
fn words_differ(code: &mut Code, left: Address, right: Address, n: u8) -> Result<(), AllocError>
    ensures { OnOk result (code.new ≡ code.old ++ words_differ (address_of left) (address_of right) n) }
{
    word_loaded(code, u1(), left, n)?;
    word_loaded(code, u2(), right, n)?;
    code.registers(RegisterOp::Xor, u1(), u1(), u2())?;
    code.registers(RegisterOp::Or, u0(), u0(), u1())
}

fn names_differ(code: &mut Code, left: Address, right: Address) -> Result<(), AllocError>
    ensures { OnOk result (code.new ≡ code.old ++ names_differ (address_of left) (address_of right)) }
{
    code.small(u0(), 0)?;
    words_differ(code, left, right, 0)?;
    words_differ(code, left, right, 1)?;
    words_differ(code, left, right, 2)?;
    words_differ(code, left, right, 3)
}

/// Whether the names at two addresses are equal, or whether they aren't.
fn names_compared(
    code: &mut Code,
    equal: bool,
    left: Address,
    right: Address,
) -> Result<(), AllocError>
    ensures { OnOk result (code.new ≡ code.old ++ names_compared equal (address_of left) (address_of right)) }
{
    names_differ(code, left, right)?;
    code.copy(u1(), zero())?;
    code.copy(a0(), u0())?;
    equal_code(code, equal)
}

/// Whether the names at two places of the running frame are equal, or whether they aren't.
#[tactic(auto, using(crate::proofs::FramedNames::both_framed))]
pub fn places_compared(
    code: &mut Code,
    equal: bool,
    left: Address,
    right: Address,
) -> Result<(), AllocError>
    ensures { OnOk result (code.new ≡ code.old ++ places_compared equal left.displacement right.displacement) }
{
    let first = framed(left);
    let second = framed(right);
    names_compared(code, equal, first, second)
}

/// The nth word of a name, among bits of u0.
fn null_differs(code: &mut Code, from: Address, n: u8) -> Result<(), AllocError>
    ensures { OnOk result (code.new ≡ code.old ++ null_differs (address_of from) n) }
{
    word_loaded(code, u1(), from, n)?;
    code.registers(RegisterOp::Or, u0(), u0(), u1())
}

fn name_null(code: &mut Code, equal: bool, from: Address) -> Result<(), AllocError>
    ensures { OnOk result (code.new ≡ code.old ++ name_null equal (address_of from)) }
{
    code.small(u0(), 0)?;
    null_differs(code, from, 0)?;
    null_differs(code, from, 1)?;
    null_differs(code, from, 2)?;
    null_differs(code, from, 3)?;
    code.copy(u1(), zero())?;
    code.copy(a0(), u0())?;
    equal_code(code, equal)
}

/// Whether the name at a place of the running frame is null, or whether it isn't.
#[tactic(auto, using(crate::proofs::FramedNames::null_told))]
pub fn null_compared(code: &mut Code, equal: bool, from: Address) -> Result<(), AllocError>
    ensures { OnOk result (code.new ≡ code.old ++ null_compared equal from.displacement) }
{
    let place = framed(from);
    name_null(code, equal, place)
}

/// Whether the offset that waits and the one in a0 are equal, or whether they aren't.
#[tactic(auto, unfolding(crate::specs::Pieces::offsets_compared))]
pub fn offsets_compared(code: &mut Code, taken: Taken, equal: bool) -> Result<(), AllocError>
    ensures { OnOk result (code.new ≡ code.old ++ offsets_compared (taken_of taken) equal) }
{
    fetch(code, u1(), taken)?;
    equal_code(code, equal)
}

// ---- what functions and areas give

/// Where a function leaves a name.
fn at_result() -> Address
    ensures { address_of result ≡ at_result }
{
    Address {
        register: a0(),
        displacement: 0,
    }
}

/// A function's name, to a place of the running frame.
#[tactic(auto, using(crate::proofs::FramedNames::result_framed))]
pub fn result_kept(code: &mut Code, to: Address) -> Result<(), AllocError>
    ensures { OnOk result (code.new ≡ code.old ++ result_kept to.displacement) }
{
    let from = at_result();
    let place = framed(to);
    name_copied(code, from, place)
}

/// The offset of an area's name.
pub fn area_name(
    code: &mut Code,
    environment: &Environment,
    register: Register,
    taken: Taken,
    area: Variable,
) -> Result<(), AllocError>
    ensures { OnOk result (code.new ≡ code.old ++ area_name (environment_of environment.now) register (taken_of taken) (variable_of area)) }
{
    let found = located(environment, taken, area)?;
    name_offset(code, environment, register, found.name)
}

/// The offset of an address in the running frame.
pub(crate) fn address_given(
    code: &mut Code,
    environment: &Environment,
    register: Register,
    to: Address,
) -> Result<(), AllocError>
    ensures { OnOk result (code.new ≡ code.old ++ own_place (environment_of environment.now) register to.displacement) }
{
    own_place(code, environment, register, to.displacement)
}

/// POINTER: the name of the offset in a0, to a place of the running frame.
#[tactic(auto, unfolding(crate::specs::Pieces::offset_to_name))]
pub fn offset_to_name(
    code: &mut Code,
    environment: &Environment,
    taken: Taken,
    to: Address,
    area: Variable,
) -> Result<(), AllocError>
    ensures { OnOk result (code.new ≡ code.old ++ offset_to_name (environment_of environment.now) (taken_of taken) to.displacement (variable_of area)) }
{
    area_name(code, environment, a1(), taken, area)?;
    address_given(code, environment, a2(), to)?;
    code.small(a3(), 0)?;
    code.service(14)
}

/// Where the name in the words behind the temporaries in use stands.
pub fn waiting_place(environment: &Environment, taken: Taken) -> Result<NamePlace, AllocError>
    ensures { IfOk result (λ n. name_of n ≡ FrameName (environment_of environment.now).level (waiting_name (taken_of taken))) }
{
    let place = waiting_name(taken)?;
    Ok(NamePlace::Frame {
        level: environment.level,
        place,
    })
}

/// OFFSET: that of the name that stands there, in a0.
#[tactic(auto, unfolding(crate::specs::Pieces::name_to_offset))]
pub fn name_to_offset(
    code: &mut Code,
    environment: &Environment,
    taken: Taken,
    name: NamePlace,
    area: Variable,
) -> Result<(), AllocError>
    ensures { OnOk result (code.new ≡ code.old ++ name_to_offset (environment_of environment.now) (taken_of taken) (name_of name) (variable_of area)) }
{
    name_offset(code, environment, a0(), name)?;
    area_name(code, environment, a1(), taken, area)?;
    code.small(a3(), 1)?;
    code.tested_service(14)
}
