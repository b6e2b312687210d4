// The address of an element behind its locator and its subscripts.

ghost use Rattle.std.specs.Prelude.{◌≡◌, ℕ, suc, pos, [], ◌++◌, OnOk, IfOk};
ghost use Rattle.pli_typing.specs.Signatures as sizes;
ghost use Rattle.pli_typing.specs.TypedView.{leaf_of, leaf_type_of, numbers_of, part_of, variable_of};
ghost use Rattle.pli_meaning.specs.DeclaredShapes as shapes;
ghost use Rattle.pli_coding.specs.Environments.{declaration_of};
ghost use Rattle.pli_coding.specs.Locating as form;
ghost use Rattle.pli_frames.specs.TakenView.{taken_of};
ghost use Rattle.rv_address.specs.Around.{environment_of};
ghost use Rattle.rv_address.specs.Pieces.{found_added, direct_start, static_base};
ghost use Rattle.rv_address.specs.Places.{address_of, located_of, name_of};

use crate::direct::{direct_base, direct_place, direct_register};
use crate::environment::Environment;
use crate::extent::{is_constant, needs_buffer};
use crate::leaf::{is_direct, leaf_found};
use crate::located::{class_found, located, located_at};
use crate::names::{Located, NamePlace};
use crate::number::signed;
use crate::referred::is_referred;
use crate::size::element_bytes;
use crate::subscript::subscripts_counted;
use crate::transfer::Address;
use pli_frames::fixed::buffer_size;
use pli_frames::taken::Taken;
use pli_typing::typed::{Leaf, LeafType, Numbers, Part, Variable};
use rv_assembly::code::Code;
use rv_assembly::item::Item;
use rv_assembly::registers;
use rv_meaning::instr::{ImmediateOp, Register, RegisterOp, ShiftOp};
use std::alloc::AllocError;

/// The place in u1 times a constant, in u4.
fn times_constant(code: &mut Code, number: u32) -> Result<(), AllocError>
    ensures { OnOk result (code.new ≡ code.old ++ form.times_constant number) }
{
    let (distance, place, stride) = (registers::u4(), registers::u1(), registers::u2());
    if number == 4 {
        return Ok(code.shift(ShiftOp::Left, distance, place, 2)?);
    }
    code.number(stride, number)?;
    code.registers(RegisterOp::Multiply, distance, place, stride)
}

/// Times a size from the buffer, with so many bytes more, rounded up to 4.
fn times_size(code: &mut Code, more: u8) -> Result<(), AllocError>
    ensures { OnOk result (code.new ≡ code.old ++ form.times_size more) }
{
    let (distance, place, size) = (registers::u4(), registers::u1(), registers::u2());
    code.load_word(size, registers::frame(), buffer_size())?;
    code.immediate(ImmediateOp::Add, size, size, i32::from(more) + 3)?;
    code.immediate(ImmediateOp::And, size, size, -4)?;
    code.registers(RegisterOp::Multiply, distance, place, size)
}

fn times_element(code: &mut Code, kind: LeafType) -> Result<(), AllocError>
    ensures { OnOk result (code.new ≡ code.old ++ form.times_constant (sizes.rounded_up 4 (sizes.leaf_bytes (shapes.kind_of [] (leaf_type_of kind))))) }
{
    let bytes = element_bytes(kind)?;
    times_constant(code, bytes)
}

/// The distance of an element from the first one.
fn times_stride(code: &mut Code, kind: LeafType) -> Result<(), AllocError>
    ensures { OnOk result (code.new ≡ code.old ++ form.times_stride (leaf_type_of kind)) }
{
    match kind {
        LeafType::Character(size) => if is_constant(size) {
            times_element(code, kind)
        } else {
            times_size(code, 0)
        },
        LeafType::Varying(size) => if is_constant(size) {
            times_element(code, kind)
        } else {
            times_size(code, 2)
        },
        _ => times_element(code, kind),
    }
}

/// u3, or what stands in a register, and the element's distance.
#[tactic(auto, using(crate::proofs::Trees::numbers))]
fn element_added(
    code: &mut Code,
    register: Register,
    kind: LeafType,
    subscripts: &Numbers,
) -> Result<(), AllocError>
    ensures { OnOk result (code.new ≡ code.old ++ form.element_added register (leaf_type_of kind) (numbers_of subscripts.now)) }
{
    match subscripts {
        Numbers::End => Ok(()),
        Numbers::More { .. } => {
            times_stride(code, kind)?;
            code.add(registers::u3(), register, registers::u4())
        }
    }
}

/// Where the code of a reference leaves an element.
pub fn address_of(
    environment: &Environment,
    variable: Variable,
    part: Part,
    given: usize,
) -> Result<Address, AllocError>
    ensures { IfOk result (λ a. address_of a ≡ form.address_of (environment_of environment.now) (variable_of variable) (part_of part) given) }
{
    if !is_direct(environment, variable)? {
        return Ok(Address {
            register: registers::u3(),
            displacement: 0,
        });
    }
    let displacement = signed(direct_place(environment, variable, part.first)?)?;
    let register = if given == 0 {
        direct_register(environment, registers::u3(), variable)
    } else {
        registers::u3()
    };
    Ok(Address {
        register,
        displacement,
    })
}

fn direct_reached(
    code: &mut Code,
    environment: &Environment,
    taken: Taken,
    variable: Variable,
    leaf: &Leaf,
    subscripts: &Numbers,
) -> Result<(), AllocError>
    ensures { OnOk result (code.new ≡ code.old ++ form.direct_reached (environment_of environment.now) (taken_of taken) (variable_of variable) (leaf_of leaf.now) (numbers_of subscripts.now)) }
{
    let base = registers::u3();
    subscripts_counted(code, environment, taken, 0, subscripts, &leaf.bounds)?;
    direct_base(code, environment, base, variable)?;
    let register = direct_register(environment, base, variable);
    element_added(code, register, leaf.kind, subscripts)
}

fn found_added(
    code: &mut Code,
    environment: &Environment,
    taken: Taken,
    leaf: &Leaf,
    subscripts: &Numbers,
) -> Result<(), AllocError>
    ensures { OnOk result (code.new ≡ code.old ++ found_added (environment_of environment.now) (taken_of taken) (leaf_of leaf.now) (numbers_of subscripts.now)) }
{
    subscripts_counted(code, environment, taken, 0, subscripts, &leaf.bounds)?;
    code.push(Item::BaseIn(registers::u0()))?;
    code.add(registers::u3(), registers::u3(), registers::u0())?;
    element_added(code, registers::u3(), leaf.kind, subscripts)
}

/// An element of a generation whose name stands somewhere.
fn leaf_reached(
    code: &mut Code,
    environment: &Environment,
    place: Located,
    taken: Taken,
    variable: Variable,
    part: Part,
    leaf: &Leaf,
    subscripts: &Numbers,
) -> Result<(), AllocError>
    ensures { OnOk result (code.new ≡ code.old ++ form.leaf_reached (environment_of environment.now) (located_of place) (taken_of taken) (variable_of variable) (part_of part) (leaf_of leaf.now) (numbers_of subscripts.now)) }
{
    let may_refer = is_referred(environment, variable, part)?;
    leaf_found(
        code,
        environment,
        place,
        part.first,
        needs_buffer(leaf),
        may_refer,
    )?;
    found_added(code, environment, taken, leaf, subscripts)
}

fn found_reached(
    code: &mut Code,
    environment: &Environment,
    found: Taken,
    taken: Taken,
    variable: Variable,
    part: Part,
    leaf: &Leaf,
    subscripts: &Numbers,
) -> Result<(), AllocError>
    ensures { OnOk result (code.new ≡ code.old ++ form.found_reached (environment_of environment.now) (taken_of found) (taken_of taken) (variable_of variable) (part_of part) (leaf_of leaf.now) (numbers_of subscripts.now)) }
{
    class_found(code, environment, found, variable)?;
    let place = located(environment, found, variable)?;
    leaf_reached(
        code,
        environment,
        place,
        taken,
        variable,
        part,
        leaf,
        subscripts,
    )
}

/// An element of a BASED variable whose name stands there.
pub fn based_reached(
    code: &mut Code,
    environment: &Environment,
    name: NamePlace,
    taken: Taken,
    variable: Variable,
    part: Part,
    subscripts: &Numbers,
) -> Result<(), AllocError>
    ensures { OnOk result (code.new ≡ code.old ++ form.based_reached (environment_of environment.now) (name_of name) (taken_of taken) (variable_of variable) (part_of part) (numbers_of subscripts.now)) }
{
    let leaf = environment.leaf(variable, part.first)?;
    let place = located_at(environment, variable, name)?;
    leaf_reached(
        code,
        environment,
        place,
        taken,
        variable,
        part,
        leaf,
        subscripts,
    )
}

/// An element's address, behind a locator, which waits at `found`, and subscripts, which wait at `taken` unless they are simple.
pub fn reached(
    code: &mut Code,
    environment: &Environment,
    found: Taken,
    taken: Taken,
    variable: Variable,
    part: Part,
    subscripts: &Numbers,
) -> Result<(), AllocError>
    ensures { OnOk result (code.new ≡ code.old ++ form.reached (environment_of environment.now) (taken_of found) (taken_of taken) (variable_of variable) (part_of part) (numbers_of subscripts.now)) }
{
    let leaf = environment.leaf(variable, part.first)?;
    if is_direct(environment, variable)? {
        direct_reached(code, environment, taken, variable, leaf, subscripts)
    } else {
        found_reached(
            code,
            environment,
            found,
            taken,
            variable,
            part,
            leaf,
            subscripts,
        )
    }
}
