// The place of an element among those of its leaf, from subscripts that wait or are simple.

ghost use Rattle.std.specs.Prelude.{◌≡◌, ◌&&◌, map, drop, ◌++◌, OnOk, IfOk};
ghost use Rattle.pli_typing.specs.TypedView.{bounds_of, extent_of, number_of, numbers_of};
ghost use Rattle.pli_coding.specs.Locating as form;
ghost use Rattle.pli_typing.specs.TypedTree.{StarExtent};
ghost use Rattle.pli_frames.specs.TakenView.{taken_of};
ghost use Rattle.rv_address.specs.Around.{environment_of};
ghost use Rattle.rv_address.specs.Pieces.{dimension_counted, range_held, some_counted, subscript_tested};

use crate::environment::Environment;
use crate::number::{constant, plus};
use crate::simple::{are_simple, is_simple, simple_loaded};
use crate::taken::fetch;
use pli_frames::fixed::{buffer_lower, buffer_upper};
use pli_frames::taken::Taken;
use pli_typing::typed::{Bounds, Extent, Number, Numbers};
use rv_assembly::code::Code;
use rv_assembly::registers;
use rv_meaning::instr::{BranchTest, ImmediateOp, Register, RegisterOp};
use std::alloc::AllocError;

/// A bound, constant or from a place of the buffer.
pub fn bound_loaded(
    code: &mut Code,
    register: Register,
    bound: Extent,
    place: i32,
) -> Result<(), AllocError>
    ensures { OnOk result (code.new ≡ code.old ++ form.bound_loaded register (extent_of bound) place) }
{
    match bound {
        Extent::Constant(number) => constant(code, register, number),
        Extent::Star => code.load_word(register, registers::frame(), place),
        Extent::Refer => code.load_word(register, registers::frame(), place),
        Extent::Evaluated(_) => code.load_word(register, registers::frame(), place),
    }
}

fn less_held(code: &mut Code, place: i32) -> Result<(), AllocError>
    ensures { OnOk result (code.new ≡ code.old ++ form.less_lower StarExtent place) }
{
    code.load_word(registers::u2(), registers::frame(), place)?;
    code.subtract(registers::u1(), registers::u1(), registers::u2())
}

/// A subscript less the lower bound.
fn less_lower(code: &mut Code, lower: Extent, place: i32) -> Result<(), AllocError>
    ensures { OnOk result (code.new ≡ code.old ++ form.less_lower (extent_of lower) place) }
{
    match lower {
        Extent::Constant(number) => {
            if number == 0 {
                return Ok(());
            }
            let less = number.checked_neg().ok_or(AllocError)?;
            plus(code, registers::u1(), registers::u1(), less)
        }
        Extent::Star => less_held(code, place),
        Extent::Refer => less_held(code, place),
        Extent::Evaluated(_) => less_held(code, place),
    }
}

fn range_held(code: &mut Code, bounds: Bounds, dimension: u8) -> Result<(), AllocError>
    ensures { OnOk result (code.new ≡ code.old ++ range_held (bounds_of bounds) dimension) }
{
    bound_loaded(code, registers::u2(), bounds.upper, buffer_upper(dimension))?;
    bound_loaded(code, registers::u0(), bounds.lower, buffer_lower(dimension))?;
    code.subtract(registers::u2(), registers::u2(), registers::u0())
}

/// The distance of the bounds.
fn range_loaded(code: &mut Code, bounds: Bounds, dimension: u8) -> Result<(), AllocError>
    ensures { OnOk result (code.new ≡ code.old ++ form.range_loaded (bounds_of bounds) dimension) }
{
    match (bounds.lower, bounds.upper) {
        (Extent::Constant(lower), Extent::Constant(upper)) => {
            let distance = upper.checked_sub(lower).ok_or(AllocError)?;
            constant(code, registers::u2(), distance)
        }
        _ => range_held(code, bounds, dimension),
    }
}

/// The place among the elements of the dimensions so far makes room in u1 for the next subscript.
fn place_kept(code: &mut Code, dimension: u8) -> Result<(), AllocError>
    ensures { OnOk result (code.new ≡ code.old ++ form.place_kept dimension) }
{
    if dimension == 0 {
        return Ok(());
    }
    code.copy(registers::u4(), registers::u1())
}

/// The distance in u1 becomes the place among the elements of one more dimension.
fn counted_in(code: &mut Code, dimension: u8) -> Result<(), AllocError>
    ensures { OnOk result (code.new ≡ code.old ++ form.counted_in dimension) }
{
    if dimension == 0 {
        return Ok(());
    }
    let (place, range) = (registers::u4(), registers::u2());
    code.immediate(ImmediateOp::Add, range, range, 1)?;
    code.registers(RegisterOp::Multiply, place, place, range)?;
    code.add(registers::u1(), place, registers::u1())
}

/// A subscript outside its bounds is an error.
#[tactic(auto, using(rv_assembly::proofs::Patching::patching))]
fn subscript_tested(code: &mut Code) -> Result<(), AllocError>
    ensures { OnOk result (code.new ≡ code.old ++ subscript_tested) }
{
    let place = code.keep_branch()?;
    code.error_raised(102)?;
    code.skip_where(
        place,
        BranchTest::GreaterOrEqualUnsigned,
        registers::u2(),
        registers::u1(),
    );
    Ok(())
}

/// A subscript within its bounds.
fn subscript_counted(code: &mut Code, dimension: u8, bounds: Bounds) -> Result<(), AllocError>
    ensures { OnOk result (code.new ≡ code.old ++ form.subscript_counted dimension (bounds_of bounds)) }
{
    less_lower(code, bounds.lower, buffer_lower(dimension))?;
    range_loaded(code, bounds, dimension)?;
    subscript_tested(code)?;
    counted_in(code, dimension)
}

/// Whether a subscript doesn't wait: it and all behind it are simple.
pub fn is_given(
    environment: &Environment,
    subscript: &Number,
    behind: &Numbers,
) -> Result<bool, AllocError>
    ensures { IfOk result (λ b. b ≡ (form.is_simple (environment_of environment.now) (number_of subscript.now) && form.are_simple (environment_of environment.now) (numbers_of behind.now))) }
{
    if !is_simple(environment, subscript)? {
        return Ok(false);
    }
    are_simple(environment, behind)
}

/// A subscript, in u1.
fn subscript_given(
    code: &mut Code,
    environment: &Environment,
    taken: Taken,
    subscript: &Number,
    behind: &Numbers,
) -> Result<(), AllocError>
    ensures { OnOk result (code.new ≡ code.old ++ form.subscript_given (environment_of environment.now) (taken_of taken) (number_of subscript.now) (numbers_of behind.now)) }
{
    if is_given(environment, subscript, behind)? {
        simple_loaded(code, environment, registers::u1(), subscript)
    } else {
        fetch(code, registers::u1(), taken)
    }
}

/// A subscript of one dimension, within its bounds.
#[tactic(auto, unfolding(crate::specs::Pieces::dimension_counted))]
fn dimension_counted(
    code: &mut Code,
    environment: &Environment,
    taken: Taken,
    dimension: u8,
    subscript: &Number,
    behind: &Numbers,
    bounds: &Bounds,
) -> Result<(), AllocError>
    ensures { OnOk result (code.new ≡ code.old ++ dimension_counted (environment_of environment.now) (taken_of taken) dimension (number_of subscript.now) (numbers_of behind.now) (bounds_of bounds.now)) }
{
    place_kept(code, dimension)?;
    subscript_given(code, environment, taken, subscript, behind)?;
    subscript_counted(code, dimension, *bounds)
}

/// The place of an element among those of its leaf, row by row, from a dimension on.
#[cycle(counting)]
#[tactic(auto, using(crate::proofs::Counting::lists))]
pub fn subscripts_counted(
    code: &mut Code,
    environment: &Environment,
    taken: Taken,
    dimension: u8,
    subscripts: &Numbers,
    bounds: &[Bounds],
) -> Result<(), AllocError>
    ensures { OnOk result (code.new ≡ code.old ++ form.subscripts_counted (environment_of environment.now) (taken_of taken) dimension (numbers_of subscripts.now) (map bounds_of bounds.now)) }
{
    match subscripts {
        Numbers::End => Ok(()),
        Numbers::More { first, rest } => {
            some_counted(code, environment, taken, dimension, first, rest, bounds)
        }
    }
}

/// The bounds behind the first.
#[tactic(auto, using(crate::proofs::Counting::none_behind))]
fn behind_first<'a>(bounds: &'a [Bounds]) -> &'a [Bounds]
    ensures { result.now ≡ drop 1 bounds.now }
{
    if bounds.len() == 0 {
        return &[];
    }
    &bounds[1..]
}

/// From a subscript on, where bounds are left.
#[cycle(counting)]
#[tactic(auto, using(crate::proofs::Counting::next_subscript, crate::proofs::Counting::no_bounds))]
fn some_counted(
    code: &mut Code,
    environment: &Environment,
    taken: Taken,
    dimension: u8,
    subscript: &Number,
    behind: &Numbers,
    bounds: &[Bounds],
) -> Result<(), AllocError>
    ensures { OnOk result (code.new ≡ code.old ++ some_counted (environment_of environment.now) (taken_of taken) dimension (number_of subscript.now) (numbers_of behind.now) (map bounds_of bounds.now)) }
{
    if bounds.len() == 0 {
        return Ok(());
    }
    let one = &bounds[0];
    dimension_counted(code, environment, taken, dimension, subscript, behind, one)?;
    let waiting = taken.with_number()?;
    if dimension == 255 {
        return Err(AllocError);
    }
    let others = behind_first(bounds);
    Ok(subscripts_counted(code, environment, waiting, dimension + 1, behind, others)?)
}
