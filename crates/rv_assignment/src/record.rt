// Records of aggregates, in four words behind the temporaries in use: where a name stands, its signature's number, the place of
// the subscripts given, and the extent that REFER tells.

ghost use Rattle.std.specs.Prelude.{◌≡◌, ◌++◌, OnOk, IfOk};
ghost use Rattle.pli_typing.specs.TypedView.{leaf_of, numbers_of, part_of, reference_of, variable_of};
ghost use Rattle.pli_coding.specs.Storing as form;
ghost use Rattle.pli_frames.specs.TakenView.{taken_of};
ghost use Rattle.rv_address.specs.Around.{environment_of};
ghost use Rattle.rv_address.specs.Places.{located_of};
ghost use Rattle.rv_assignment.specs.Pieces.{counted_recorded, found_recorded, part_recorded, record_made, subscripts_made};

use pli_frames::fixed::word_in;
use pli_frames::taken::Taken;
use pli_frames::temporaries::behind_locator;
use pli_typing::typed::{Leaf, Numbers, Part, Reference, Variable};
use rv_address::environment::Environment;
use rv_address::extent::needs_buffer;
use rv_address::leaf::{is_direct, leaf_found};
use rv_address::located::{class_found, located};
use rv_address::names::{Located, name_offset, number_loaded, own_place};
use rv_address::referred::is_referred;
use rv_address::subscript::subscripts_counted;
use rv_assembly::code::Code;
use rv_assembly::registers::{a0, frame, u1, zero};
use rv_expr::expression::{locator_code, subscripts_code};
use rv_meaning::instr::Register;
use std::alloc::{AllocError, Global};

/// The words of a record.
fn record_words() -> u32
    ensures { result ≡ form.record_words }
{
    4
}

/// A word of the record behind the temporaries in use.
fn record_place(taken: Taken, word: u8) -> Result<i32, AllocError>
    ensures { IfOk result (λ d. d ≡ form.record_place (taken_of taken) word) }
{
    word_in(taken.words, record_words(), u32::from(word))
}

fn record_stored(
    code: &mut Code,
    taken: Taken,
    word: u8,
    register: Register,
) -> Result<(), AllocError>
    ensures { OnOk result (code.new ≡ code.old ++ form.record_stored (taken_of taken) word register) }
{
    let place = record_place(taken, word)?;
    code.store_word(frame(), register, place)
}

/// The offset of a record.
pub fn record_given(
    code: &mut Code,
    environment: &Environment,
    taken: Taken,
) -> Result<(), AllocError>
    ensures { OnOk result (code.new ≡ code.old ++ form.record_given (environment_of environment.now) (taken_of taken)) }
{
    let place = record_place(taken, 0)?;
    own_place(code, environment, a0(), place)
}

// ---- the words of a record

/// The extent that REFER tells, in a0 where it may.
fn extent_recorded(code: &mut Code, taken: Taken, is_referred: bool) -> Result<(), AllocError>
    ensures { OnOk result (code.new ≡ code.old ++ form.extent_recorded (taken_of taken) is_referred) }
{
    if is_referred {
        record_stored(code, taken, 3, a0())
    } else {
        record_stored(code, taken, 3, zero())
    }
}

fn found_recorded(
    code: &mut Code,
    environment: &Environment,
    taken: Taken,
    found: Taken,
    variable: Variable,
    part: Part,
) -> Result<(), AllocError>
    ensures { OnOk result (code.new ≡ code.old ++ found_recorded (environment_of environment.now) (taken_of taken) (taken_of found) (variable_of variable) (part_of part)) }
{
    class_found(code, environment, found, variable)?;
    let place = located(environment, found, variable)?;
    let leaf = environment.leaf(variable, part.first)?;
    let may_refer = is_referred(environment, variable, part)?;
    leaf_found(
        code,
        environment,
        place,
        part.first,
        needs_buffer(leaf),
        may_refer,
    )?;
    extent_recorded(code, taken, may_refer)
}

/// The generation lives, and REFER tells what may be.
fn aggregate_found(
    code: &mut Code,
    environment: &Environment,
    taken: Taken,
    found: Taken,
    variable: Variable,
    part: Part,
) -> Result<(), AllocError>
    ensures { OnOk result (code.new ≡ code.old ++ form.aggregate_found (environment_of environment.now) (taken_of taken) (taken_of found) (variable_of variable) (part_of part)) }
{
    if is_direct(environment, variable)? {
        extent_recorded(code, taken, false)
    } else {
        found_recorded(code, environment, taken, found, variable, part)
    }
}

/// The place among the elements of a leaf that subscripts give, which wait unless they are simple.
fn counted_recorded(
    code: &mut Code,
    environment: &Environment,
    taken: Taken,
    waiting: Taken,
    leaf: &Leaf,
    subscripts: &Numbers,
) -> Result<(), AllocError>
    ensures { OnOk result (code.new ≡ code.old ++ counted_recorded (environment_of environment.now) (taken_of taken) (taken_of waiting) (leaf_of leaf.now) (numbers_of subscripts.now)) }
{
    subscripts_counted(code, environment, waiting, 0, subscripts, &leaf.bounds)?;
    record_stored(code, taken, 2, u1())
}

#[tactic(auto, using(crate::proofs::Walks::given))]
fn subscripts_recorded(
    code: &mut Code,
    environment: &Environment,
    taken: Taken,
    waiting: Taken,
    variable: Variable,
    part: Part,
    subscripts: &Numbers,
) -> Result<(), AllocError>
    ensures { OnOk result (code.new ≡ code.old ++ form.subscripts_recorded (environment_of environment.now) (taken_of taken) (taken_of waiting) (variable_of variable) (part_of part) (numbers_of subscripts.now)) }
{
    match subscripts {
        Numbers::End => record_stored(code, taken, 2, zero()),
        Numbers::More { .. } => {
            let leaf = environment.leaf(variable, part.first)?;
            counted_recorded(code, environment, taken, waiting, leaf, subscripts)
        }
    }
}

fn name_recorded(
    code: &mut Code,
    environment: &Environment,
    taken: Taken,
    place: Located,
) -> Result<(), AllocError>
    ensures { OnOk result (code.new ≡ code.old ++ form.name_recorded (environment_of environment.now) (taken_of taken) (located_of place)) }
{
    name_offset(code, environment, a0(), place.name)?;
    record_stored(code, taken, 0, a0())?;
    number_loaded(code, environment, a0(), place.number)?;
    record_stored(code, taken, 1, a0())
}

/// All words of a record, behind a locator, which waits at `found`, and subscripts, which wait at `waiting` unless they are simple.
fn record_filled(
    code: &mut Code,
    environment: &Environment,
    taken: Taken,
    found: Taken,
    variable: Variable,
    part: Part,
    subscripts: &Numbers,
) -> Result<(), AllocError>
    ensures { OnOk result (code.new ≡ code.old ++ form.record_filled (environment_of environment.now) (taken_of taken) (taken_of found) (variable_of variable) (part_of part) (numbers_of subscripts.now)) }
{
    aggregate_found(code, environment, taken, found, variable, part)?;
    let waiting = behind_locator(variable, found)?;
    subscripts_recorded(
        code,
        environment,
        taken,
        waiting,
        variable,
        part,
        subscripts,
    )?;
    let place = located(environment, found, variable)?;
    name_recorded(code, environment, taken, place)
}

// ---- the whole

#[tactic(auto, unfolding(crate::specs::Pieces::record_made))]
fn record_made(
    code: &mut Code,
    environment: &Environment,
    taken: Taken,
    found: Taken,
    variable: Variable,
    part: Part,
    subscripts: &Numbers,
) -> Result<(), AllocError>
    ensures { OnOk result (code.new ≡ code.old ++ record_made (environment_of environment.now) (taken_of taken) (taken_of found) (variable_of variable) (part_of part) (numbers_of subscripts.now)) }
{
    record_filled(code, environment, taken, found, variable, part, subscripts)
}

#[tactic(auto, using(crate::proofs::Walks::records))]
fn subscripts_made(
    alloc: Global,
    code: &mut Code,
    environment: &Environment,
    taken: Taken,
    found: Taken,
    variable: Variable,
    part: Part,
    subscripts: &Numbers,
) -> Result<(), AllocError>
    ensures { OnOk result (code.new ≡ code.old ++ subscripts_made (environment_of environment.now) (taken_of taken) (taken_of found) (variable_of variable) (part_of part) (numbers_of subscripts.now)) }
{
    let waiting = behind_locator(variable, found)?;
    subscripts_code(alloc, code, environment, waiting, subscripts)?;
    record_made(code, environment, taken, found, variable, part, subscripts)
}

/// The record of a part, behind its locator.
#[tactic(auto, using(crate::proofs::Walks::parts))]
fn part_recorded(
    alloc: Global,
    code: &mut Code,
    environment: &Environment,
    taken: Taken,
    found: Taken,
    reference: &Reference,
) -> Result<(), AllocError>
    ensures { OnOk result (code.new ≡ code.old ++ part_recorded (environment_of environment.now) (taken_of taken) (taken_of found) (reference_of reference.now)) }
{
    match reference {
        Reference::Plain {
            variable,
            part,
            subscripts,
        } => subscripts_made(
            alloc,
            code,
            environment,
            taken,
            found,
            *variable,
            *part,
            subscripts,
        ),
        Reference::Located {
            variable,
            part,
            subscripts,
            ..
        } => subscripts_made(
            alloc,
            code,
            environment,
            taken,
            found,
            *variable,
            *part,
            subscripts,
        ),
    }
}

/// The record of a part, behind the temporaries in use.
#[tactic(auto, using(crate::proofs::Walks::records))]
pub fn record_code(
    alloc: Global,
    code: &mut Code,
    environment: &Environment,
    taken: Taken,
    reference: &Reference,
) -> Result<(), AllocError>
    ensures { OnOk result (code.new ≡ code.old ++ form.record_code (environment_of environment.now) (taken_of taken) (reference_of reference.now)) }
{
    let found = taken.with_words(record_words())?;
    locator_code(alloc, code, environment, found, reference)?;
    part_recorded(alloc, code, environment, taken, found, reference)
}
