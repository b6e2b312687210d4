// A value to all elements of an array, and an aggregate to another one.

ghost use Rattle.std.specs.Prelude.{◌≡◌, ◌++◌, OnOk, IfOk};
ghost use Rattle.pli_typing.specs.TypedView.{reference_of, stored_of};
ghost use Rattle.pli_coding.specs.Storing as form;
ghost use Rattle.pli_frames.specs.TakenView.{taken_of};
ghost use Rattle.rv_address.specs.Around.{environment_of};
ghost use Rattle.rv_assignment.specs.Pieces.{aggregate_put, elements_put, elements_stored, part_put, part_taken};

use crate::record::{record_code, record_given};
use pli_frames::forms::behind_value;
use pli_frames::taken::Taken;
use pli_typing::typed::{Reference, Stored};
use rv_address::environment::Environment;
use rv_address::located::waiting_name;
use rv_address::names::own_place;
use rv_address::number::count;
use rv_address::taken::{fetch, save};
use rv_assembly::code::Code;
use rv_assembly::registers::{a0, a1, a2, a3, a4};
use rv_expr::expression::stored_code;
use rv_operation::reference::given_in;
use std::alloc::{AllocError, Global};

// ---- parts

#[tactic(auto, using(crate::proofs::Walks::parts))]
fn first_leaf(reference: &Reference) -> usize
    ensures { result ≡ form.first_leaf (reference_of reference.now) }
{
    match reference {
        Reference::Plain { part, .. } => part.first,
        Reference::Located { part, .. } => part.first,
    }
}

#[tactic(auto, using(crate::proofs::Walks::parts))]
fn leaf_count(reference: &Reference) -> usize
    ensures { result ≡ form.leaf_count (reference_of reference.now) }
{
    match reference {
        Reference::Plain { part, .. } => part.count,
        Reference::Located { part, .. } => part.count,
    }
}

#[tactic(auto, using(crate::proofs::Walks::parts))]
fn subscript_count(reference: &Reference) -> Result<usize, AllocError>
    ensures { IfOk result (λ n. n ≡ form.subscript_count (reference_of reference.now)) }
{
    match reference {
        Reference::Plain { subscripts, .. } => given_in(subscripts),
        Reference::Located { subscripts, .. } => given_in(subscripts),
    }
}

// ---- a value to all elements

/// A value that was evaluated begins to wait.
#[tactic(auto, unfolding(pli_typing::specs::TypedView::stored_of))]
fn value_saved(code: &mut Code, taken: Taken, source: &Stored) -> Result<(), AllocError>
    ensures { OnOk result (code.new ≡ code.old ++ form.value_saved (taken_of taken) (stored_of source.now)) }
{
    match source {
        Stored::Number { .. } => save(code, a0(), taken),
        Stored::Text(_) => Ok(()),
        Stored::Bit(_) => save(code, a0(), taken),
        Stored::Pointer(_) => Ok(()),
        Stored::Offset(_) => save(code, a0(), taken),
    }
}

/// The value that waits, or where a name does.
#[tactic(auto, unfolding(pli_typing::specs::TypedView::stored_of))]
fn value_given(
    code: &mut Code,
    environment: &Environment,
    taken: Taken,
    source: &Stored,
) -> Result<(), AllocError>
    ensures { OnOk result (code.new ≡ code.old ++ form.value_given (environment_of environment.now) (taken_of taken) (stored_of source.now)) }
{
    match source {
        Stored::Number { .. } => fetch(code, a2(), taken),
        Stored::Text(_) => Ok(()),
        Stored::Bit(_) => fetch(code, a2(), taken),
        Stored::Pointer(_) => {
            let place = waiting_name(taken)?;
            own_place(code, environment, a2(), place)
        }
        Stored::Offset(_) => fetch(code, a2(), taken),
    }
}

/// The value that waits at `taken`, to the elements whose record stands at `behind`.
#[tactic(auto, unfolding(crate::specs::Pieces::elements_stored))]
fn elements_stored(
    code: &mut Code,
    environment: &Environment,
    taken: Taken,
    behind: Taken,
    target: &Reference,
    source: &Stored,
) -> Result<(), AllocError>
    ensures { OnOk result (code.new ≡ code.old ++ elements_stored (environment_of environment.now) (taken_of taken) (taken_of behind) (reference_of target.now) (stored_of source.now)) }
{
    record_given(code, environment, behind)?;
    count(code, a1(), first_leaf(target))?;
    value_given(code, environment, taken, source)?;
    code.service(41)
}

/// A value to all elements of an array.
#[tactic(auto, using(crate::proofs::Walks::aggregates))]
pub fn elements_code(
    alloc: Global,
    code: &mut Code,
    environment: &Environment,
    taken: Taken,
    target: &Reference,
    source: &Stored,
) -> Result<(), AllocError>
    ensures { OnOk result (code.new ≡ code.old ++ elements_put (environment_of environment.now) (taken_of taken) (reference_of target.now) (stored_of source.now)) }
{
    stored_code(alloc, code, environment, taken, source)?;
    value_saved(code, taken, source)?;
    let behind = behind_value(source, taken)?;
    record_code(alloc, code, environment, behind, target)?;
    elements_stored(code, environment, taken, behind, target, source)
}

// ---- an aggregate to another one

fn aggregate_given(
    code: &mut Code,
    environment: &Environment,
    taken: Taken,
    reference: &Reference,
    mode: u8,
) -> Result<(), AllocError>
    ensures { OnOk result (code.new ≡ code.old ++ form.aggregate_given (environment_of environment.now) (taken_of taken) (reference_of reference.now) mode) }
{
    record_given(code, environment, taken)?;
    count(code, a1(), first_leaf(reference))?;
    count(code, a2(), leaf_count(reference))?;
    count(code, a3(), subscript_count(reference)?)?;
    code.small(a4(), u32::from(mode))
}

/// A part whose record stands there, onto the text stack.
#[tactic(auto, unfolding(crate::specs::Pieces::part_taken))]
fn part_taken(
    code: &mut Code,
    environment: &Environment,
    taken: Taken,
    source: &Reference,
) -> Result<(), AllocError>
    ensures { OnOk result (code.new ≡ code.old ++ part_taken (environment_of environment.now) (taken_of taken) (reference_of source.now)) }
{
    aggregate_given(code, environment, taken, source, 0)?;
    code.service(40)
}

/// The part that was taken, to the one whose record stands there.
#[tactic(auto, unfolding(crate::specs::Pieces::part_put))]
fn part_put(
    code: &mut Code,
    environment: &Environment,
    taken: Taken,
    target: &Reference,
) -> Result<(), AllocError>
    ensures { OnOk result (code.new ≡ code.old ++ part_put (environment_of environment.now) (taken_of taken) (reference_of target.now)) }
{
    aggregate_given(code, environment, taken, target, 1)?;
    code.tested_service(40)
}

/// An aggregate to another one.
#[tactic(auto, using(crate::proofs::Walks::aggregates))]
pub fn aggregate_code(
    alloc: Global,
    code: &mut Code,
    environment: &Environment,
    taken: Taken,
    target: &Reference,
    source: &Reference,
) -> Result<(), AllocError>
    ensures { OnOk result (code.new ≡ code.old ++ aggregate_put (environment_of environment.now) (taken_of taken) (reference_of target.now) (reference_of source.now)) }
{
    record_code(alloc, code, environment, taken, source)?;
    part_taken(code, environment, taken, source)?;
    record_code(alloc, code, environment, taken, target)?;
    part_put(code, environment, taken, target)
}
