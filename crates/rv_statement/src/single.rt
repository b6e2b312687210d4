// Statements that hold no others.

ghost use Rattle.std.specs.Prelude.{◌≡◌, map, ◌++◌, OnOk};
ghost use Rattle.pli_typing.specs.TypedView.{call_of, leaf_type_of, reference_of, stored_of, variable_of};
ghost use Rattle.pli_typing.specs.TypedStatementView.{allocation_of, freeing_of, get_pair_of, put_pair_of};
ghost use Rattle.pli_frames.specs.TakenView.{taken_of};
ghost use Rattle.rv_address.specs.Around.{environment_of};
ghost use Rattle.rv_statement.specs.Pieces.{acted, aggregate_statement, allocate_statement, area_statement, assign_statement, call_statement, elements_statement, emptied_statement, free_statement, get_statement, goto_statement, put_statement, return_statement, revert_statement, signal_statement, stop_statement, system_statement, value_statement};

use crate::condition::{condition_given, signal_code};
use crate::goto::goto_code;
use crate::returning::{returned_by, value_returned};
use pli_frames::taken::Taken;
use pli_language::condition::Condition;
use pli_typing::typed::{
    Allocation, Call, Freeing, GetPair, LeafType, PutPair, Reference, Stored, Variable,
};
use rv_address::environment::Environment;
use rv_allocation::allocation::{act_code, allocations_code};
use rv_allocation::freeing::freeings_code;
use rv_assembly::code::Code;
use rv_assembly::registers::{a0, a1};
use rv_assignment::aggregate::{aggregate_code, elements_code};
use rv_assignment::area::{area_code, emptied_code};
use rv_assignment::scalar::assignment_code;
use rv_expr::expression::{call_code, stored_code};
use rv_stream::get::get_code;
use rv_stream::put::put_code;
use std::alloc::{AllocError, Global};

/// An act.
#[tactic(auto, unfolding(crate::specs::Pieces::acted))]
pub(crate) fn acted(code: &mut Code, line: u32) -> Result<(), AllocError>
    ensures { OnOk result (code.new ≡ code.old ++ acted line) }
{
    act_code(code, line)
}

/// A value to an element.
#[tactic(auto, unfolding(crate::specs::Pieces::assign_statement))]
pub(crate) fn assign_statement(
    alloc: Global,
    code: &mut Code,
    environment: &Environment,
    taken: Taken,
    target: &Reference,
    source: &Stored,
    line: u32,
) -> Result<(), AllocError>
    ensures { OnOk result (code.new ≡ code.old ++ assign_statement (environment_of environment.now) (taken_of taken) (reference_of target.now) (stored_of source.now) line) }
{
    acted(code, line)?;
    assignment_code(alloc, code, environment, taken, target, source)
}

/// A value to all elements of an array.
#[tactic(auto, unfolding(crate::specs::Pieces::elements_statement))]
pub(crate) fn elements_statement(
    alloc: Global,
    code: &mut Code,
    environment: &Environment,
    taken: Taken,
    target: &Reference,
    source: &Stored,
    line: u32,
) -> Result<(), AllocError>
    ensures { OnOk result (code.new ≡ code.old ++ elements_statement (environment_of environment.now) (taken_of taken) (reference_of target.now) (stored_of source.now) line) }
{
    acted(code, line)?;
    elements_code(alloc, code, environment, taken, target, source)
}

/// An aggregate to another one.
#[tactic(auto, unfolding(crate::specs::Pieces::aggregate_statement))]
pub(crate) fn aggregate_statement(
    alloc: Global,
    code: &mut Code,
    environment: &Environment,
    taken: Taken,
    target: &Reference,
    source: &Reference,
    line: u32,
) -> Result<(), AllocError>
    ensures { OnOk result (code.new ≡ code.old ++ aggregate_statement (environment_of environment.now) (taken_of taken) (reference_of target.now) (reference_of source.now) line) }
{
    acted(code, line)?;
    aggregate_code(alloc, code, environment, taken, target, source)
}

/// An area to another one.
#[tactic(auto, unfolding(crate::specs::Pieces::area_statement))]
pub(crate) fn area_statement(
    code: &mut Code,
    environment: &Environment,
    taken: Taken,
    target: Variable,
    source: Variable,
    line: u32,
) -> Result<(), AllocError>
    ensures { OnOk result (code.new ≡ code.old ++ area_statement (environment_of environment.now) (taken_of taken) (variable_of target) (variable_of source) line) }
{
    acted(code, line)?;
    area_code(code, environment, taken, target, source)
}

/// EMPTY to an area.
#[tactic(auto, unfolding(crate::specs::Pieces::emptied_statement))]
pub(crate) fn emptied_statement(
    code: &mut Code,
    environment: &Environment,
    taken: Taken,
    target: Variable,
    line: u32,
) -> Result<(), AllocError>
    ensures { OnOk result (code.new ≡ code.old ++ emptied_statement (environment_of environment.now) (taken_of taken) (variable_of target) line) }
{
    acted(code, line)?;
    emptied_code(code, environment, taken, target)
}

/// ON with SYSTEM.
#[tactic(auto, unfolding(crate::specs::Pieces::system_statement))]
pub(crate) fn system_statement(
    code: &mut Code,
    condition: Condition,
    line: u32,
) -> Result<(), AllocError>
    ensures { OnOk result (code.new ≡ code.old ++ system_statement condition line) }
{
    acted(code, line)?;
    condition_given(code, condition)?;
    code.small(a1(), 0)?;
    code.service(28)
}

/// CALL.
#[tactic(auto, unfolding(crate::specs::Pieces::call_statement))]
pub(crate) fn call_statement(
    alloc: Global,
    code: &mut Code,
    environment: &Environment,
    taken: Taken,
    call: &Call,
    line: u32,
) -> Result<(), AllocError>
    ensures { OnOk result (code.new ≡ code.old ++ call_statement (environment_of environment.now) (taken_of taken) (call_of call.now) line) }
{
    acted(code, line)?;
    call_code(
        alloc,
        code,
        environment,
        taken,
        call.callee,
        &call.arguments,
    )
}

/// RETURN.
#[tactic(auto, unfolding(crate::specs::Pieces::return_statement))]
pub(crate) fn return_statement(
    code: &mut Code,
    environment: &Environment,
    line: u32,
) -> Result<(), AllocError>
    ensures { OnOk result (code.new ≡ code.old ++ return_statement (environment_of environment.now) line) }
{
    acted(code, line)?;
    returned_by(code, environment, 0)
}

/// RETURN with a value.
#[tactic(auto, unfolding(crate::specs::Pieces::value_statement))]
pub(crate) fn value_statement(
    alloc: Global,
    code: &mut Code,
    environment: &Environment,
    taken: Taken,
    kind: LeafType,
    value: &Stored,
    line: u32,
) -> Result<(), AllocError>
    ensures { OnOk result (code.new ≡ code.old ++ value_statement (environment_of environment.now) (taken_of taken) (leaf_type_of kind) (stored_of value.now) line) }
{
    acted(code, line)?;
    stored_code(alloc, code, environment, taken, value)?;
    value_returned(code, environment, taken, kind)
}

/// GOTO.
#[tactic(auto, unfolding(crate::specs::Pieces::goto_statement))]
pub(crate) fn goto_statement(
    alloc: Global,
    code: &mut Code,
    environment: &Environment,
    level: usize,
    label: &[u8],
    line: u32,
) -> Result<(), AllocError>
    ensures { OnOk result (code.new ≡ code.old ++ goto_statement (environment_of environment.now) level label.now line) }
{
    acted(code, line)?;
    goto_code(alloc, code, environment, level, label)
}

/// STOP.
#[tactic(auto, unfolding(crate::specs::Pieces::stop_statement))]
pub(crate) fn stop_statement(code: &mut Code, line: u32) -> Result<(), AllocError>
    ensures { OnOk result (code.new ≡ code.old ++ stop_statement line) }
{
    acted(code, line)?;
    code.small(a0(), 1)?;
    code.small(a1(), 0)?;
    code.service(2)
}

/// SIGNAL.
#[tactic(auto, unfolding(crate::specs::Pieces::signal_statement))]
pub(crate) fn signal_statement(
    code: &mut Code,
    condition: Condition,
    line: u32,
) -> Result<(), AllocError>
    ensures { OnOk result (code.new ≡ code.old ++ signal_statement condition line) }
{
    acted(code, line)?;
    signal_code(code, condition)
}

/// REVERT.
#[tactic(auto, unfolding(crate::specs::Pieces::revert_statement))]
pub(crate) fn revert_statement(
    code: &mut Code,
    condition: Condition,
    line: u32,
) -> Result<(), AllocError>
    ensures { OnOk result (code.new ≡ code.old ++ revert_statement condition line) }
{
    acted(code, line)?;
    condition_given(code, condition)?;
    code.service(29)
}

/// ALLOCATE.
#[tactic(auto, unfolding(crate::specs::Pieces::allocate_statement))]
pub(crate) fn allocate_statement(
    alloc: Global,
    code: &mut Code,
    environment: &Environment,
    taken: Taken,
    all: &[Allocation],
    line: u32,
) -> Result<(), AllocError>
    ensures { OnOk result (code.new ≡ code.old ++ allocate_statement (environment_of environment.now) (taken_of taken) (map allocation_of all.now) line) }
{
    acted(code, line)?;
    allocations_code(alloc, code, environment, taken, line, all)
}

/// FREE.
#[tactic(auto, unfolding(crate::specs::Pieces::free_statement))]
pub(crate) fn free_statement(
    alloc: Global,
    code: &mut Code,
    environment: &Environment,
    taken: Taken,
    all: &[Freeing],
    line: u32,
) -> Result<(), AllocError>
    ensures { OnOk result (code.new ≡ code.old ++ free_statement (environment_of environment.now) (taken_of taken) (map freeing_of all.now) line) }
{
    acted(code, line)?;
    freeings_code(alloc, code, environment, taken, all)
}

/// GET.
#[tactic(auto, unfolding(crate::specs::Pieces::get_statement))]
pub(crate) fn get_statement(
    alloc: Global,
    code: &mut Code,
    environment: &Environment,
    taken: Taken,
    skip: Option<u64>,
    pairs: &[GetPair],
    line: u32,
) -> Result<(), AllocError>
    ensures { OnOk result (code.new ≡ code.old ++ get_statement (environment_of environment.now) (taken_of taken) skip (map get_pair_of pairs.now) line) }
{
    acted(code, line)?;
    get_code(alloc, code, environment, taken, skip, pairs)
}

/// PUT.
#[tactic(auto, unfolding(crate::specs::Pieces::put_statement))]
pub(crate) fn put_statement(
    alloc: Global,
    code: &mut Code,
    environment: &Environment,
    taken: Taken,
    skip: Option<u64>,
    pairs: &[PutPair],
    line: u32,
) -> Result<(), AllocError>
    ensures { OnOk result (code.new ≡ code.old ++ put_statement (environment_of environment.now) (taken_of taken) skip (map put_pair_of pairs.now) line) }
{
    acted(code, line)?;
    put_code(alloc, code, environment, taken, skip, pairs)
}
