// Areas: one to another, and an area that is emptied.

ghost use Rattle.std.specs.Prelude.{◌≡◌, ◌++◌, OnOk};
ghost use Rattle.pli_typing.specs.TypedView.{variable_of};
ghost use Rattle.pli_coding.specs.Storing as form;
ghost use Rattle.pli_frames.specs.TakenView.{taken_of};
ghost use Rattle.rv_address.specs.Around.{environment_of};
ghost use Rattle.rv_assignment.specs.Pieces.{fit_tested};

use pli_frames::taken::Taken;
use pli_language::condition::Condition;
use pli_typing::typed::Variable;
use rv_address::environment::Environment;
use rv_assembly::code::Code;
use rv_assembly::registers::{a0, a1, zero};
use rv_meaning::instr::BranchTest;
use rv_operation::arithmetic::raised;
use rv_operation::pointer::area_name;
use std::alloc::AllocError;

/// AREA where a service's status isn't 0.
#[tactic(auto, using(rv_assembly::proofs::Patching::patching))]
fn fit_tested(code: &mut Code) -> Result<(), AllocError>
    ensures { OnOk result (code.new ≡ code.old ++ fit_tested) }
{
    let place = code.keep_branch()?;
    raised(code, Condition::Area, 10)?;
    code.skip_where(place, BranchTest::Equal, a1(), zero());
    Ok(())
}

/// An area to another one. AREA where the target is too small, which then stays as it was.
pub fn area_code(
    code: &mut Code,
    environment: &Environment,
    taken: Taken,
    target: Variable,
    source: Variable,
) -> Result<(), AllocError>
    ensures { OnOk result (code.new ≡ code.old ++ form.area_code' (environment_of environment.now) (taken_of taken) (variable_of target) (variable_of source)) }
{
    area_name(code, environment, a0(), taken, target)?;
    area_name(code, environment, a1(), taken, source)?;
    code.service(12)?;
    fit_tested(code)
}

/// EMPTY to an area.
pub fn emptied_code(
    code: &mut Code,
    environment: &Environment,
    taken: Taken,
    target: Variable,
) -> Result<(), AllocError>
    ensures { OnOk result (code.new ≡ code.old ++ form.emptied_code (environment_of environment.now) (taken_of taken) (variable_of target)) }
{
    area_name(code, environment, a0(), taken, target)?;
    code.service(13)
}
