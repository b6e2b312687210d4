// Generations of BASED variables placed in an area or in the heap. AREA is raised where the area is full, and behind its unit the
// placing is tried again.

ghost use Rattle.std.specs.Prelude.{◌≡◌, ◌≤◌, ◌-◌, ◌++◌, OnOk, Some, None};
ghost use Rattle.pli_typing.specs.TypedView.{area_of, variable_of};
ghost use Rattle.pli_typing.specs.TypedStatementView.{declared_variable_of};
ghost use Rattle.pli_coding.specs.Assembly.{size_of};
ghost use Rattle.pli_coding.specs.Allocating as form;
ghost use Rattle.pli_frames.specs.TakenView.{taken_of};
ghost use Rattle.rv_address.specs.Around.{environment_of};
ghost use Rattle.rv_address.specs.Places.{name_of};
ghost use Rattle.rv_allocation.specs.Pieces.{area_raised, asked, beginning_asked, placed, tried_again};

use crate::words::{extent_waiting, number_waiting};
use pli_frames::taken::Taken;
use pli_language::condition::Condition;
use pli_typing::typed::{DeclaredVariable, Variable};
use rv_address::environment::Environment;
use rv_address::names::{NamePlace, name_offset};
use rv_assembly::code::Code;
use rv_assembly::item::Item;
use rv_assembly::registers::{a0, a1, a2, a3, a4, zero};
use rv_extent::initial::initial_code;
use rv_meaning::instr::{BranchTest, Register};
use rv_operation::arithmetic::raised;
use rv_operation::pointer::area_name;
use std::alloc::{AllocError, Global};

/// The offset of an area's name, or 0 for the heap.
pub fn area_or_heap(
    code: &mut Code,
    environment: &Environment,
    register: Register,
    taken: Taken,
    area: Option<Variable>,
) -> Result<(), AllocError>
    ensures { OnOk result (code.new ≡ code.old ++ form.area_or_heap (environment_of environment.now) register (taken_of taken) (area_of area)) }
{
    match area {
        Some(area) => area_name(code, environment, register, taken, area),
        None => code.small(register, 0),
    }
}

/// What the generation begins with, and where its name is written: then the service is asked.
#[tactic(auto, unfolding(crate::specs::Pieces::beginning_asked))]
fn beginning_asked(
    alloc: Global,
    code: &mut Code,
    environment: &Environment,
    name: NamePlace,
    declaration: &DeclaredVariable,
) -> Result<(), AllocError>
    ensures { OnOk result (code.new ≡ code.old ++ beginning_asked (environment_of environment.now) (name_of name) (declared_variable_of declaration.now)) }
{
    initial_code(alloc, code, a3(), declaration)?;
    name_offset(code, environment, a4(), name)?;
    code.service(10)
}

#[tactic(auto, unfolding(crate::specs::Pieces::asked, crate::specs::Pieces::beginning_asked))]
fn placing_asked(
    alloc: Global,
    code: &mut Code,
    environment: &Environment,
    taken: Taken,
    variable: Variable,
    area: Option<Variable>,
    name: NamePlace,
) -> Result<(), AllocError>
    ensures { OnOk result (code.new ≡ code.old ++ asked (environment_of environment.now) (taken_of taken) (variable_of variable) (area_of area) (name_of name)) }
{
    let declaration = environment.declaration(variable)?;
    area_or_heap(code, environment, a0(), taken, area)?;
    number_waiting(code, a1(), taken)?;
    extent_waiting(code, a2(), taken)?;
    beginning_asked(alloc, code, environment, name, declaration)
}

/// AREA, and what is current again behind its unit.
#[tactic(auto, unfolding(crate::specs::Pieces::area_raised))]
fn area_raised(code: &mut Code) -> Result<(), AllocError>
    ensures { OnOk result (code.new ≡ code.old ++ area_raised) }
{
    raised(code, Condition::Area, 10)?;
    code.service(32)
}

/// AREA where the area is full, and the code since there were so many words again.
#[tactic(auto, using(rv_assembly::proofs::Patching::patching, crate::proofs::Placings::again))]
fn tried_again(code: &mut Code, start: usize) -> Result<(), AllocError>
    requires { start ≤ size_of code.old }
    ensures { OnOk result (code.new ≡ code.old ++ tried_again (size_of code.old - start)) }
{
    let place = code.keep_branch()?;
    area_raised(code)?;
    let back = code.size().saturating_sub(start);
    code.push(Item::JumpBack(back))?;
    code.skip_where(place, BranchTest::Equal, a1(), zero());
    Ok(())
}

/// In an area. Where it is full, the placing is tried again behind AREA.
#[tactic(auto, using(crate::proofs::Placings::placings))]
fn placed_in_area(
    alloc: Global,
    code: &mut Code,
    environment: &Environment,
    taken: Taken,
    variable: Variable,
    area: Variable,
    name: NamePlace,
) -> Result<(), AllocError>
    ensures { OnOk result (code.new ≡ code.old ++ placed (environment_of environment.now) (taken_of taken) (variable_of variable) (Some (variable_of area)) (name_of name)) }
{
    let start = code.size();
    placing_asked(alloc, code, environment, taken, variable, Some(area), name)?;
    tried_again(code, start)
}

/// In the heap, which is never full for a condition.
#[tactic(auto, using(crate::proofs::Placings::placings))]
fn placed_in_heap(
    alloc: Global,
    code: &mut Code,
    environment: &Environment,
    taken: Taken,
    variable: Variable,
    name: NamePlace,
) -> Result<(), AllocError>
    ensures { OnOk result (code.new ≡ code.old ++ placed (environment_of environment.now) (taken_of taken) (variable_of variable) None (name_of name)) }
{
    placing_asked(alloc, code, environment, taken, variable, None, name)?;
    code.status_tested()
}

/// The generation is placed, and its name written.
pub fn placing_code(
    alloc: Global,
    code: &mut Code,
    environment: &Environment,
    taken: Taken,
    variable: Variable,
    area: Option<Variable>,
    name: NamePlace,
) -> Result<(), AllocError>
    ensures { OnOk result (code.new ≡ code.old ++ placed (environment_of environment.now) (taken_of taken) (variable_of variable) (area_of area) (name_of name)) }
{
    match area {
        Some(area) => placed_in_area(alloc, code, environment, taken, variable, area, name),
        None => placed_in_heap(alloc, code, environment, taken, variable, name),
    }
}
