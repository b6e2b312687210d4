// Turns over the elements of an aggregate: what is done for each stands between the start and the end of a turn.

ghost use Rattle.std.specs.Prelude.{◌≡◌, ◌++◌, OnOk, IfOk};
ghost use Rattle.pli_typing.specs.TypedView.{reference_of};
ghost use Rattle.pli_coding.specs.Streams as form;
ghost use Rattle.rv_address.specs.Around.{environment_of};
ghost use Rattle.rv_assembly.specs.Places.{IsPlace, jump_place};
ghost use Rattle.rv_item.specs.Elements.{elements_shown};
ghost use Rattle.rv_item.specs.Turns.{turn_begun, turn_ended, turn_tested};

use crate::elements::{Elements, next_asked, next_counted};
use pli_typing::typed::Reference;
use rv_address::environment::Environment;
use rv_assembly::code::{Code, branch_over};
use rv_assembly::item::Item;
use rv_assembly::place::Place;
use rv_assembly::registers::{a0, u1};
use rv_meaning::instr::BranchTest;
use std::alloc::{AllocError, Global};

/// A turn begins with a look at the next element, and where there is none goes over all that is written up to its end.
#[tactic(auto, using(std::proofs::Common::append_assoc), unfolding(crate::specs::Turns::turn_begun, crate::specs::Turns::turn_tested))]
pub fn turn_begun(
    alloc: Global,
    code: &mut Code,
    environment: &Environment,
    elements: Elements,
    reference: &Reference,
) -> Result<Place, AllocError>
    ensures begun { OnOk result (code.new ≡ code.old ++ turn_begun (form.next_asked (environment_of environment.now) (elements_shown elements) (reference_of reference.now))) }
    ensures place { IfOk result (λ p. p ≡ jump_place (code.old ++ turn_tested (form.next_asked (environment_of environment.now) (elements_shown elements) (reference_of reference.now)))) }
{
    next_asked(alloc, code, environment, elements, reference)?;
    code.push(branch_over(BranchTest::NotEqual, a0(), u1(), 2))?;
    code.keep_jump()
}

/// The end of a turn that began where there were so many words, with its jump at a place.
#[tactic(auto, using(crate::proofs::Looping::place_stays), unfolding(crate::specs::Turns::turn_ended))]
pub fn turn_ended(
    code: &mut Code,
    elements: Elements,
    start: usize,
    place: Place,
) -> Result<(), AllocError>
    requires { IsPlace 2 code.old place }
    ensures { OnOk result (code.new ≡ turn_ended start place (elements_shown elements) code.old) }
{
    next_counted(code, elements)?;
    let back = code.size().saturating_sub(start);
    code.push(Item::JumpBack(back))?;
    code.jump_over(place);
    Ok(())
}
