// Jumps over code that isn't written yet.

ghost use Rattle.std.specs.Prelude.{◌≡◌, [], ◌∷◌, ◌++◌, OnOk, IfOk};
ghost use Rattle.pli_coding.specs.Assembly.{JumpAhead};
ghost use Rattle.pli_coding.specs.Instructions.{skip_where};
ghost use Rattle.rv_assembly.specs.Places.{IsPlace, jump_kept, jump_place};
ghost use Rattle.rv_statement.specs.Ahead.{ComesTo, IsJumpIf, jumped_if, jumped_past, turned_back};

use rv_assembly::code::{Code, branch_over};
use rv_assembly::item::Item;
use rv_assembly::place::Place;
use rv_meaning::instr::{BranchTest, Register};
use std::alloc::AllocError;

/// Past what is written from here on, unless the test holds.
pub(crate) fn ahead_unless(
    code: &mut Code,
    test: BranchTest,
    left: Register,
    right: Register,
) -> Result<Place, AllocError>
    ensures written { OnOk result (code.new ≡ code.old ++ skip_where test left right (JumpAhead 0 ∷ [])) }
    ensures place { IfOk result (λ p. ComesTo code.new p (λ n. code.old ++ skip_where test left right (JumpAhead n ∷ []))) }
{
    code.push(branch_over(test, left, right, 2))?;
    Ok(code.keep_jump()?)
}

/// What follows is written where the test doesn't hold: the jump goes here, past one that leads over what follows.
#[tactic(auto, unfolding(crate::specs::Ahead::jumped_past))]
pub(crate) fn otherwise(code: &mut Code, met: Place) -> Result<Place, AllocError>
    requires { IsPlace 2 code.old met }
    ensures kept { OnOk result (code.new ≡ jumped_past code.old met ++ jump_kept ∷ []) }
    ensures place { IfOk result (λ p. p ≡ jump_place (jumped_past code.old met)) }
{
    let words = code.words_behind(met) + 2;
    code.patch(met, Item::JumpAhead(words));
    Ok(code.keep_jump()?)
}

/// A jump at a place, if there is one, over all that was written since.
pub(crate) fn jump_over_if(code: &mut Code, place: Option<Place>)
    requires { IsJumpIf code.old place }
    ensures { code.new ≡ jumped_if code.old place }
{
    if let Some(place) = place {
        code.jump_over(place);
    }
}

/// Back to where so many words stood.
#[tactic(auto, unfolding(crate::specs::Ahead::turned_back))]
pub(crate) fn turned_back(code: &mut Code, start: usize) -> Result<(), AllocError>
    ensures { OnOk result (code.new ≡ turned_back code.old start) }
{
    let words = code.size().saturating_sub(start);
    code.push(Item::JumpBack(words))
}
