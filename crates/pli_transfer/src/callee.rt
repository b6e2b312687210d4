// What is called, and how its parameters are found.

ghost use Rattle.std.specs.Prelude.{◌≡◌, map};
ghost use Rattle.pli_typing.specs.Calls.{index_in, parameter_place};
ghost use Rattle.pli_typing.specs.TypedView.{reference_of, variable_of};
ghost use Rattle.pli_operand.specs.Shown.{designated_of};

use pli_language::expr::Place;
use pli_operand::operand::Designated;
use pli_typing::typed::{Reference, Variable};

/// What a call is made of: the procedure's block, its parameters, and the place of the name.
#[derive(Clone, Copy)]
pub struct Callee<'p, 't, 'a> {
    pub block: usize,
    pub parameters: &'p [Designated<'t, 'a>],
    pub place: Place,
}

/// The place of a reference's variable among those of its block.
#[tactic(auto, unfolding(pli_typing::specs::TypedView::reference_of))]
fn index_in(reference: &Reference) -> usize
    ensures { result ≡ index_in (reference_of reference.now) }
{
    match reference {
        Reference::Plain { variable, .. } | Reference::Located { variable, .. } => variable.index,
    }
}

/// The place of a variable among the parameters.
pub(crate) fn parameter_place(variable: Variable, parameters: &[Designated]) -> usize
    ensures { result ≡ parameter_place (variable_of variable) (map designated_of parameters.now) }
{
    parameters
        .iter()
        .position(|parameter| index_in(&parameter.reference) == variable.index)
        .unwrap_or(parameters.len())
}
