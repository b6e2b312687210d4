// Which parameter of its block a variable is, and where an AUTOMATIC one stands in the frame.

ghost use Rattle.std.specs.Prelude.{◌≡◌, length, IfOk};
ghost use Rattle.pli_typing.specs.TypedView.{variable_of};
ghost use Rattle.pli_typing.specs.TypedStatementView.{program_of};
ghost use Rattle.pli_coding.specs.Frames as form;
ghost use Rattle.pli_coding.specs.Locating as locating;
ghost use Rattle.pli_frames.specs.Parts.{parts};
ghost use Rattle.rv_address.specs.Around.{environment_of};

use crate::environment::Environment;
use pli_frames::frame::fixed_size;
use pli_typing::statement::Typed;
use pli_typing::typed::Variable;
use std::alloc::AllocError;

/// The parameters of a block, by their places among its variables; none where it is no procedure.
#[tactic(auto, using(crate::proofs::Framing::here, crate::proofs::Framing::not_here, std::proofs::lemmas::List::drop_all))]
pub fn parameters_of_block<'a>(typed: &'a Typed, block: usize) -> &'a [usize]
    ensures { result.now ≡ form.parameters_of_block (program_of typed.now) block }
{
    let procedures = typed.procedures.as_slice();
    for procedure in procedures {
        if procedure.block.head.number == block {
            return procedure.parameters.as_slice();
        }
    }
    &[]
}

/// The place of a variable among the parameters of its block, or the place behind them.
#[tactic(auto, using(crate::proofs::Framing::this_parameter, crate::proofs::Framing::next_parameter, std::proofs::lemmas::List::drop_all))]
fn place_among(index: usize, parameters: &[usize]) -> usize
    ensures { result ≡ locating.place_among index parameters.now }
{
    let mut place = 0;
    for parameter in parameters {
        if *parameter == index {
            return place;
        }
        place += 1;
    }
    place
}

/// The place of a parameter among those of its block, or the place behind them.
pub fn number_of_parameter(environment: &Environment, variable: Variable) -> usize
    ensures { result ≡ locating.number_of_parameter (environment_of environment.now) (variable_of variable) }
{
    let parameters = parameters_of_block(environment.known.typed, variable.block);
    place_among(variable.index, parameters)
}

/// The place of an AUTOMATIC variable's name, in bytes from the frame's address.
pub fn automatic_place(environment: &Environment, variable: Variable) -> Result<u32, AllocError>
    ensures { IfOk result (λ n. n ≡ form.automatic_place parts (environment_of environment.now).program (variable_of variable).block (variable_of variable).level (variable_of variable).index) }
{
    let typed = environment.known.typed;
    let parameters = parameters_of_block(typed, variable.block);
    let start = fixed_size(variable.level, parameters.len())?;
    environment.known.place(start, variable)
}
