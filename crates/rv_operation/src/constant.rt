// Constants that are numbers and bits, and the count of a variable's generations.

ghost use Rattle.std.specs.Prelude.{◌≡◌, ◌++◌, OnOk};
ghost use Rattle.pli_typing.specs.TypedView.{variable_of};
ghost use Rattle.pli_coding.specs.Instructions as short;
ghost use Rattle.pli_coding.specs.Registers.{a0};
ghost use Rattle.rv_address.specs.Around.{environment_of};
ghost use Rattle.rv_operation.specs.Pieces.{bit_constant, generations_counted};

use pli_typing::typed::Variable;
use rv_address::controlled::controlled_number;
use rv_address::environment::Environment;
use rv_address::number::{constant, count};
use rv_assembly::code::Code;
use rv_assembly::registers::a0;
use std::alloc::AllocError;

/// A number constant.
pub fn number_constant(code: &mut Code, value: u64) -> Result<(), AllocError>
    ensures { OnOk result (code.new ≡ code.old ++ short.number a0 value) }
{
    constant(code, a0(), i128::from(value))
}

/// A bit constant.
pub fn bit_constant(code: &mut Code, value: bool) -> Result<(), AllocError>
    ensures { OnOk result (code.new ≡ code.old ++ bit_constant value) }
{
    if value {
        code.small(a0(), 1)
    } else {
        code.small(a0(), 0)
    }
}

/// ALLOCATION: how many generations a CONTROLLED variable has.
#[tactic(auto, unfolding(crate::specs::Pieces::generations_counted))]
pub fn generations_counted(
    code: &mut Code,
    environment: &Environment,
    variable: Variable,
) -> Result<(), AllocError>
    ensures { OnOk result (code.new ≡ code.old ++ generations_counted (environment_of environment.now) (variable_of variable)) }
{
    let place = controlled_number(environment.known.typed, variable)?;
    count(code, a0(), place)?;
    code.service(19)
}
