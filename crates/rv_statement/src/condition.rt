// Conditions: how code names them, and SIGNAL.

ghost use Rattle.std.specs.Prelude.{◌≡◌, ◌<◌, [], ◌∷◌, ◌++◌, OnOk};
ghost use Rattle.pli_coding.specs.Arithmetic.{condition_number};
ghost use Rattle.pli_coding.specs.Statements as form;

use pli_language::condition::Condition;
use rv_assembly::code::Code;
use rv_assembly::registers::a0;
use rv_operation::arithmetic::raised;
use std::alloc::AllocError;

fn condition_number(condition: Condition) -> u32
    ensures value { result ≡ condition_number condition }
    ensures small { result < 2048 }
{
    match condition {
        Condition::Area => 1,
        Condition::FixedOverflow => 2,
        Condition::ZeroDivide => 3,
        Condition::Endfile => 4,
        Condition::Error => 5,
    }
}

/// A condition, in a0.
pub(crate) fn condition_given(code: &mut Code, condition: Condition) -> Result<(), AllocError>
    ensures { OnOk result (code.new ≡ code.old ++ form.condition_given condition ∷ []) }
{
    code.small(a0(), condition_number(condition))
}

/// SIGNAL.
pub(crate) fn signal_code(code: &mut Code, condition: Condition) -> Result<(), AllocError>
    ensures { OnOk result (code.new ≡ code.old ++ form.signal_code condition) }
{
    match condition {
        Condition::Area => raised(code, condition, 10),
        Condition::FixedOverflow => raised(code, condition, 20),
        Condition::ZeroDivide => raised(code, condition, 30),
        Condition::Endfile => raised(code, condition, 40),
        Condition::Error => code.error_raised(199),
    }
}
