// What a variable's generations begin with, as services are told: where its INITIAL values stand, or 0 for none.

ghost use Rattle.std.specs.Prelude.{◌≡◌, ◌++◌, OnOk};
ghost use Rattle.pli_language.specs.View.{option_of};
ghost use Rattle.pli_typing.specs.TypedStatementView.{declared_variable_of};
ghost use Rattle.pli_coding.specs.Extents as form;
ghost use Rattle.rv_assembly.specs.View.{datum_of};

use pli_typing::typed::DeclaredVariable;
use rv_assembly::code::Code;
use rv_assembly::item::{Datum, Item, Symbol};
use rv_data::initial::initial_datum;
use rv_meaning::instr::Register;
use std::alloc::{AllocError, Global};

fn initial_given(
    code: &mut Code,
    register: Register,
    values: Option<Datum>,
) -> Result<(), AllocError>
    ensures { OnOk result (code.new ≡ code.old ++ form.initial_given register (option_of datum_of values)) }
{
    match values {
        Some(datum) => code.push(Item::OffsetOf(register, Symbol::DataPlace(datum))),
        None => code.small(register, 0),
    }
}

/// Where a variable's INITIAL values stand, in a register.
#[tactic(auto, using(crate::proofs::Steps::values_given))]
pub fn initial_code(
    alloc: Global,
    code: &mut Code,
    register: Register,
    variable: &DeclaredVariable,
) -> Result<(), AllocError>
    ensures { OnOk result (code.new ≡ code.old ++ form.initial_code register (declared_variable_of variable.now)) }
{
    let values = initial_datum(alloc, variable)?;
    Ok(initial_given(code, register, values)?)
}
