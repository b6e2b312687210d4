// CONTROLLED variables by their numbers, in the order in which they are declared.

ghost use Rattle.std.specs.Prelude.{◌≡◌, ◌+◌, ◌≤◌, map, take, length, IfOk};
ghost use Rattle.pli_typing.specs.TypedView.{class_of, variable_of};
ghost use Rattle.pli_typing.specs.TypedStatementView.{declared_variable_of, program_of};
ghost use Rattle.pli_coding.specs.Locating as form;
ghost use Rattle.rv_address.specs.Rows.{all_controlled, one_controlled, rows_of};

use pli_typing::statement::Typed;
use pli_typing::typed::{DeclaredVariable, StorageClass, Variable};
use std::alloc::AllocError;

pub(crate) fn is_controlled(class: StorageClass) -> bool
    ensures { result ≡ form.is_controlled (class_of class) }
{
    class == StorageClass::Controlled
}

fn one_controlled(variable: &DeclaredVariable) -> usize
    ensures few { result ≤ 1 }
    ensures one { result ≡ one_controlled (declared_variable_of variable.now) }
{
    if is_controlled(variable.class) { 1 } else { 0 }
}

/// How many are CONTROLLED.
#[tactic(auto, using(crate::proofs::Numbering::next_variable, std::proofs::lemmas::List::drop_all))]
fn controlled_among(variables: &[DeclaredVariable]) -> usize
    ensures few { result ≤ length variables.now }
    ensures number { result ≡ form.controlled_among (map declared_variable_of variables.now) }
{
    let mut number = 0;
    for variable in variables {
        number += one_controlled(variable);
    }
    number
}

/// How many are CONTROLLED in all of these blocks.
#[tactic(auto, using(crate::proofs::Numbering::next_block, std::proofs::lemmas::List::drop_all))]
fn all_controlled(blocks: &[Vec<DeclaredVariable>]) -> Result<usize, AllocError>
    ensures { IfOk result (λ n. n ≡ all_controlled (rows_of blocks.now)) }
{
    let mut number: usize = 0;
    for variables in blocks {
        let here = controlled_among(variables);
        number = number.checked_add(here).ok_or(AllocError)?;
    }
    Ok(number)
}

/// How many are CONTROLLED before the one of an index.
#[tactic(auto, using(crate::proofs::Numbering::in_row))]
fn controlled_before(variables: &[DeclaredVariable], index: usize) -> usize
    ensures { result ≡ form.controlled_among (take index (map declared_variable_of variables.now)) }
{
    let count = index.min(variables.len());
    controlled_among(&variables[..count])
}

/// The number of a CONTROLLED variable, from 0; one of a block that isn't there is want of memory.
pub fn controlled_number(typed: &Typed, variable: Variable) -> Result<usize, AllocError>
    ensures { IfOk result (λ n. n ≡ form.controlled_from (program_of typed.now).variables (variable_of variable).block (variable_of variable).index) }
{
    if variable.block >= typed.variables.len() {
        return Err(AllocError);
    }
    let before = all_controlled(&typed.variables[..variable.block])?;
    let row = &typed.variables[variable.block];
    let here = controlled_before(row, variable.index);
    if before >= 1 << 32 || here >= 1 << 32 {
        return Err(AllocError);
    }
    Ok(before + here)
}
