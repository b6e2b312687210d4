// The extents of a variable: each is evaluated in its turn, checked, and filled in at all places that share it.

ghost use Rattle.std.specs.Prelude.{◌≡◌, map, ◌++◌, OnOk};
ghost use Rattle.pli_typing.specs.TypedTree.{EvaluatedExtent};
ghost use Rattle.pli_typing.specs.TypedView.{extent_of, variable_of};
ghost use Rattle.pli_typing.specs.TypedStatementView.{declared_variable_of, evaluation_of};
ghost use Rattle.pli_coding.specs.StaticForms.{same_extent};
ghost use Rattle.pli_coding.specs.Environments.{declaration_of};
ghost use Rattle.pli_coding.specs.Extents as form;
ghost use Rattle.pli_frames.specs.TakenView.{taken_of};
ghost use Rattle.rv_address.specs.Around.{environment_of};
ghost use Rattle.rv_extent.specs.Pieces.{declared_extents, evaluation_code, number_begun};

use crate::check::checked_code;
use crate::fill::constants_filled;
use crate::words::{extent_words, signature_kept};
use pli_frames::taken::Taken;
use pli_typing::typed::{DeclaredVariable, Evaluation, Extent, Variable};
use rv_address::environment::Environment;
use rv_address::number::count;
use rv_assembly::code::Code;
use rv_assembly::registers::a0;
use rv_expr::expression::number_code;
use std::alloc::{AllocError, Global};

fn is_evaluated(extent: Extent, place: usize) -> bool
    ensures { result ≡ same_extent (extent_of extent) (EvaluatedExtent place) }
{
    match extent {
        Extent::Constant(_) => false,
        Extent::Star => false,
        Extent::Refer => false,
        Extent::Evaluated(number) => number == place,
    }
}

/// Whether the REFER member is to be set to the value of an evaluation.
fn is_kept(variable: &DeclaredVariable, place: usize) -> bool
    ensures { result ≡ form.is_kept_by place (declared_variable_of variable.now).refer }
{
    match variable.refer {
        Some(member) => is_evaluated(member.amount, place),
        None => false,
    }
}

#[tactic(auto, unfolding(crate::specs::Pieces::evaluation_code))]
fn evaluation_code(
    alloc: Global,
    code: &mut Code,
    environment: &Environment,
    taken: Taken,
    variable: &DeclaredVariable,
    place: usize,
    evaluation: &Evaluation,
) -> Result<(), AllocError>
    ensures { OnOk result (code.new ≡ code.old ++ evaluation_code (environment_of environment.now) (taken_of taken) (declared_variable_of variable.now) place (evaluation_of evaluation.now)) }
{
    let behind = taken.with_words(extent_words())?;
    number_code(alloc, code, environment, behind, &evaluation.value)?;
    let is_kept = is_kept(variable, place);
    checked_code(
        alloc,
        code,
        taken,
        place,
        is_kept,
        &variable.leaves,
        evaluation.check,
    )
}

#[tactic(auto, using(crate::proofs::Steps::next_evaluation))]
fn evaluations_code(
    alloc: Global,
    code: &mut Code,
    environment: &Environment,
    taken: Taken,
    variable: &DeclaredVariable,
    evaluations: &[Evaluation],
) -> Result<(), AllocError>
    ensures { OnOk result (code.new ≡ code.old ++ form.evaluations_code (environment_of environment.now) (taken_of taken) (declared_variable_of variable.now) 0 (map evaluation_of evaluations.now)) }
{
    for (place, evaluation) in evaluations.iter().enumerate() {
        evaluation_code(alloc, code, environment, taken, variable, place, evaluation)?;
    }
    Ok(())
}

/// The number of the signature in the table, from which the others come.
#[tactic(auto, unfolding(crate::specs::Pieces::number_begun))]
fn number_begun(code: &mut Code, taken: Taken, number: usize) -> Result<(), AllocError>
    ensures { OnOk result (code.new ≡ code.old ++ number_begun (taken_of taken) number) }
{
    count(code, a0(), number)?;
    signature_kept(code, taken)
}

#[tactic(auto, unfolding(crate::specs::Pieces::declared_extents))]
fn declared_extents(
    alloc: Global,
    code: &mut Code,
    environment: &Environment,
    taken: Taken,
    number: usize,
    variable: &DeclaredVariable,
) -> Result<(), AllocError>
    ensures { OnOk result (code.new ≡ code.old ++ declared_extents (environment_of environment.now) (taken_of taken) number (declared_variable_of variable.now)) }
{
    number_begun(code, taken, number)?;
    constants_filled(alloc, code, taken, &variable.leaves)?;
    evaluations_code(
        alloc,
        code,
        environment,
        taken,
        variable,
        &variable.evaluations,
    )
}

/// The extents of a variable's next generation. Behind them its signature's number, the bytes to reserve and the extent for REFER
/// wait in words behind the temporaries in use.
pub fn extents_code(
    alloc: Global,
    code: &mut Code,
    environment: &Environment,
    taken: Taken,
    variable: Variable,
) -> Result<(), AllocError>
    ensures { OnOk result (code.new ≡ code.old ++ form.extents_code (environment_of environment.now) (taken_of taken) (declaration_of (environment_of environment.now) (variable_of variable))) }
{
    let declaration = environment.declaration(variable)?;
    let number = environment.table_number(variable)?;
    declared_extents(alloc, code, environment, taken, number, declaration)?;
    Ok(())
}
