// Extents that REFER tells, and those that are filled in when the program runs.

ghost use Rattle.std.specs.Prelude.{◌≡◌, ◌+◌, map, IfOk};
ghost use Rattle.pli_typing.specs.TypedView.{bounds_of, class_of, leaf_of, part_of, variable_of};
ghost use Rattle.pli_typing.specs.TypedStatementView.{declared_variable_of};
ghost use Rattle.pli_coding.specs.Locating as form;
ghost use Rattle.rv_address.specs.Around.{environment_of};

use crate::environment::Environment;
use crate::extent::{is_one, takes_any};
use pli_typing::typed::{Bounds, DeclaredVariable, Leaf, Part, StorageClass, Variable};
use std::alloc::AllocError;

/// Whether the first dimension begins at 1, or there is none.
#[tactic(auto, using(crate::proofs::Declared::bounds_begin, crate::proofs::Declared::no_bounds_begin))]
fn begin_at_one(dimensions: &[Bounds]) -> bool
    ensures { result ≡ form.begin_at_one (map bounds_of dimensions.now) }
{
    if dimensions.len() == 0 {
        return true;
    }
    let first = &dimensions[0];
    is_one(first.lower)
}

/// The same of the last leaf.
#[tactic(auto, using(crate::proofs::Declared::last_begins, crate::proofs::Declared::none_begins))]
fn last_begins_at_one(leaves: &[Leaf]) -> bool
    ensures { result ≡ form.begin_at_one (form.referred_bounds (map leaf_of leaves.now)) }
{
    if leaves.len() == 0 {
        return true;
    }
    let last = leaves.len() - 1;
    let leaf = &leaves[last];
    begin_at_one(&leaf.bounds)
}

/// Whether a lower bound beside REFER is filled in when the run begins, since the table can't tell it.
pub fn needs_number_word(variable: &DeclaredVariable) -> bool
    ensures { result ≡ form.needs_number_word (declared_variable_of variable.now) }
{
    variable.refer.is_some() && !last_begins_at_one(&variable.leaves)
}

#[tactic(auto, using(crate::proofs::Declared::last_takes, crate::proofs::Declared::none_takes))]
fn last_takes_any(leaves: &[Leaf]) -> bool
    ensures { result ≡ form.last_takes_any (map leaf_of leaves.now) }
{
    if leaves.len() == 0 {
        return false;
    }
    let last = leaves.len() - 1;
    let leaf = &leaves[last];
    takes_any(leaf)
}

pub(crate) fn is_parameter(class: StorageClass) -> bool
    ensures { result ≡ form.is_parameter (class_of class) }
{
    class == StorageClass::Parameter
}

fn may_refer(variable: &DeclaredVariable) -> bool
    ensures { result ≡ form.may_refer (declared_variable_of variable.now) }
{
    variable.refer.is_some() || (is_parameter(variable.class) && last_takes_any(&variable.leaves))
}

/// Whether a part has the last leaf, and REFER may tell its extent.
pub fn is_referred(
    environment: &Environment,
    variable: Variable,
    part: Part,
) -> Result<bool, AllocError>
    ensures { IfOk result (λ b. b ≡ form.is_referred (environment_of environment.now) (variable_of variable) (part_of part)) }
{
    let declaration = environment.declaration(variable)?;
    let end = part.first.checked_add(part.count).ok_or(AllocError)?;
    Ok(end == declaration.leaves.len() && may_refer(declaration))
}
