// The places of parameters among the variables of their block.

ghost use Rattle.std.specs.Prelude.{◌≡◌, map, IfOk};
ghost use Rattle.pli_typing.specs.Calls.{begins_named};
ghost use Rattle.pli_typing.specs.Variables.{index_where};
ghost use Rattle.pli_language.specs.View.{name_of};
ghost use Rattle.pli_declare.specs.Shown.{held_of};
ghost use Rattle.pli_variables.specs.Held.{groups_held};

use pli_declare::scope::Held;
use pli_declaring::held::same_bytes;
use pli_language::expr::Name;
use std::alloc::{AllocError, Global};

/// The variable of level 1 has this name.
fn begins_named(name: &Name, members: &[Held]) -> bool
    ensures { result ≡ begins_named (name_of name.now) (map held_of members.now) }
{
    match members.first() {
        Some(first) => same_bytes(&first.variable.declared.name.letters, &name.letters),
        None => false,
    }
}

/// Which of these variables of level 1 has a name.
#[tactic(auto, using(crate::proofs::Amounts::found))]
fn index_of(groups: &[Vec<Held>], name: &Name) -> usize
    ensures { result ≡ index_where (begins_named (name_of name.now)) (groups_held groups.now) }
{
    for (i, members) in groups.iter().enumerate() {
        if begins_named(name, members) {
            return i;
        }
    }
    groups.len()
}

/// Which of these variables of level 1 have these names.
#[tactic(auto, using(crate::proofs::Grouping::groups))]
pub fn indices_of(
    alloc: Global,
    groups: &[Vec<Held>],
    names: &[Name],
) -> Result<Vec<usize>, AllocError>
    ensures { IfOk result (λ v. v.items ≡ map (λ n. index_where (begins_named n) (groups_held groups.now)) (map name_of names.now)) }
{
    let mut out = Vec::new(alloc);
    for name in names {
        out.push(index_of(groups, name))?;
    }
    Ok(out)
}
