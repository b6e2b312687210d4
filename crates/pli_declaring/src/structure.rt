// The variables of a block, structure by structure.

ghost use Rattle.std.specs.Prelude.{◌≡◌, ◌+◌, [], map, nat_lt};
ghost use Rattle.pli_language.specs.Declaring.{declarations_faults, inherited_dimensions, most_dimensions, own_dimensions, variable_faults, what_faults};
ghost use Rattle.pli_language.specs.Refusals.{soonest};
ghost use Rattle.pli_language.specs.View.{name_of};
ghost use Rattle.pli_declare.specs.Shown.{declaration_of, held_of, what_of};
ghost use Rattle.pli_declaring.specs.Members.{variables_in};
ghost use Rattle.pli_declaring.specs.Starts.{start_of};

use crate::extent::noted_extents;
use crate::held::{all_dimensions, stands_alone};
use crate::least::noted;
use crate::refer::noted_refers;
use crate::variable::{area_is_nested, attributes_are_bad};
use pli_declare::scope::{Declaration, Held, What};
use pli_language::expr::Name;
use pli_language::fault::{SourceFault, SourceKind};

/// An element of the variable has more than 8 dimensions.
fn has_too_many_dimensions(held: &Held) -> bool
    ensures { result ≡ nat_lt most_dimensions (own_dimensions (held_of held.now) + inherited_dimensions (held_of held.now)) }
{
    all_dimensions(held) > 8
}

/// What a variable breaks, where these stand before it in its structure and those behind it.
#[tactic(auto, using(crate::proofs::Faults::faults))]
fn noted_variable(
    found: Option<SourceFault>,
    parameters: &[Name],
    earlier: &[Declaration],
    held: &Held,
    after: &[Declaration],
) -> Option<SourceFault>
    ensures { result ≡ soonest found (variable_faults (map name_of parameters.now) (variables_in (map declaration_of earlier.now)) (held_of held.now) (map declaration_of after.now)) }
{
    let place = held.variable.declared.name.place;
    let bad = attributes_are_bad(parameters, held, after);
    let found = noted(found, bad, place, SourceKind::BadAttributes);
    let found = noted(found, area_is_nested(held), place, SourceKind::NestedArea);
    let found = noted(
        found,
        has_too_many_dimensions(held),
        place,
        SourceKind::TooLarge,
    );
    let found = noted_extents(found, parameters, held);
    noted_refers(found, parameters, earlier, held, after)
}

/// What a declaration breaks by itself.
#[tactic(auto, using(crate::proofs::Faults::faults))]
fn noted_what(
    found: Option<SourceFault>,
    parameters: &[Name],
    earlier: &[Declaration],
    what: &What,
    after: &[Declaration],
) -> Option<SourceFault>
    ensures { result ≡ soonest found (what_faults (map name_of parameters.now) (variables_in (map declaration_of earlier.now)) (what_of what.now) (map declaration_of after.now)) }
{
    match what {
        What::Variable(held) => noted_variable(found, parameters, earlier, held, after),
        What::Label => found,
        What::Procedure(_) => found,
    }
}

/// Where the structure begins that the next declaration may go on with, after the one at this place.
fn start_after(start: usize, index: usize, next: usize, what: &What) -> usize
    ensures { result ≡ start_of start index next (what_of what.now) }
{
    match what {
        What::Variable(held) if stands_alone(held) => index,
        What::Variable(_) => start,
        What::Label => next,
        What::Procedure(_) => next,
    }
}

/// What the declarations of a block break one by one.
#[tactic(auto, using(crate::proofs::Faults::steps))]
pub fn noted_declarations(
    found: Option<SourceFault>,
    parameters: &[Name],
    declarations: &[Declaration],
) -> Option<SourceFault>
    ensures { result ≡ soonest found (declarations_faults (map name_of parameters.now) [] (map declaration_of declarations.now)) }
{
    let mut found = found;
    let mut start = 0;
    for (i, declaration) in declarations.iter().enumerate() {
        let earlier = &declarations[start..i];
        let after = &declarations[i + 1..];
        found = noted_what(found, parameters, earlier, &declaration.what, after);
        start = start_after(start, i, i + 1, &declaration.what);
    }
    found
}
