// Names that are declared twice, and parameters.

ghost use Rattle.std.specs.Prelude.{◌≡◌, [], ◌&&◌, false, map, not, nat_lt, slice_get};
ghost use Rattle.std.specs.List.{flat_map, list_any};
ghost use Rattle.std.specs.Option.{option_map_or};
ghost use Rattle.pli_language.specs.Declarations.{level_of};
ghost use Rattle.pli_language.specs.Declaring.{are_rivals, are_siblings, declares, is_own, names_twice, parameter_faults, same_place, same_places, twice_faults, when};
ghost use Rattle.pli_language.specs.Refusals.{fault, soonest};
ghost use Rattle.pli_language.specs.View.{name_of};
ghost use Rattle.pli_declare.specs.Shown.{above_of, declaration_of, levels_of, variable_of, what_of};
ghost use Rattle.pli_language.specs.declared.fault.SourceKind.TheVariants.{Undeclared};
ghost use Rattle.pli_declaring.specs.Rivals.{places_above, rival_at, is_variable_of};

use crate::held::{is_among, same_bytes, stands_alone, variable_in};
use crate::least::noted;
use pli_declare::above::{Above, Levels, level_of};
use pli_declare::names::Names;
use pli_declare::scope::{Declaration, Variable, What};
use pli_language::expr::{Name, Place};
use pli_language::fault::{SourceFault, SourceKind};

/// The name is one of those that a block's names are: those of level 1, labels and procedures.
fn is_own(what: &What) -> bool
    ensures { result ≡ is_own (what_of what.now) }
{
    match what {
        What::Variable(held) => level_of(held.variable) == 1,
        What::Label => true,
        What::Procedure(_) => true,
    }
}

fn same_place(a: Place, b: Place) -> bool
    ensures { result ≡ same_place a b }
{
    a.line == b.line && a.column == b.column
}

/// The names of these structures stand at the same places, where these are the outermost ones.
#[tactic(auto, using(crate::proofs::Repeats::places_on))]
fn same_inside(first: Variable, a: &Levels, second: Variable, b: &Levels) -> bool
    ensures { result ≡ same_places (places_above (levels_of (variable_of first.entry) a.now)) (places_above (levels_of (variable_of second.entry) b.now)) }
{
    let mut left = a;
    let mut right = b;
    while let Levels::Inside {
        structure,
        above,
        ..
    } = left
    {
        let Levels::Inside {
            structure: other,
            above: next,
            ..
        } = right
        else {
            return false;
        };
        if !same_place(structure.declared.name.place, other.declared.name.place) {
            return false;
        }
        left = above;
        right = next;
    }
    match right {
        Levels::Outermost => same_place(first.declared.name.place, second.declared.name.place),
        Levels::Inside { .. } => false,
    }
}

/// The names of these structures stand at the same places.
#[tactic(auto, using(crate::proofs::Repeats::places_on))]
fn same_places(a: &Above, b: &Above) -> bool
    ensures { result ≡ same_places (places_above (above_of a.now)) (places_above (above_of b.now)) }
{
    match (a.outermost, b.outermost) {
        (Some(first), Some(second)) => same_inside(first, &a.levels, second, &b.levels),
        (None, None) => true,
        _ => false,
    }
}

/// The first stands before the second in the same structure, directly under the same one.
fn are_siblings(first: &What, second: &What) -> bool
    ensures { result ≡ are_siblings (what_of first.now) (what_of second.now) }
{
    match (first, second) {
        (What::Variable(a), What::Variable(b)) => !stands_alone(a)
            && same_places(&a.above, &b.above),
        _ => false,
    }
}

/// Two of these can't have one name.
fn are_rivals(first: &What, second: &What) -> bool
    ensures { result ≡ are_rivals (what_of first.now) (what_of second.now) }
{
    (is_own(first) && is_own(second)) || are_siblings(first, second)
}

/// The declaration at this place, if there is one, can't have the name of the other.
fn is_rival_at(declarations: &[Declaration], place: usize, what: &What) -> bool
    ensures { result ≡ rival_at (map declaration_of declarations.now) (what_of what.now) place }
{
    match declarations.get(place) {
        Some(declaration) => are_rivals(&declaration.what, what),
        None => false,
    }
}

/// At one of these places before that of a declaration stands one that can't have its name.
fn has_rival(declarations: &[Declaration], places: &[usize], index: usize, what: &What) -> bool
    ensures { result ≡ list_any (λ p. nat_lt p index && rival_at (map declaration_of declarations.now) (what_of what.now) p) places.now }
{
    places
        .iter()
        .any(|p| *p < index && is_rival_at(declarations, *p, what))
}

/// The names of a block that are declared twice.
#[tactic(auto, using(crate::proofs::Faults::steps))]
pub fn noted_twice(found: Option<SourceFault>, names: &Names) -> Option<SourceFault>
    ensures { result ≡ soonest found (twice_faults [] (map declaration_of names.now.declarations.items)) }
{
    let mut found = found;
    for (i, declaration) in names.declarations.iter().enumerate() {
        let places = names.places_of(&declaration.name.letters);
        let broken = has_rival(&names.declarations, places, i, &declaration.what);
        found = noted(
            found,
            broken,
            declaration.name.place,
            SourceKind::DeclaredTwice,
        );
    }
    found
}

/// The names that a list has twice.
#[tactic(auto, using(crate::proofs::Faults::steps))]
fn noted_names(found: Option<SourceFault>, names: &[Name]) -> Option<SourceFault>
    ensures { result ≡ soonest found (names_twice [] (map name_of names.now)) }
{
    let mut found = found;
    for (i, name) in names.iter().enumerate() {
        let broken = is_among(&names[..i], &name.letters);
        found = noted(found, broken, name.place, SourceKind::DeclaredTwice);
    }
    found
}

/// The declaration is that of a variable of level 1.
#[tactic(auto, using(crate::proofs::Next::held_by))]
fn is_variable_of(declaration: &Declaration, letters: &[u8]) -> bool
    ensures { result ≡ is_variable_of letters.now (declaration_of declaration.now) }
{
    match variable_in(&declaration.what) {
        Some(held) => same_bytes(&declaration.name.letters, letters)
            && level_of(held.variable) == 1,
        None => false,
    }
}

/// A variable of level 1 has the name.
fn declares(declarations: &[Declaration], name: &Name) -> bool
    ensures { result ≡ declares (map declaration_of declarations.now) (name_of name.now) }
{
    declarations
        .iter()
        .any(|d| is_variable_of(d, &name.letters))
}

/// The parameters that are no variables of level 1 of their procedure.
#[tactic(auto, using(crate::proofs::Faults::steps))]
fn noted_undeclared(
    found: Option<SourceFault>,
    declarations: &[Declaration],
    parameters: &[Name],
) -> Option<SourceFault>
    ensures { result ≡ soonest found (flat_map (λ n. when (not (declares (map declaration_of declarations.now) n)) (fault n.place Undeclared)) (map name_of parameters.now)) }
{
    let mut found = found;
    for name in parameters {
        let broken = !declares(declarations, name);
        found = noted(found, broken, name.place, SourceKind::Undeclared);
    }
    found
}

/// What the parameters of a procedure break.
#[tactic(auto, using(crate::proofs::Faults::faults))]
pub fn noted_parameters(
    found: Option<SourceFault>,
    declarations: &[Declaration],
    parameters: &[Name],
) -> Option<SourceFault>
    ensures { result ≡ soonest found (parameter_faults (map declaration_of declarations.now) (map name_of parameters.now)) }
{
    let found = noted_undeclared(found, declarations, parameters);
    noted_names(found, parameters)
}
