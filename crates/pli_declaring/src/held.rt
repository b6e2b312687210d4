// What stands around a variable.

ghost use Rattle.std.specs.Prelude.{◌≡◌, ◌+◌, ◌==◌, ◌&&◌, map, min, length};
ghost use Rattle.std.specs.List.{list_any};
ghost use Rattle.pli_language.specs.Declarations.{dimensions_of};
ghost use Rattle.pli_language.specs.Declaring.{root_of, own_attributes, class_attributes, stands_alone, own_dimensions, inherited_dimensions, is_deeper, has_members, goes_on, is_parameter};
ghost use Rattle.pli_language.specs.Keywords.{same_bytes};
ghost use Rattle.pli_language.specs.View.{attribute_of, name_of, option_of};
ghost use Rattle.pli_declaring.specs.Next.{next_in, variable_in};
ghost use Rattle.pli_declare.specs.Shown.{declaration_of, held_of, variable_of, what_of};

use pli_declare::above::level_of;
use pli_declare::scope::{Declaration, Held, Variable, What};
use pli_language::declaration::Attribute;
use pli_language::expr::Name;

/// The variable of level 1 that it is, or that holds it.
pub fn root_of<'a>(held: &Held<'a>) -> Variable<'a>
    ensures { variable_of result ≡ root_of (held_of held.now) }
{
    held.above.first_or(held.variable)
}

/// The attributes of the variable's item.
pub fn own_attributes<'a>(held: &Held<'a>) -> &'a [Attribute]
    ensures { map attribute_of result.now ≡ own_attributes (held_of held.now) }
{
    &held.variable.item.attributes
}

/// The attributes of the variable of level 1 that it is, or that holds it.
pub fn class_attributes<'a>(held: &Held<'a>) -> &'a [Attribute]
    ensures { map attribute_of result.now ≡ class_attributes (held_of held.now) }
{
    &root_of(held).item.attributes
}

/// Nothing holds the variable.
pub fn stands_alone(held: &Held) -> bool
    ensures { result ≡ stands_alone (held_of held.now) }
{
    held.above.count() == 0
}

/// How many dimensions a variable has.
pub fn dimensions_of(variable: Variable) -> usize
    ensures { result ≡ length (dimensions_of (variable_of variable.entry)) }
{
    variable.declared.dimensions.len() + variable.item.dimensions.len()
}

/// How many dimensions the structures have that hold the variable.
pub fn inherited_dimensions(held: &Held) -> usize
    ensures { result ≡ inherited_dimensions (held_of held.now) }
{
    held.above.dimensions()
}

/// How many dimensions an element of the variable has, as far as a number goes.
pub fn all_dimensions(held: &Held) -> usize
    ensures { result ≡ min (own_dimensions (held_of held.now) + inherited_dimensions (held_of held.now)) 18446744073709551615 }
{
    dimensions_of(held.variable).saturating_add(inherited_dimensions(held))
}

/// The second, declared next, belongs to the first.
pub fn is_deeper(held: &Held, next: &Held) -> bool
    ensures { result ≡ is_deeper (held_of held.now) (held_of next.now) }
{
    held.above.count() < next.above.count()
}

/// The variable that is declared, if one is.
pub fn variable_in<'a, 'b>(what: &'b What<'a>) -> Option<&'b Held<'a>>
    ensures { option_of (λ h. held_of h.now) result ≡ variable_in (what_of what.now) }
{
    match what {
        What::Variable(held) => Some(held),
        What::Label => None,
        What::Procedure(_) => None,
    }
}

/// The variable declared next, if a variable is.
fn next_of<'a, 'b>(after: &'b [Declaration<'a>]) -> Option<&'b Held<'a>>
    ensures { option_of (λ h. held_of h.now) result ≡ next_in (map declaration_of after.now) }
{
    match after {
        [next, ..] => variable_in(&next.what),
        [] => None,
    }
}

/// The variable declared next belongs to this one.
#[tactic(auto, using(crate::proofs::Next::members_by))]
pub fn has_members(held: &Held, after: &[Declaration]) -> bool
    ensures { result ≡ has_members (held_of held.now) (map declaration_of after.now) }
{
    match next_of(after) {
        Some(next) => is_deeper(held, next),
        None => false,
    }
}

/// The structure isn't at its end.
#[tactic(auto, using(crate::proofs::Next::goes_on_by))]
pub fn goes_on(after: &[Declaration]) -> bool
    ensures { result ≡ goes_on (map declaration_of after.now) }
{
    match next_of(after) {
        Some(next) => !stands_alone(next),
        None => false,
    }
}

/// The letters are the same.
pub fn same_bytes(a: &[u8], b: &[u8]) -> bool
    ensures { result ≡ same_bytes a.now b.now }
{
    a == b
}

/// One of these names has these letters.
pub fn is_among(names: &[Name], letters: &[u8]) -> bool
    ensures { result ≡ list_any (λ n. same_bytes n.letters letters.now) (map name_of names.now) }
{
    names.iter().any(|n| same_bytes(&n.letters, letters))
}

/// A variable of level 1 with a parameter's name, or a part of one.
pub fn is_parameter(parameters: &[Name], held: &Held) -> bool
    ensures { result ≡ is_parameter (map name_of parameters.now) (held_of held.now) }
{
    let root = root_of(held);
    level_of(root) == 1 && is_among(parameters, &root.declared.name.letters)
}
