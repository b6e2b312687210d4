// What a variable's attributes may not be.

ghost use Rattle.std.specs.Prelude.{◌≡◌, ◌&&◌, ◌||◌, not, map, length, nat_lt, if◌then◌else◌};
ghost use Rattle.pli_language.specs.Declarations.{level_of, Held};
ghost use Rattle.pli_language.specs.Declaring.{has, has_kind, has_class, has_members, is_builtin, is_number_name, is_parameter, initial_fits, level_is_bad, own_attributes, own_dimensions, stands_alone, attributes_are_bad, area_is_nested};
ghost use Rattle.pli_language.specs.View.{attribute_of, name_of};
ghost use Rattle.pli_declare.specs.Shown.{declaration_of, held_of};
ghost use Rattle.pli_declaring.specs.Rules.{builtin_is_bad, dimensions_are_bad, class_is_bad, parameter_is_bad, structure_is_bad, is_kindless, leaf_is_bad, misfits};

use crate::attribute::{
    Row, attributes_clash, builtin_clash, has, has_class, has_kind, is_builtin, is_number_name,
};
use crate::held::{dimensions_of, has_members, is_parameter, own_attributes, stands_alone};
use crate::initial::initial_fits;
use pli_declare::above::level_of;
use pli_declare::scope::{Declaration, Held};
use pli_language::declaration::Attribute;
use pli_language::expr::Name;

/// The level is 0, or there is nothing of smaller level before the variable that it could belong to.
fn level_is_bad(held: &Held) -> bool
    ensures { result ≡ level_is_bad (held_of held.now) }
{
    let level = level_of(held.variable);
    level == 0 || (level > 1 && stands_alone(held))
}

/// BUILTIN is said of a structure, of an array or of a name that is no built-in.
fn builtin_is_bad(held: &Held, after: &[Declaration]) -> bool
    ensures { result ≡ builtin_is_bad (held_of held.now) (map declaration_of after.now) }
{
    has(Row::Builtin, own_attributes(held))
        && (has_members(held, after)
            || dimensions_of(held.variable) > 0
            || !is_builtin(held.variable.declared.name.word))
}

/// Dimensions stand behind the name and behind its list.
fn dimensions_are_bad(held: &Held) -> bool
    ensures { result ≡ dimensions_are_bad (held_of held.now) }
{
    held.variable.declared.dimensions.len() > 0 && held.variable.item.dimensions.len() > 0
}

/// A storage class stands below level 1.
fn class_is_bad(held: &Held) -> bool
    ensures { result ≡ class_is_bad (held_of held.now) }
{
    level_of(held.variable) > 1 && has_class(own_attributes(held))
}

/// A parameter has a storage class, or it or its part INITIAL.
fn parameter_is_bad(parameters: &[Name], held: &Held) -> bool
    ensures { result ≡ parameter_is_bad (map name_of parameters.now) (held_of held.now) }
{
    let attributes = own_attributes(held);
    is_parameter(parameters, held)
        && ((stands_alone(held) && has_class(attributes)) || has(Row::Initial, attributes))
}

/// A structure has a kind, VARYING or INITIAL.
fn structure_is_bad(held: &Held) -> bool
    ensures { result ≡ structure_is_bad (held_of held.now) }
{
    let attributes = own_attributes(held);
    has_kind(attributes) || has(Row::Varying, attributes) || has(Row::Initial, attributes)
}

/// A value of INITIAL is of another kind than these name, or doesn't fit it.
fn misfits(attributes: &[Attribute]) -> bool
    ensures { result ≡ misfits (map attribute_of attributes.now) }
{
    attributes.iter().any(|a| !initial_fits(attributes, a))
}

/// A variable has no kind, and its name gives it none.
fn is_kindless(held: &Held) -> bool
    ensures { result ≡ is_kindless (held_of held.now) }
{
    let attributes = own_attributes(held);
    !has_kind(attributes)
        && !has(Row::Builtin, attributes)
        && !is_number_name(&held.variable.declared.name.letters)
}

/// A variable without members has no kind, or INITIAL of another one.
fn leaf_is_bad(held: &Held) -> bool
    ensures { result ≡ leaf_is_bad (held_of held.now) }
{
    is_kindless(held) || misfits(own_attributes(held))
}

/// A variable's kind is bad.
fn kind_is_bad(held: &Held, after: &[Declaration]) -> bool
    ensures { result ≡ (if has_members (held_of held.now) (map declaration_of after.now) then structure_is_bad (held_of held.now) else leaf_is_bad (held_of held.now)) }
{
    if has_members(held, after) {
        structure_is_bad(held)
    } else {
        leaf_is_bad(held)
    }
}

/// The attributes of a variable are bad.
pub fn attributes_are_bad(parameters: &[Name], held: &Held, after: &[Declaration]) -> bool
    ensures { result ≡ attributes_are_bad (map name_of parameters.now) (held_of held.now) (map declaration_of after.now) }
{
    level_is_bad(held)
        || attributes_clash(own_attributes(held))
        || builtin_clash(own_attributes(held))
        || builtin_is_bad(held, after)
        || dimensions_are_bad(held)
        || class_is_bad(held)
        || parameter_is_bad(parameters, held)
        || kind_is_bad(held, after)
}

/// An area is an array, a member, BASED or CONTROLLED.
pub fn area_is_nested(held: &Held) -> bool
    ensures { result ≡ area_is_nested (held_of held.now) }
{
    let attributes = own_attributes(held);
    has(Row::Area, attributes)
        && (!stands_alone(held)
            || dimensions_of(held.variable) > 0
            || has(Row::Controlled, attributes)
            || has(Row::Based, attributes))
}
