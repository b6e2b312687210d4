// The variable of level 1 that a variable is or belongs to.

ghost use Rattle.std.specs.Prelude.{◌≡◌, ◌-◌, map, slice_get, unwrap_or, [], IfOk};
ghost use Rattle.pli_language.specs.Declaring.{names_of};
ghost use Rattle.pli_typing.specs.TypedView.{class_of as class_typed, variable_of as variable_typed};
ghost use Rattle.pli_typing.specs.Variables.{begins_at, class_of, index_where, root_place};
ghost use Rattle.pli_language.specs.View.{attribute_of, name_of, option_of};
ghost use Rattle.pli_declare.specs.Shown.{held_of, what_of};
ghost use Rattle.pli_declare.specs.ShownBlocks.{block_of};
ghost use Rattle.pli_variables.specs.Held.{groups_held};
ghost use Rattle.pli_variables.specs.Order.{are_in_order};
ghost use Rattle.pli_variables.specs.Rows.{row_shown, variable_among, variable_in};

use crate::members::is_at;
use crate::order::{are_in_order, likely};
use pli_declare::scope::{Block, Held, What};
use pli_declaring::attribute::{Row, has};
use pli_declaring::held::{is_parameter, root_of};
use pli_language::declaration::Attribute;
use pli_language::expr::{Name, Place};
use pli_typing::typed::{StorageClass, Variable};
use std::alloc::{AllocError, Global};

/// The variable of level 1 that is declared at this place.
fn begins_at(place: Place, members: &[Held]) -> bool
    ensures { result ≡ begins_at place (map held_of members.now) }
{
    match members.first() {
        Some(first) => is_at(place, first),
        None => false,
    }
}

/// Which of these variables of level 1 is declared at a place.
#[tactic(auto, using(crate::proofs::Amounts::found))]
fn index_at(groups: &[Vec<Held>], place: Place) -> usize
    ensures { result ≡ index_where (begins_at place) (groups_held groups.now) }
{
    for (i, members) in groups.iter().enumerate() {
        if begins_at(place, members) {
            return i;
        }
    }
    groups.len()
}

/// Which of these variables of level 1 a variable is or belongs to.
#[tactic(auto, using(crate::proofs::Ordered::found_in_order))]
fn index_of_variable(groups: &[Vec<Held>], in_order: bool, held: &Held) -> usize
    requires { in_order ≡ are_in_order (groups_held groups.now) }
    ensures { result ≡ index_where (begins_at (root_place (held_of held.now))) (groups_held groups.now) }
{
    let place = root_of(held).declared.name.place;
    if in_order {
        let index = likely(place, groups);
        if begins_at(place, members_at(groups, index)) {
            return index;
        }
    }
    index_at(groups, place)
}

/// The storage class of a variable of level 1 with these attributes, or of its members.
fn class_of(parameters: &[Name], held: &Held, attributes: &[Attribute]) -> StorageClass
    ensures { class_typed result ≡ class_of (map name_of parameters.now) (held_of held.now) (map attribute_of attributes.now) }
{
    if is_parameter(parameters, held) {
        StorageClass::Parameter
    } else if has(Row::Static, attributes) {
        StorageClass::Static
    } else if has(Row::Controlled, attributes) {
        StorageClass::Controlled
    } else if has(Row::Based, attributes) {
        StorageClass::Based
    } else {
        StorageClass::Automatic
    }
}

/// The names of a block's parameters.
pub fn parameters_of<'a>(block: &Block<'a>) -> &'a [Name]
    ensures { map name_of result.now ≡ names_of (block_of block.now).head }
{
    if let Some(head) = block.head {
        return &head.parameters;
    }
    &[]
}

/// The variable of level 1 that a variable is or belongs to, where its block has this number and declares these.
pub fn variable_among(
    block: &Block,
    number: usize,
    groups: &[Vec<Held>],
    in_order: bool,
    held: &Held,
) -> Variable
    requires { in_order ≡ are_in_order (groups_held groups.now) }
    ensures { variable_typed result ≡ variable_among (block_of block.now) number (groups_held groups.now) (held_of held.now) }
{
    Variable {
        class: class_of(parameters_of(block), held, &root_of(held).item.attributes),
        block: number,
        level: block.around.len().saturating_sub(2),
        index: index_of_variable(groups, in_order, held),
    }
}

/// The same, of what is declared.
fn variable_in(
    block: &Block,
    number: usize,
    groups: &[Vec<Held>],
    in_order: bool,
    what: &What,
) -> Option<Variable>
    requires { in_order ≡ are_in_order (groups_held groups.now) }
    ensures { option_of variable_typed result ≡ variable_in (block_of block.now) number (groups_held groups.now) (what_of what.now) }
{
    match what {
        What::Variable(held) => Some(variable_among(block, number, groups, in_order, held)),
        What::Label => None,
        What::Procedure(_) => None,
    }
}

/// The variables of level 1 that a block's declarations are or belong to.
#[tactic(auto, using(crate::proofs::Grouping::groups))]
pub fn variables_among(
    alloc: Global,
    block: &Block,
    number: usize,
    groups: &[Vec<Held>],
) -> Result<Vec<Option<Variable>>, AllocError>
    ensures { IfOk result (λ v. row_shown v.items ≡ map (λ d. variable_in (block_of block.now) number (groups_held groups.now) d.what) (block_of block.now).declarations) }
{
    let in_order = are_in_order(groups);
    let mut out = Vec::new(alloc);
    for declaration in &block.names.declarations {
        out.push(variable_in(block, number, groups, in_order, &declaration.what))?;
    }
    Ok(out)
}

/// One of these variables of level 1 with its members, or nothing.
pub fn members_at<'a, 'b>(groups: &'b [Vec<Held<'a>>], index: usize) -> &'b [Held<'a>]
    ensures { map held_of result.now ≡ unwrap_or (slice_get (groups_held groups.now) index) [] }
{
    if index < groups.len() {
        return &groups[index];
    }
    &[]
}
