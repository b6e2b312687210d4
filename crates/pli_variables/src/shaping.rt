// How the shapes of what a block declares are made.

ghost use Rattle.std.specs.Prelude.{◌≡◌, ◌-◌, true, [], map, slice_get, unwrap_or, IfOk};
ghost use Rattle.pli_typing.specs.TypedView.{leaf_of as leaf_typed, part_of as part_typed, variable_of as variable_typed};
ghost use Rattle.pli_language.specs.View.{option_of};
ghost use Rattle.pli_declare.specs.Shown.{held_of, what_of};
ghost use Rattle.pli_variables.specs.Held.{groups_held};
ghost use Rattle.pli_typing.specs.Variables.{from_place};
ghost use Rattle.pli_variables.specs.Counts.{count_at, part_between};
ghost use Rattle.pli_variables.specs.Order.{all_ascend, ascend};
ghost use Rattle.pli_variables.specs.ShownShapes.{counts_shown, home_of, leaves_shown, shape_among, shape_found, shape_given, shape_of, shape_with, shapes_shown, whole_given};

use crate::home::Home;
use crate::leaf::count_of_dimensions;
use crate::leaves::Leaves;
use crate::members::{from_place, is_at, with_members};
use crate::order::likely_member;
use crate::shape::Shape;
use crate::variable::{members_at, variable_among};
use pli_declare::scope::{Held, What};
use pli_declaring::held::stands_alone;
use pli_language::expr::Place;
use pli_typing::typed::{Leaf, Part, Variable};
use std::alloc::{AllocError, Global};
use std::rc::Rc;

/// How many leaves stand from this member on.
fn count_at(counts: &[usize], index: usize) -> usize
    ensures { result ≡ count_at counts.now index }
{
    match counts.get(index) {
        Some(count) => *count,
        None => 0,
    }
}

/// The part that the members are that stand from one place to another.
fn part_between(counts: &[usize], from: usize, to: usize) -> Part
    ensures { part_typed result ≡ part_between counts.now from to }
{
    let left = count_at(counts, from);
    Part {
        first: count_at(counts, 0).saturating_sub(left),
        count: left.saturating_sub(count_at(counts, to)),
    }
}

/// Those from the one on that is declared at this place, which is found at once where they stand in source order.
#[tactic(auto, using(crate::proofs::Ascending::found_ascending))]
fn found_from<'a, 'b>(place: Place, all: &'b [Held<'a>], in_order: bool) -> &'b [Held<'a>]
    requires { in_order ≡ true → ascend (map held_of all.now) ≡ true }
    ensures { map held_of result.now ≡ from_place place (map held_of all.now) }
{
    if in_order {
        let index = likely_member(place, all);
        if index < all.len() && is_at(place, &all[index]) {
            return &all[index..];
        }
    }
    from_place(place, all)
}

/// The shape of a variable that belongs to this one of level 1, which has these members and leaves.
fn shape_with<'a>(
    variable: Variable,
    all: &[Held<'a>],
    in_order: bool,
    counts: &[usize],
    group: Rc<Vec<Leaf<'a>>>,
    held: &Held,
) -> Result<Shape<'a>, AllocError>
    requires { in_order ≡ true → ascend (map held_of all.now) ≡ true }
    ensures { IfOk result (λ s. shape_of s ≡ shape_with (variable_typed variable) (map held_of all.now) counts.now (map leaf_typed group.entry.value.items) (held_of held.now)) }
{
    let from = found_from(held.variable.declared.name.place, all, in_order);
    let index = all.len().saturating_sub(from.len());
    let size = with_members(from).len();
    Ok(Shape {
        variable,
        part: part_between(counts, index, index + size),
        group,
        dimensions: count_of_dimensions(held)?,
        has_members: size > 1,
        is_alone: stands_alone(held),
    })
}

/// The shape of a variable that belongs to this one of level 1, which is one of these.
#[tactic(auto, using(crate::proofs::Ascending::group_ascends))]
fn shape_found<'a>(
    alloc: Global,
    variable: Variable,
    groups: &[Vec<Held<'a>>],
    in_order: bool,
    leaves: &[Leaves<'a>],
    held: &Held,
) -> Result<Shape<'a>, AllocError>
    requires { in_order ≡ all_ascend (groups_held groups.now) }
    ensures { IfOk result (λ s. shape_of s ≡ shape_found (variable_typed variable) (groups_held groups.now) (counts_shown leaves.now) (leaves_shown leaves.now) (held_of held.now)) }
{
    let all = members_at(groups, variable.index);
    match leaves.get(variable.index) {
        Some(found) => shape_with(
            variable,
            all,
            in_order,
            &found.counts,
            found.all.clone()?,
            held,
        ),
        None => shape_with(
            variable,
            all,
            in_order,
            &[],
            Rc::new(alloc, Vec::new(alloc))?,
            held,
        ),
    }
}

/// The shape of a variable of this block.
fn shape_among<'a>(alloc: Global, home: &Home<'_, 'a>, held: &Held) -> Result<Shape<'a>, AllocError>
    ensures { IfOk result (λ s. shape_of s ≡ shape_among (home_of home.now) (held_of held.now)) }
{
    let variable = variable_among(home.block, home.number, &home.groups, home.in_order, held);
    shape_found(
        alloc,
        variable,
        &home.groups,
        home.members_in_order,
        &home.leaves,
        held,
    )
}

/// The shape of what is declared, if it is a variable.
fn shape_given<'a>(
    alloc: Global,
    home: &Home<'_, 'a>,
    what: &What,
) -> Result<Option<Shape<'a>>, AllocError>
    ensures { IfOk result (λ s. option_of shape_of s ≡ shape_given (home_of home.now) (what_of what.now)) }
{
    match what {
        What::Variable(held) => Ok(Some(shape_among(alloc, home, held)?)),
        What::Label => Ok(None),
        What::Procedure(_) => Ok(None),
    }
}

/// The shape of a variable of level 1, which is the first of these.
fn whole_given<'a>(
    alloc: Global,
    home: &Home<'_, 'a>,
    members: &[Held],
) -> Result<Option<Shape<'a>>, AllocError>
    ensures { IfOk result (λ s. option_of shape_of s ≡ whole_given (home_of home.now) (map held_of members.now)) }
{
    match members {
        [held, ..] => Ok(Some(shape_among(alloc, home, held)?)),
        [] => Ok(None),
    }
}

/// The shapes of this block's declarations.
#[tactic(auto, using(crate::proofs::Grouping::groups))]
pub fn shapes_given<'a>(
    alloc: Global,
    home: &Home<'_, 'a>,
) -> Result<Vec<Option<Shape<'a>>>, AllocError>
    ensures { IfOk result (λ v. shapes_shown v.items ≡ map (λ d. shape_given (home_of home.now) d.what) (home_of home.now).block.declarations) }
{
    let mut out = Vec::new(alloc);
    for declaration in &home.block.names.declarations {
        out.push(shape_given(alloc, home, &declaration.what)?)?;
    }
    Ok(out)
}

/// The shapes of this block's variables of level 1.
#[tactic(auto, using(crate::proofs::Grouping::groups))]
pub fn wholes_given<'a>(
    alloc: Global,
    home: &Home<'_, 'a>,
) -> Result<Vec<Option<Shape<'a>>>, AllocError>
    ensures { IfOk result (λ v. shapes_shown v.items ≡ map (whole_given (home_of home.now)) (home_of home.now).groups) }
{
    let mut out = Vec::new(alloc);
    for members in &home.groups {
        out.push(whole_given(alloc, home, members)?)?;
    }
    Ok(out)
}
