// The variables of level 1 that a block declares, each with its members.

ghost use Rattle.std.specs.Prelude.{◌≡◌, ◌++◌, ◌∷◌, ◌≤◌, [], length, map, take, IfOk, OnOk};
ghost use Rattle.pli_typing.specs.Variables.{from_place, is_at, leaves_in, members_first, variable_then, variables_in, while_deeper, with_members};
ghost use Rattle.pli_language.specs.View.{option_of};
ghost use Rattle.pli_declare.specs.Shown.{declaration_of, held_of, what_of};
ghost use Rattle.pli_variables.specs.Held.{groups_held, is_leaf, member_in, root_in};
ghost use Rattle.pli_variables.specs.Counts.{counts_in};

use pli_declare::scope::{Declaration, Held, What};
use pli_declaring::attribute::{Row, has};
use pli_declaring::held::{is_deeper, own_attributes, stands_alone};
use pli_language::expr::Place;
use std::alloc::{AllocError, Global};

/// The variable, where it is a member of what stands before it.
fn member_in<'a, 'b>(what: &'b What<'a>) -> Option<&'b Held<'a>>
    ensures { option_of (λ h. held_of h.now) result ≡ member_in (what_of what.now) }
{
    match what {
        What::Variable(held) => { if stands_alone(held) { None } else { Some(held) } }
        What::Label => None,
        What::Procedure(_) => None,
    }
}

/// The same variable.
fn copied<'a>(held: &Held<'a>) -> Result<Held<'a>, AllocError>
    ensures { IfOk result (λ h. held_of h ≡ held_of held.now) }
{
    Ok(Held {
        variable: held.variable,
        above: held.above.shared()?,
    })
}

/// The members at the head of these declarations.
#[tactic(auto, using(crate::proofs::Grouping::groups))]
fn members_first<'a>(
    alloc: Global,
    declarations: &[Declaration<'a>],
) -> Result<Vec<Held<'a>>, AllocError>
    ensures { IfOk result (λ v. map held_of v.items ≡ members_first (map declaration_of declarations.now)) }
{
    let mut members = Vec::new(alloc);
    for declaration in declarations {
        match member_in(&declaration.what) {
            Some(held) => members.push(copied(held)?)?,
            None => return Ok(members),
        }
    }
    Ok(members)
}

/// A variable before its members, the first of these declarations.
fn with_first<'a>(
    alloc: Global,
    held: &Held<'a>,
    after: &[Declaration<'a>],
) -> Result<Vec<Held<'a>>, AllocError>
    ensures { IfOk result (λ v. map held_of v.items ≡ held_of held.now ∷ members_first (map declaration_of after.now)) }
{
    let mut members = members_first(alloc, after)?;
    members.insert(0, copied(held)?)?;
    Ok(members)
}

/// The variable of level 1, where it is one and no built-in.
fn root_in<'a, 'b>(what: &'b What<'a>) -> Option<&'b Held<'a>>
    ensures { option_of (λ h. held_of h.now) result ≡ root_in (what_of what.now) }
{
    match what {
        What::Variable(held) => {
            if stands_alone(held) && !has(Row::Builtin, own_attributes(held)) {
                Some(held)
            } else {
                None
            }
        }
        What::Label => None,
        What::Procedure(_) => None,
    }
}

/// The variable of level 1 that is declared, if one is, where these declarations stand behind it.
fn put_variable<'a>(
    alloc: Global,
    out: &mut Vec<Vec<Held<'a>>>,
    what: &What<'a>,
    after: &[Declaration<'a>],
) -> Result<(), AllocError>
    ensures { OnOk result (groups_held out.new.items ≡ groups_held out.old.items ++ variable_then (what_of what.now) (members_first (map declaration_of after.now)) []) }
{
    match root_in(what) {
        Some(held) => Ok(out.push(with_first(alloc, held, after)?)?),
        None => Ok(()),
    }
}

/// The variables of level 1 among these declarations, each before its members.
#[tactic(auto, using(crate::proofs::Grouping::groups))]
pub fn variables_in<'a>(
    alloc: Global,
    declarations: &[Declaration<'a>],
) -> Result<Vec<Vec<Held<'a>>>, AllocError>
    ensures { IfOk result (λ v. groups_held v.items ≡ variables_in (map declaration_of declarations.now)) }
{
    let mut out = Vec::new(alloc);
    for (i, declaration) in declarations.iter().enumerate() {
        put_variable(alloc, &mut out, &declaration.what, &declarations[i + 1..])?;
    }
    Ok(out)
}

/// The variable has no members, where these are declared next in its structure.
pub fn is_leaf(held: &Held, after: &[Held]) -> bool
    ensures { result ≡ is_leaf (held_of held.now) (map held_of after.now) }
{
    match after.first() {
        Some(next) => !is_deeper(held, next),
        None => true,
    }
}

/// How many have no members.
#[tactic(auto, using(crate::proofs::Grouping::leaves))]
pub fn count_of_leaves(all: &[Held]) -> usize
    ensures { result ≡ length (leaves_in (map held_of all.now)) }
{
    let mut count = 0;
    for (i, held) in all.iter().enumerate() {
        if is_leaf(held, &all[i + 1..]) {
            count += 1;
        }
    }
    count
}

/// How many leaves stand from each of these on.
#[tactic(auto, using(crate::proofs::Counts::counts))]
pub fn counts_in(alloc: Global, all: &[Held]) -> Result<Vec<usize>, AllocError>
    ensures { IfOk result (λ v. v.items ≡ counts_in (map held_of all.now)) }
{
    let mut counts = Vec::new(alloc);
    let mut left = count_of_leaves(all);
    for (i, held) in all.iter().enumerate() {
        counts.push(left)?;
        if is_leaf(held, &all[i + 1..]) {
            left = left.saturating_sub(1);
        }
    }
    Ok(counts)
}

/// The variable's name stands at this place.
pub fn is_at(place: Place, held: &Held) -> bool
    ensures { result ≡ is_at place (held_of held.now) }
{
    place == held.variable.declared.name.place
}

/// Those from the one on that is declared at this place.
#[tactic(auto, using(crate::proofs::Grouping::leaves))]
pub fn from_place<'a, 'b>(place: Place, all: &'b [Held<'a>]) -> &'b [Held<'a>]
    ensures { map held_of result.now ≡ from_place place (map held_of all.now) }
{
    for (i, held) in all.iter().enumerate() {
        if is_at(place, held) {
            return &all[i..];
        }
    }
    &[]
}

/// How many of these belong to the variable, from the first on.
#[tactic(auto, using(crate::proofs::Grouping::leaves))]
fn deeper(held: &Held, after: &[Held]) -> usize
    ensures value { map held_of (take result after.now) ≡ while_deeper (held_of held.now) (map held_of after.now) }
    ensures within { result ≤ length after.now }
{
    for (i, next) in after.iter().enumerate() {
        if !is_deeper(held, next) {
            return i;
        }
    }
    after.len()
}

/// The first of these with its members.
#[tactic(auto, using(crate::proofs::Grouping::leaves))]
pub fn with_members<'a, 'b>(from: &'b [Held<'a>]) -> &'b [Held<'a>]
    ensures { map held_of result.now ≡ with_members (map held_of from.now) }
{
    match from {
        [held, after @ ..] => &from[..deeper(held, after) + 1],
        [] => from,
    }
}
