// Whether the variables of level 1 of a block stand in source order, and the members of each, so that one is found by its place at once.

ghost use Rattle.std.specs.Prelude.{◌≡◌, map};
ghost use Rattle.pli_typing.specs.Variables.{stands_before};
ghost use Rattle.pli_declare.specs.Shown.{held_of};
ghost use Rattle.pli_variables.specs.Held.{groups_held};
ghost use Rattle.pli_variables.specs.Order.{ahead_of_next, ahead_of_rest, all_ascend, are_in_order, ascend, begins_ahead, is_ahead};

use pli_declare::scope::Held;
use pli_language::expr::Place;

/// The first place stands before the second.
fn stands_before(first: Place, second: Place) -> bool
    ensures { result ≡ stands_before first second }
{
    if first.line == second.line {
        first.column < second.column
    } else {
        first.line < second.line
    }
}

/// The variable is declared before the first of these.
fn is_ahead(held: &Held, next: &[Held]) -> bool
    ensures { result ≡ is_ahead (held_of held.now) (map held_of next.now) }
{
    match next {
        [first, ..] => stands_before(
            held.variable.declared.name.place,
            first.variable.declared.name.place,
        ),
        [] => false,
    }
}

/// The first of the one list is declared before that of the other.
fn begins_ahead(members: &[Held], next: &[Held]) -> bool
    ensures { result ≡ begins_ahead (map held_of members.now) (map held_of next.now) }
{
    match members {
        [held, ..] => is_ahead(held, next),
        [] => false,
    }
}

/// The variable of level 1 is declared before the first of these.
fn ahead_of_next(members: &[Held], groups: &[Vec<Held>]) -> bool
    ensures { result ≡ ahead_of_next (map held_of members.now) (groups_held groups.now) }
{
    match groups {
        [next, ..] => begins_ahead(members, next),
        [] => true,
    }
}

/// Each of these variables of level 1 is declared before the next.
#[tactic(auto, using(crate::proofs::Ordered::order))]
pub fn are_in_order(groups: &[Vec<Held>]) -> bool
    ensures { result ≡ are_in_order (groups_held groups.now) }
{
    for (i, members) in groups.iter().enumerate() {
        if !ahead_of_next(members, &groups[i + 1..]) {
            return false;
        }
    }
    true
}

/// Which of these variables of level 1 is declared at a place, where they stand in source order and one is.
pub fn likely(place: Place, groups: &[Vec<Held>]) -> usize {
    groups.partition_point(|members| match members.first() {
        Some(held) => stands_before(held.variable.declared.name.place, place),
        None => false,
    })
}

/// The variable is declared before the one that stands next, if one does.
fn ahead_of_rest(held: &Held, next: &[Held]) -> bool
    ensures { result ≡ ahead_of_rest (held_of held.now) (map held_of next.now) }
{
    next.is_empty() || is_ahead(held, next)
}

/// Each of these is declared before the next.
#[tactic(auto, using(crate::proofs::Ascending::order))]
fn ascend(all: &[Held]) -> bool
    ensures { result ≡ ascend (map held_of all.now) }
{
    for (i, held) in all.iter().enumerate() {
        if !ahead_of_rest(held, &all[i + 1..]) {
            return false;
        }
    }
    true
}

/// The members of each of these variables of level 1 are declared one before the next.
pub fn all_ascend(groups: &[Vec<Held>]) -> bool
    ensures { result ≡ all_ascend (groups_held groups.now) }
{
    groups.iter().all(|members| ascend(members))
}

/// Which of these is declared at a place, where they stand in source order and one is.
pub fn likely_member(place: Place, all: &[Held]) -> usize {
    all.partition_point(|held| stands_before(held.variable.declared.name.place, place))
}
