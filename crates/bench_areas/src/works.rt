// What is done with areas: the list of a program, calls at random, gaps that are too small, and copies.

ghost use Rattle.std.specs.Prelude.{◌≡◌, ◌≤◌, ◌%◌, IsSome, IfOk};
ghost use Rattle.area_keeper.specs.KeeperLaws.{greatest_capacity};

use area_calls::area::{copy, empty, empty_area, free, is_found, place};
use area_calls::draws::Draws;
use area_heap::keeper::AreaKeeper;
use std::alloc::{AllocError, Global};

/// The capacity of the areas of a program that builds lists.
pub const OF_LISTS: u32 = 60_000;

const LINK: u32 = 8;

const LINKS: u32 = 1_000;

const SLOTS: u32 = 8_192;

const GREATEST: u32 = 97;

const CELL: u32 = 16;

/// How often a work is done, and whether the bytes are opened before each call.
#[derive(Clone, Copy)]
pub struct Turns {
    pub count: u32,
    pub opened: bool,
}

/// A sum that tells answers from others.
fn joined(answers: u64, answer: u64) -> u64 {
    answers.wrapping_mul(31).wrapping_add(answer)
}

/// The areas that a work is done with.
#[derive(Drop)]
pub struct Areas {
    pub first: Vec<u8>,
    pub second: Vec<u8>,
}

impl Areas {
    /// Two empty areas of a capacity.
    pub fn new<K: AreaKeeper>(alloc: Global, capacity: u32) -> Result<Areas, AllocError>
        requires rounded { capacity % 16 ≡ 0 }
        requires bounded { capacity ≤ greatest_capacity }
        ensures { IfOk result (λ areas. IsSome (K.keeper.area_of areas.first.items)
            × IsSome (K.keeper.area_of areas.second.items)) }
    {
        let first = empty_area::<K>(alloc, capacity)?;
        let second = empty_area::<K>(alloc, capacity)?;
        Ok(Areas { first, second })
    }
}

/// A link is placed, and found for its number and for what it leads to.
fn add_link<K: AreaKeeper>(area: &mut [u8], opened: bool) -> u64
    requires { IsSome (K.keeper.area_of area.old) }
    ensures { IsSome (K.keeper.area_of area.new) }
{
    let Some(offset) = place::<K>(area, LINK, opened) else {
        return 1;
    };
    let is_numbered = is_found::<K>(area, offset, opened);
    let is_linked = is_found::<K>(area, offset, opened);
    u64::from(offset) + u64::from(is_numbered && is_linked)
}

/// A link is found for its number and for what it leads to.
fn walk_link<K: AreaKeeper>(area: &[u8], number: u32, opened: bool) -> u64
    requires { IsSome (K.keeper.area_of area.now) }
{
    let offset = number.wrapping_mul(32);
    let is_numbered = is_found::<K>(area, offset, opened);
    let is_linked = is_found::<K>(area, offset, opened);
    u64::from(is_numbered && is_linked)
}

/// A list is built in an area, the area assigned whole, and the list walked in the copy.
pub fn list<K: AreaKeeper>(areas: &mut Areas, turns: Turns) -> u64
    requires first { IsSome (K.keeper.area_of areas.old.first.items) }
    requires second { IsSome (K.keeper.area_of areas.old.second.items) }
{
    let built = areas.first.as_mut_slice();
    let walked = areas.second.as_mut_slice();
    let mut answers = 0;
    'turns: for _turn in 0..turns.count {
        empty::<K>(built, turns.opened);
        'build: for _number in 0..LINKS {
            answers = joined(answers, add_link::<K>(built, turns.opened));
        }
        answers = joined(answers, u64::from(copy::<K>(walked, built, turns.opened)));
        'walk: for number in 0..LINKS {
            answers = joined(answers, walk_link::<K>(walked, number, turns.opened));
        }
    }
    answers
}

/// What is in a slot is freed; in one with nothing some bytes are placed.
fn draw_call<K: AreaKeeper>(
    area: &mut [u8],
    slot: Option<u32>,
    size: u32,
    opened: bool,
) -> Option<u32>
    requires { IsSome (K.keeper.area_of area.old) }
    ensures { IsSome (K.keeper.area_of area.new) }
{
    match slot {
        Some(offset) => {
            if free::<K>(area, offset, opened) {
                None
            } else {
                Some(offset)
            }
        }
        None => place::<K>(area, size, opened),
    }
}

/// Generations of several sizes are placed and freed in no order.
pub fn at_random<K: AreaKeeper>(
    alloc: Global,
    areas: &mut Areas,
    turns: Turns,
) -> Result<u64, AllocError>
    requires { IsSome (K.keeper.area_of areas.old.first.items) }
{
    let area = areas.first.as_mut_slice();
    let mut slots: Vec<Option<u32>> = vec![in alloc; None; SLOTS as usize]?;
    let mut draws = Draws::new();
    let mut answers = 0;
    'turns: for _turn in 0..turns.count {
        let drawn = draws.below(SLOTS) as usize;
        let size = draws.below(GREATEST);
        let slot = slots.get(drawn).copied().unwrap_or(None);
        let held = draw_call::<K>(area, slot, size, turns.opened);
        if let Some(place) = slots.get_mut(drawn) {
            *place = held;
        }
        answers = joined(answers, u64::from(held.unwrap_or(1)));
    }
    Ok(answers)
}

/// An area is filled with cells, and each other one is freed.
pub fn fragment<K: AreaKeeper>(area: &mut [u8], capacity: u32)
    requires { IsSome (K.keeper.area_of area.old) }
    ensures { IsSome (K.keeper.area_of area.new) }
{
    'fill: for _cell in 0..capacity / 32 {
        place::<K>(area, CELL, false);
    }
    'free: for pair in 0..capacity / 64 {
        free::<K>(area, pair * 64, false);
    }
}

/// In the fragmented area a size is asked for that no gap has; a cell is placed, and freed again; and one is found.
pub fn in_gaps<K: AreaKeeper>(areas: &mut Areas, capacity: u32, turns: Turns) -> u64
    requires { IsSome (K.keeper.area_of areas.old.first.items) }
{
    let area = areas.first.as_mut_slice();
    let mut draws = Draws::new();
    let mut answers = 0;
    'turns: for _turn in 0..turns.count {
        let large = place::<K>(area, CELL + 1, turns.opened);
        let pair = draws.below(capacity / 64);
        let offset = pair.wrapping_mul(64).wrapping_add(32);
        let is_found = is_found::<K>(area, offset, turns.opened);
        let is_freed = free::<K>(area, offset, turns.opened);
        let small = place::<K>(area, CELL, turns.opened);
        answers = joined(answers, u64::from(large.is_some()));
        answers = joined(answers, u64::from(is_found && is_freed));
        answers = joined(answers, u64::from(small.unwrap_or(1)));
    }
    answers
}

/// The fragmented area is assigned to another.
pub fn copies<K: AreaKeeper>(areas: &mut Areas, turns: Turns) -> u64
    requires first { IsSome (K.keeper.area_of areas.old.first.items) }
    requires second { IsSome (K.keeper.area_of areas.old.second.items) }
    ensures first { IsSome (K.keeper.area_of areas.new.first.items) }
{
    let from = areas.first.as_slice();
    let to = areas.second.as_mut_slice();
    let mut answers = 0;
    'turns: for _turn in 0..turns.count {
        answers = joined(answers, u64::from(copy::<K>(to, from, turns.opened)));
        answers = joined(answers, u64::from(is_found::<K>(to, 32, turns.opened)));
    }
    answers
}
