// What is open around the token that is read in a format list.

use pli_language::expr::Place;
use pli_language::stmt::{Format, Formats};

/// An item with its place and its repetition.
#[derive(Drop)]
pub struct Item {
    pub place: Place,
    pub repetition: u64,
    pub format: Format,
}

/// A list around the one that is read: the items before that one, and where and how often that one stands.
#[derive(Drop)]
pub struct Outer {
    pub items: Vec<Item>,
    pub place: Place,
    pub repetition: u64,
}

/// Whether an item is due, the items of the list that is read, the lists around it with the innermost last, and whether
/// an item so far moves data.
#[derive(Drop)]
pub struct State {
    pub is_due: bool,
    pub items: Vec<Item>,
    pub outer: Vec<Outer>,
    pub moves_data: bool,
}

/// What a turn leads to: a further one, or the end of the whole list.
#[derive(Drop)]
pub enum Turn {
    On(State),
    Closed { formats: Formats, moves_data: bool },
}
