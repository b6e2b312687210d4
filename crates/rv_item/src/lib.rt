// Fields of GET and PUT by the data items of format lists, and elements of aggregates by their numbers.
#![tactic(auto)]

pub mod branch;
pub mod distance;
mod element;
pub mod elements;
pub mod field;
pub mod fields;
mod fitting;
pub mod kinds;
pub mod moved;
pub mod putting;
pub mod shown;
pub mod taking;
pub mod text;
pub mod turns;
