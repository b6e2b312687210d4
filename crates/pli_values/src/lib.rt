// Names, values, INITIAL values and generations as they begin, places of extents, and subscripts, in a machine's memory. Memory is
// its bytes, an address a place among them.
#![tactic(auto)]

pub mod begun;
pub mod element;
pub mod generation;
pub mod initial;
pub mod laws;
pub mod layout;
pub mod leaf_items;
pub mod lists;
pub mod name;
pub mod places;
pub mod source;
pub mod subscripts;
#[cfg(test)]
mod tests;
pub mod word;
