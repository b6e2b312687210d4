// The data that code names, each as its bytes: INITIAL values, places of extents, format lists, shapes.
#![tactic(auto)]

mod bytes;
pub mod formats;
pub mod initial;
pub mod places;
pub mod shape;
#[cfg(test)]
mod tests;
