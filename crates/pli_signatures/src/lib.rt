// The signatures of a run by their numbers: those of the image's table, and those that the run fills in.
#![tactic(auto)]

mod copying;
pub mod element;
mod equality;
pub mod filling;
pub mod in_force;
mod reading;
pub mod signatures;
pub mod size;
#[cfg(test)]
mod tests;
mod whole;
