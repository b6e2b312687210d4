// The elements of aggregates by their numbers, in the order in which GET and PUT go through them.
#![tactic(auto)]

pub mod counts;
pub mod find;
pub mod note;
pub mod notes;
pub mod rows;
#[cfg(test)]
mod tests;
mod turn;
pub mod walk;
