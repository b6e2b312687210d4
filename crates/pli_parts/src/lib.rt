// Parts of aggregates: what is found of them, what is taken of them onto the stack, and what is put into them from there.
#![tactic(auto)]

mod again;
mod gathering;
pub mod leaf;
mod matching;
pub mod part;
pub mod putting;
mod storing;
pub mod taking;
#[cfg(test)]
mod tests;
