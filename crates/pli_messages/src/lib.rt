// What is told of refusals, errors and limits beyond their fixed lines.
#![tactic(auto)]

pub mod advice;
pub mod explain;
pub mod farthest;
pub mod message;
pub mod ordinary;
pub mod place;
#[cfg(test)]
mod tests;
pub mod topic;
