// Calls on an area of any keeper, and that the three keepers answer them alike.
#![tactic(auto)]

pub mod area;
pub mod draws;
#[cfg(test)]
mod tests;
