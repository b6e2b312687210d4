// What a run's storage holds beside areas: the variables that live, by their serials, and the generations of CONTROLLED variables.
#![tactic(auto)]

pub mod controlled;
pub mod fault;
pub mod roots;
#[cfg(test)]
mod tests;
