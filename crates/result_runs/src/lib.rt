// Functions that return numbers of fewer bits, or bits.
#![tactic(auto)]

pub mod laws;
