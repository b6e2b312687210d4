// INITIAL values of programs, told of their static data.
#![tactic(auto)]

pub mod laws;
