// Variables with extents that are evaluated when their block is entered.
#![tactic(auto)]

pub mod laws;
