// Worked rows of arrays whose bounds are evaluated.
#![tactic(auto)]

pub mod laws;
