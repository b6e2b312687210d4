// Headlines of programs that read.
#![tactic(auto)]

pub mod laws;
