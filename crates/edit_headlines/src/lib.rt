// Headlines of programs that write.
#![tactic(auto)]

pub mod laws;
