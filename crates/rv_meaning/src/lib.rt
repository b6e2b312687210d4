// Instructions, the machine that carries them out, and images, with their laws.
#![tactic(auto)]

pub mod image;
pub mod instr;
pub mod laws;
