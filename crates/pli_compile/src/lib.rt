// Compiles a source to its image, or says why it is refused.
#![tactic(auto)]

pub mod compile;
pub mod laws;
pub mod named;
mod parsed;
