// How long the code is of what a source says, by its tokens, in laws: each function's contract is one law, and calling
// it does nothing.
#![tactic(auto)]

pub mod laws;
