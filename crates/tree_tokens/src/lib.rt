// How many tokens a source tree is spelled with at least, in laws: each function's contract is one law, and calling it
// does nothing.
#![tactic(auto)]

pub mod laws;
