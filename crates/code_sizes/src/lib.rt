// How many words the code of typed trees has at most, in laws: each function's contract is one law, and calling it does
// nothing.
#![tactic(auto)]

pub mod laws;
