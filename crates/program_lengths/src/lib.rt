// How long the code of whole programs is by the tokens of their sources, in laws: each function's contract is one law,
// and calling it does nothing.
#![tactic(auto)]

pub mod laws;
