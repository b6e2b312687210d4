// How many words of a frame the expressions and statements of accepted sources take at most, and the laws that frames
// are small: each function's contract is one law, and calling it does nothing.
#![tactic(auto)]

pub mod laws;
