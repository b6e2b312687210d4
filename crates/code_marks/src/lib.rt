// Which symbols the code of typed trees marks, in laws: each function's contract is one law, and calling it does
// nothing.
#![tactic(auto)]

pub mod laws;
