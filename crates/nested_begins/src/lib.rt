// BEGIN blocks in blocks of any depth: the limits that they may pass, and what is known in them.
#![tactic(auto)]

pub mod laws;
