// Calls from further in: of what a block around declares, and those that pass a limit, of blocks or of variables.
#![tactic(auto)]

pub mod laws;
