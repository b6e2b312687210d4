// Procedures and functions whose own units change on their way, and the blocks of their units, wherever these are raised.
#![tactic(auto)]

pub mod laws;
