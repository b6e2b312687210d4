// ERROR while a unit of the program is in force for it: its unit runs, and the run ends behind it unless that jumps.
#![tactic(auto)]

pub mod laws;
