//! The headline of programs that allocate and free CONTROLLED numbers (`listed_headlines_kept`), and of a worked row
//! (`stack_kept`).
#![tactic(auto)]

pub mod laws;
