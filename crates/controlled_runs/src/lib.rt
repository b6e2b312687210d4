//! ALLOCATE and FREE of CONTROLLED numbers at points at which the services' lists of generations are the storage
//! machine's (`controlled_allocated`, `controlled_freed`), and programs of them (`listed_programs_run`).
#![tactic(auto)]

pub mod laws;
