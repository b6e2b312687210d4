//! Whole areas among the statements of a block: EMPTY (`areas_emptied`) and the assignment of one area variable to
//! another (`areas_copied`), as the storage machine has them, with services 13 and 12.
#![tactic(auto)]

pub mod laws;
