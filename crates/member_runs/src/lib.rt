//! Members of BASED structures, through POINTER variables: numbers that are read and assigned (`member_read`,
//! `member_assigned`), names that are followed and linked (`member_followed`, `member_linked`), and ALLOCATE of them
//! (`structure_allocated`).
#![tactic(auto)]

pub mod laws;
