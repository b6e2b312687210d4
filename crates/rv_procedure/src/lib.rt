// The code of procedures, and of the routines that evaluate the extents of variables which ALLOCATE makes.
#![tactic(auto)]

mod ending;
pub mod procedure;
pub mod routine;
