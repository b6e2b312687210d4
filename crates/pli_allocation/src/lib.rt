// Generations of variables in areas and in the heap: where one is placed, what its REFER member tells, and where one ends.
#![tactic(auto)]

pub mod allocating;
pub mod beginning;
mod extents;
pub mod heap;
pub mod placing;
pub mod popping;
pub mod referring;
pub mod starting;
mod told;
pub mod whole;
