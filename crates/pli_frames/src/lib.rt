// Where a block's frame has what.
#![tactic(auto)]

pub mod body;
pub mod fixed;
pub mod forms;
pub mod frame;
pub mod plan;
pub mod size;
pub mod taken;
pub mod temporaries;
#[cfg(test)]
mod tests;
pub mod turns;
