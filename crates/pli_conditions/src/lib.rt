// On-units of the blocks that are entered: what ON and REVERT change, and which unit is in force.
#![tactic(auto)]

mod block;
pub mod fault;
#[cfg(test)]
mod tests;
pub mod units;
