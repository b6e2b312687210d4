// The services of images over the parts that they keep, as far as they stand: acts, the end of a run, on-units, raises, and blocks
// that are entered.
#![tactic(auto)]

pub mod blocks;
pub mod flow;
pub mod shown;
#[cfg(test)]
mod tests;
