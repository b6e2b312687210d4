// The bytes of a machine's memory, in three parts.
#![tactic(auto)]

pub mod bytes;
pub mod storage;
#[cfg(test)]
mod tests;
