// The code of ALLOCATE and FREE.
#![tactic(auto)]

pub mod allocation;
pub mod amounts;
pub mod freeing;
pub mod placing;
#[cfg(test)]
mod tests;
pub mod words;
