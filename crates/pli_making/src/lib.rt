// AUTOMATIC and STATIC variables and copies of arguments are made, and what they count for is kept.
#![tactic(auto)]

mod content;
pub mod in_use;
pub mod laws;
pub mod making;
mod starting;
#[cfg(test)]
mod tests;
pub mod wanted;
