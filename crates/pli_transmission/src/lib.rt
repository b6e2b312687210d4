// The services of edit-directed streams: places in format lists, the items that GET takes and PUT writes, and the texts between them
// and expressions.
#![tactic(auto)]

pub mod control;
pub mod edit;
pub mod fixed;
pub mod item;
#[cfg(test)]
mod stream_tests;
pub mod streams;
#[cfg(test)]
mod tests;
pub mod text;
mod writing;
