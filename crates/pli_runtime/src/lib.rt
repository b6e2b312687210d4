// The services that images call, all 41 of them, over one run's state.
#![tactic(auto)]

mod aggregates;
mod areas;
mod blocks;
mod edits;
mod ending;
mod run;
pub mod runtime;
#[cfg(test)]
mod tests;
mod texts;
