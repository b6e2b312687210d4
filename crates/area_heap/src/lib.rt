// Areas as their bytes keep them: what a keeper of areas does, and the keeper whose headers are walked from the front.
#![tactic(auto)]

pub mod chain;
pub mod fault;
pub mod keeper;
mod place;
#[cfg(test)]
mod tests;
pub mod words;
