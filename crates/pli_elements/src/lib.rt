// The elements of aggregates, one by one in the order in which GET and PUT go through them: service 8 with mode 1.
#![tactic(auto)]

pub mod element;
mod given;
mod item;
mod leaves;
mod standing;
#[cfg(test)]
mod tests;
