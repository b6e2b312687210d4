// The code that stores values, records, aggregates and areas.
#![tactic(auto)]

pub mod aggregate;
pub mod area;
pub mod record;
pub mod scalar;
#[cfg(test)]
mod tests;
