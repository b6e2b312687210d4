// The services of aggregates, as far as they stand: a scalar that is stored into each element of an array.
#![tactic(auto)]

pub mod bounds;
pub mod elements;
pub mod part;
pub mod record;
pub mod runs;
pub mod scalar;
pub mod storing;
