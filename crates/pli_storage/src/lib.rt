// What the variables of a run hold in memory, and the services that make, find, copy and free it.
#![tactic(auto)]

pub mod area_services;
pub mod bytes;
pub mod controlled_services;
pub mod finding;
pub mod held;
pub mod named_areas;
pub mod names;
pub mod signature_service;
pub mod variables;
