// On-units of a program: ON establishes them, a raise enters them, and they return or jump.
#![tactic(auto)]

pub mod laws;
