// How an area's bytes are kept: what every keeper promises, and the keeper whose blocks are walked from the front.
#![tactic(auto)]

pub mod laws;
