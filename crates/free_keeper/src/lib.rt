// How an area's bytes are kept where what is free is a list: the definition, and that it keeps every law.
#![tactic(auto)]

pub mod laws;
