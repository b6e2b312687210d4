// How an area's bytes are kept where a mark for each granule tells what lies in it: the definition, and that it keeps every law.
#![tactic(auto)]

pub mod laws;
