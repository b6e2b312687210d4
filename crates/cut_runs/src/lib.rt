// Laws of runs that are cut off before their end.
#![tactic(auto)]

pub mod laws;
