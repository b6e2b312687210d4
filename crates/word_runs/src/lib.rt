// Words of a block's frame that its statements have set aside, and what they hold.
#![tactic(auto)]

pub mod laws;
