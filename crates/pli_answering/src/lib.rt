// How services reply to their calls.
#![tactic(auto)]

pub mod reply;
