// The services of images, as the machine calls them.
#![tactic(auto)]

pub mod environment;
