// What is promised of a program of the whole language and its image, and for which programs it is proved.
#![tactic(auto)]

pub mod first_path;
pub mod laws;
