// Whole runs of programs: from the first instruction of an image to the end, by the relation of activations.
#![tactic(auto)]

pub mod laws;
