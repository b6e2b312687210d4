// Where pli_coding puts the parts of a typed program's code, and what the relation of activations asks of its image.
#![tactic(auto)]

pub mod laws;
