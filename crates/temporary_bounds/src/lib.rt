// What temporaries take of registers and of words, against bounds by the form alone.
#![tactic(auto)]

pub mod laws;
