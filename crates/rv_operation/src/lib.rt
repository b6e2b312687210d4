// What is done with operands that were evaluated: operators, texts, names, references and arguments.
#![tactic(auto)]

pub mod argument;
pub mod arithmetic;
pub mod constant;
pub mod pointer;
pub mod reference;
pub mod standing;
pub mod text;
