// The words of RV32IM: what an instruction is written as, and which instruction a word is.
#![tactic(auto)]

pub mod code;
pub mod decode;
pub mod encode;
mod fields;
