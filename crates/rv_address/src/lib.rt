// Where the elements of variables are, as code: what is known around a piece of code, names, leaves, subscripts and elements.
#![tactic(auto)]

pub mod controlled;
pub mod direct;
pub mod element;
pub mod environment;
pub mod extent;
pub mod frame;
pub mod known;
pub mod leaf;
pub mod located;
pub mod names;
pub mod number;
pub mod referred;
pub mod signature;
pub mod simple;
pub mod size;
pub mod subscript;
pub mod taken;
#[cfg(test)]
mod tests;
pub mod transfer;
