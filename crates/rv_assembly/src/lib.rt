// Code before its places are known, and the words and data that it becomes.
#![tactic(auto)]

mod bytes;
pub mod code;
mod emit;
pub mod item;
pub mod link;
pub mod links;
pub mod marks;
mod parts;
pub mod place;
pub mod placing;
pub mod registers;
pub mod statics;
#[cfg(test)]
mod tests;
mod words;
