// The small phrases of the grammar that the heads of statements are made of.
#![tactic(auto)]

mod build;
pub mod cursor;
mod engine;
pub mod expression;
mod frame;
pub mod stop;
pub mod text;
pub mod token;
