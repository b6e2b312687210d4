// The code of expressions.
#![tactic(auto)]

mod bit;
pub mod expression;
pub mod locator;
mod number;
mod text;
