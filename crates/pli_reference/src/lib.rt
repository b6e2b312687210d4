// The declaration or built-in at each reference, and the kind of each expression.
#![tactic(auto)]

pub mod call;
pub mod expression;
pub mod found;
pub mod locator;
pub mod meant;
pub mod names;
pub mod part;
pub mod scope;
mod waiting;
