// The text of `pli list`.
#![tactic(auto)]

pub mod call;
mod duty;
pub mod listing;
pub mod mention;
pub mod mention_declaration;
pub mod mention_expression;
pub mod mention_statement;
pub mod names;
mod note;
mod source;
#[cfg(test)]
mod tests;
pub mod uses;
pub mod word;
