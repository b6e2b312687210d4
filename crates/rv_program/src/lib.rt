// The whole of a program: its code, the static data behind it, and its table.
#![tactic(auto)]

pub mod generate;
mod table;
mod whole;
