// Areas as their bytes keep them, where what is free is a list.
#![tactic(auto)]

pub mod free_list;
mod front;
mod generations;
mod links;
mod map;
mod opening;
#[cfg(test)]
mod tests;
mod walks;
