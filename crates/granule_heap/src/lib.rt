// Areas as their bytes keep them, where a mark for each granule tells what lies in it.
#![tactic(auto)]

mod front;
pub mod granules;
mod marking;
mod marks;
#[cfg(test)]
mod tests;
