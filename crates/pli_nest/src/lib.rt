// How heads nest: what is open around a place, and what a head makes of it.
#![tactic(auto)]

mod begin;
mod build;
mod complete;
mod ends;
mod entering;
mod frame;
mod items;
mod limits;
mod place;
mod settle;
mod standing;
mod statement;

pub use entering::{enter, misplaced, outermost, whole_tree};
pub use frame::{Entry, Frame, Nest, Opener};
pub use standing::{is_stray_else, refused_place};
