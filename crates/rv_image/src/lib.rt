// Images as files: what a machine loads, written as bytes and read back.
#![tactic(auto)]

mod header;
pub mod image;
mod leaf;
mod table;
mod word;
mod writing;
