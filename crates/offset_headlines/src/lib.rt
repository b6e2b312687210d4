//! The headline of a program that links structures in an area by offsets, assigns the area, and walks the list in the
//! copy by the same offsets (`twin_kept`), and of two whose offsets name nothing (`miss_kept`, `stray_kept`).
#![tactic(auto)]

pub mod laws;
