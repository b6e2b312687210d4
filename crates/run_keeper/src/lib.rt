//! The one keeper of all areas of a run: how an image's areas are kept in bytes (`specs/RunKeeper`), and that it keeps
//! every law of keepers (`run_keeper_keeps`).
#![tactic(auto)]

pub mod laws;
