// Runs of images and of sources: what they come to, and how that is told.
#![tactic(auto)]

pub mod image_file;
pub mod laws;
pub mod report;
pub mod run;
pub mod source_run;
pub mod streams;
