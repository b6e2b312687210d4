// Edit-directed streams: the fields that GET takes from the input and PUT writes behind the output, and the items that
// move in both.
#![tactic(auto)]

pub mod drain;
pub mod drain_output;
#[cfg(test)]
mod drain_tests;
pub mod fault;
pub mod feed;
mod feed_bytes;
pub mod feed_input;
mod feed_marks;
mod feed_reading;
mod feed_stream;
#[cfg(test)]
mod feed_tests;
pub mod format;
mod handing;
pub mod input;
pub mod input_stream;
mod left;
mod line;
mod mark;
pub mod output;
pub mod output_stream;
pub mod past;
mod pieces;
pub mod place;
mod reading;
#[cfg(test)]
mod tests;
mod whole_stream;
