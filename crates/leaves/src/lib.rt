// The functions under the replay, each behind C names, as a static library for the comparison with the Rust: numbers, and words
// stored from the start of a slice that the caller lends. A slice without room for them stays as it was.
#![tactic(auto)]

pub mod clock_leaf;
pub mod fifo_leaf;
pub mod model_leaf;
pub mod packet_leaf;
mod parts;
mod put;
mod report_in;
pub mod report_leaf;
pub mod scanner_leaf;
mod seconds;
pub mod stream_leaf;
