//! What is counted of a kernel: its guesses by what became of them, its steps, and those that were taken back.
#![tactic(auto)]

pub mod counts;
pub mod kinds;
pub mod laws;
pub mod reading;
pub mod text;

pub use counts::Counts;
pub use text::write_counts;
