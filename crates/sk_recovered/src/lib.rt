//! A plain store again, from the segments of a log.
#![tactic(auto)]

mod frames;
mod heads;
pub mod laws;
mod recovered;
mod segment;

pub use frames::{Damage, Place};
pub use heads::{Head, Heads};
pub use recovered::{Found, Recovered};
pub use segment::{FIRST_PIECE, SNAPSHOT, Segment};
