//! The log of a store: frames over zeros, and what is read of them after a crash.
#![tactic(auto)]

pub mod blanking;
mod bytes;
pub mod frame;
pub mod front;
pub mod laws;
pub mod recovery;
mod unread;

pub use blanking::blank;
pub use bytes::HEAD;
pub use frame::{FrameRefusal, append, seal};
pub use front::{Front, first_number, front_of};
pub use recovery::{End, PieceRefusal, Recovery, Rest};
