//! Channels of a store: bytes that came to works with tickets, and what the tickets are told to bytes, in order.
#![tactic(auto)]

pub mod channel;
pub mod inlet;
pub mod laws;
mod outlet;
pub mod refusal;
pub mod rejection;
pub mod table;
mod waiting;

pub use channel::Channel;
pub use inlet::{Ask, Asked, Fed};
pub use refusal::Refusal;
pub use rejection::Rejection;
pub use table::Channels;
