//! The speculative kernel over byte strings: a key's bytes are kept once, and the kernel inside has numbers for them.
#![tactic(auto)]

mod bytes;
mod keys;
pub mod laws;
mod numbers;
mod refusal;

pub use bytes::{ByteStep, Bytes, KEY_LIMIT, Unmade};
pub use refusal::Refusal;
