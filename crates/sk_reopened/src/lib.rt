//! A store that goes on behind what was read of its log.
#![tactic(auto)]

pub mod opening;
pub mod refusal;

pub use opening::{Last, Reopened, reopen};
pub use refusal::Refusal;
