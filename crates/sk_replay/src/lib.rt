//! Works again from the payloads of a log, and snapshots of what a store has.
#![tactic(auto)]

mod channel;
pub mod laws;
pub mod payload;
pub mod refusal;
pub mod snapshot;

pub use payload::works_of;
pub use refusal::Refusal;
pub use snapshot::{Snapshot, set_work};
