//! Batches between a kernel and a log: what is to be logged, what is in flight, and what is decided.
#![tactic(auto)]

mod batch;
pub mod frames;
pub mod laws;
mod list;
pub mod places;
pub mod queue;
mod record;
mod records;
pub mod refusal;

pub use frames::{Sealed, may_take_frame, take_frame};
pub use places::{Place, Places};
pub use queue::{Cut, Decision, Queue, Taken};
pub use refusal::Refusal;
