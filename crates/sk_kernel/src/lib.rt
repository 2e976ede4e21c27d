//! The kernel of many speculations, for one thread.
#![tactic(auto)]

pub mod footprint;
pub mod hand_in;
mod holder;
pub mod kernel;
pub mod laws;
pub mod notes;
pub mod opening;
pub mod room;

pub use footprint::Footprint;
pub use hand_in::HandIn;
pub use holder::Holder;
pub use kernel::{EpochRefusal, FailRefusal, Kernel, Outcome, Stranger};
pub use opening::Opening;
