//! What entities have, each with its undo log, in which each write stands with the guesses that it
//! depends on, and what puts it back.
#![tactic(auto)]

pub mod entity_logs;
mod entity_map;
mod entries;
mod keys;
pub mod laws;
pub mod log;
pub mod logs;
pub mod names;
pub mod slot;
pub mod slots;

pub use entity_logs::{ObjectLog, ProcessLog};
pub use log::{Log, Logged, Note};
pub use logs::{EntityUndo, Logs};
pub use names::Names;
pub use slot::Slot;
pub use slots::{Slots, TakeBack, Written};
