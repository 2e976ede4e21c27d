//! Traces: what happened in a kernel, event by event, and its text; and the events of a world.
#![tactic(auto)]

pub mod event;
pub mod kept;
pub mod laws;
pub mod line;
pub mod print;
pub mod trace;
pub mod world_event;

pub use event::{Entry, Event};
pub use kept::{InputRef, KeptInput};
pub use trace::Trace;
pub use world_event::{EventRef, WorldEvent};
