//! The client side: a desk that asks a server for the kernel's processes.
#![tactic(auto)]

pub mod desk;
pub mod laws;
pub mod leasing;
pub mod pending;
pub mod requests;
pub mod rule;
pub mod world;

pub use desk::{Desk, Given, Pending, ReplyRefusal, Turn};
pub use pending::KeptAnswer;
pub use sk_trace::{EventRef, WorldEvent};
pub use world::{Cause, World, WorldAnswer, WorldNews, WorldStop};
