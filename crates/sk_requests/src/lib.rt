//! Requests of existing clients in, and replies to them out, as bytes in any pieces.
#![tactic(auto)]

mod array;
pub mod fault;
pub mod laws;
pub mod limits;
mod line;
mod place;
pub mod reader;
pub mod reply;

pub use fault::{Fault, Refusal};
pub use limits::Limits;
pub use reader::{Found, Reader, Taken};
