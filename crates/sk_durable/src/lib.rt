//! A store whose replies wait for exactly what they depend on: commands run at once in memory under the guess that their batch
//! reaches the disk.
#![tactic(auto)]

mod asked;
mod known;
pub mod laws;
pub mod limits;
mod look;
pub mod refusal;
mod size;
pub mod store;
pub mod told;
mod works;

pub use limits::Limits;
pub use refusal::{NotDone, Refusal};
pub use store::{End, Fed, Next, Store};
pub use told::Told;
