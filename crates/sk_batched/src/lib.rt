//! A kernel whose guesses are batches of a queue: what is run at once, logged in batches and decided with them.
#![tactic(auto)]

mod batched;
mod checks;
pub mod laws;
mod refusal;
mod rests;

pub use batched::{Batched, MOST_IN_FLIGHT, Outcome};
pub use refusal::Refusal;
