//! A crew: workers in threads of their own that share a desk, a thread in which its server answers, and the two wires
//! between them.
#![tactic(auto)]

mod carrier;
pub mod crew;
mod ends;
mod remaining;
mod rounds;
mod service;
mod setup;
mod working;

pub use crew::{CrewFault, CrewPlan, run_crew};
