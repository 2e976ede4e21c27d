//! Scenarios: what a kernel starts from and what then happens, read from a text.
#![tactic(auto)]

pub mod call;
pub mod declarations;
mod glance;
pub mod kept;
pub mod scenario;
pub mod world;

pub use call::{Call, Calls, StepRules};
pub use declarations::{Declarations, Remote};
pub use kept::KeptEvent;
pub use scenario::{Scenario, Section};
pub use world::{WorldEvents, WorldRules};
