//! What all entities have: the map that kernels stand on, and its content when a kernel starts.
#![tactic(auto)]

pub mod back;
pub mod becoming;
pub mod entity_state;
pub mod held;
pub mod keeper;
pub mod look;
pub mod present;
pub mod start;
pub mod store;

pub use back::{Back, PutBack};
pub use becoming::{Becoming, BecomingBy, Seeing};
pub use entity_state::EntityState;
pub use held::HeldProcess;
pub use keeper::Keeper;
pub use look::Look;
pub use present::Present;
pub use store::Store;
