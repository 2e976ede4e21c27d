//! The wire between a desk and its server: requests or replies from one thread to another, each handed out once and in order.
#![tactic(auto)]

pub mod numbered;
pub mod rule;
pub mod wire;

pub use numbered::HasNumber;
pub use rule::WIRE_ITEMS;
pub use wire::{WIRE_LIMIT, Wire, WirePass};
