//! A plain store: a map of byte strings that carries out commands at once.
#![tactic(auto)]

pub mod laws;
mod places;
mod store;

pub use store::PlainStore;
