//! What the library for C has behind its handles, and what it tells of each call.
#![tactic(auto)]

pub mod asked;
pub mod client;
pub mod codes;
pub mod desk;
pub mod durable;
pub mod engine;
pub mod faults;
pub mod handle;
pub mod opening;
pub mod own;
pub mod own_calls;
pub mod reading;
pub mod recovering;
pub mod reopening;
pub mod room;
pub mod rounds;
pub mod store_calls;
pub mod told;
