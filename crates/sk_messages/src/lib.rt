//! Requests and replies as bytes, for a server that is elsewhere.
#![tactic(auto)]

pub mod laws;
pub mod numbers;
pub mod reply;
pub mod request;

pub use reply::read_reply;
pub use request::write_request;
