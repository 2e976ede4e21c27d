//! The server of remote files: it answers requests in order, and drops what depends on a guess that it refused.
#![tactic(auto)]

mod files;
pub mod reply;
pub mod request;
pub mod server;
mod verdict;

pub use reply::{Answer, Reply};
pub use request::{Ask, AskRef, Request, RequestRef};
pub use server::{EditRefusal, LAST_REQUEST, Server, ServerRefusal};
