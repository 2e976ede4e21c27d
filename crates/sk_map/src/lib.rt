//! A finite map.
#![tactic(auto)]

mod key;
mod map;

pub use key::Key;
pub use map::Map;
