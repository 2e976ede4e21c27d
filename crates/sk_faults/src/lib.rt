//! Where a fault of a text stands, word by word, and what was expected there: a second reading of its line.
#![tactic(auto)]

pub mod detail;
pub mod found;
pub mod laws;
pub mod part;
pub mod place;
pub mod reason;
pub mod tables;
pub mod talk;
pub mod wanted;

pub use detail::{Detail, explain, write_detail};
pub use found::{Found, Why, find};
pub use part::{Part, line_at};
pub use place::{Place, place_of};
pub use reason::{Reason, Thing};
pub use talk::{explain_line, write_line_detail};
pub use wanted::Wanted;
