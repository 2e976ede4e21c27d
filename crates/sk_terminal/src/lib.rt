//! The texts said to a terminal, released once they depend on no undecided guess.
#![tactic(auto)]

mod buffered_text;
pub mod laws;
mod listing;
mod number_set;
mod numbered;
pub mod terminal;
pub mod terminals;
pub mod texts;

pub use terminal::Terminal;
pub use terminals::Terminals;
pub use texts::Texts;
