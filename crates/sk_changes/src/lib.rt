//! The changes of values, each with the undo that takes it back.
#![tactic(auto)]

pub mod alone;
pub mod change;
pub mod file;
pub mod held;
pub mod noted;
pub mod pipe;
pub mod run;
pub mod signals;
pub mod slots;
pub mod value;

pub use alone::change_alone;
pub use change::{Change, Invertible, NotApplied, Undo};
pub use held::HeldBytes;
pub use noted::change_noted;
