//! Values that are written whole or changed in place, and put back.
#![tactic(auto)]

pub mod before;
pub mod inversion;
mod sum;
mod whole;
pub mod write;

pub use before::{Before, join, put_back};
pub use inversion::Inversion;
pub use sum::Sum;
pub use whole::{NoUndo, Whole};
pub use write::Write;
