//! A store whose log lies in a consensus engine, under one leadership after another.
#![tactic(auto)]

pub mod laws;
pub mod winding;

pub use winding::wind_up;
