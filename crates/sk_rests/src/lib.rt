//! What each step depended on when it was taken, and what that says of the end: a step stands just where nothing that it depended
//! on failed.
#![tactic(auto)]

pub mod laws;
