//! What each step of a kernel over own keys depended on when it was taken, and what that says of the end.
#![tactic(auto)]

pub mod laws;
