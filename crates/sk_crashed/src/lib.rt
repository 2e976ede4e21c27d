//! What a disk has of a store after a crash, and what is read of it again.
#![tactic(auto)]

pub mod laws;
