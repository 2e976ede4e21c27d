//! What a failed guess strikes out of a record of steps: definitions and laws, over any entities, values and steps.
//!
//! A step is a small decision tree: it asks for entities one after another, and is then refused or done. A record is a list
//! of entries whose steps are taken in order; an entry may be marked as a guess. `specs/` says what depends on a guess, what
//! is left of a record when the guess fails, what a trace of steps, guesses, commits and failures leaves, and how a machine
//! with undo notes gets there without running any step again. `proofs/` proves the laws. Its one type of code is the status of a
//! guess: the crates above name its definitions in their contracts, for their own entities and instructions.
#![tactic(auto)]

pub mod status;

pub use status::Status;
