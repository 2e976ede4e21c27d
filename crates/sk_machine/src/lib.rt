//! What a kernel keeps beside its trace, and what each event makes of it in place: what entities have
//! with their undo logs, the status of each guess, what depends on each undecided one, and the texts of the
//! terminals.
#![tactic(auto)]

mod as_process;
mod going_on;
pub mod hand_in;
mod lists;
pub mod machine;
pub mod notes;

pub use machine::Machine;
