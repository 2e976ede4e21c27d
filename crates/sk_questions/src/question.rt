//! What is asked of a kernel, and changes nothing.
use sk_ids::{Entity, GuessId};
use sk_words::Index;

/// What is asked of a kernel.
#[derive(Clone, Copy)]
pub enum Question {
    /// What an entity has.
    Value(Entity),
    /// The undecided guesses that an entity depends on.
    Tags(Entity),
    /// The entities that depend on a guess.
    Dependents(GuessId),
    /// What a terminal has released, and how many texts wait.
    Terminal(Index),
    /// The counts.
    Counts,
    /// The trace so far.
    Trace,
    /// The report.
    Report,
}
