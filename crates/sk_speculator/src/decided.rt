//! What a decision came to.

/// What the commit of a guess came to.
#[derive(Clone, Copy, Debug, PartialEq, Eq)]
pub enum Committed {
    Done,
    /// The guess was struck by another's failure: nothing is left to decide.
    Gone,
}

/// What the failure of a guess came to.
#[derive(Drop)]
pub enum Failed<K> {
    Done(Undone<K>),
    /// The guess was struck by another's failure: nothing is left to decide.
    Gone,
}

/// What a failure took back: the keys that have another value or another log now, by their order, each once, and how many
/// guesses it struck.
#[derive(Drop)]
pub struct Undone<K> {
    pub keys: Vec<K>,
    pub struck: usize,
}
