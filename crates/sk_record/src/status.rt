//! What became of a guess.

/// The status of a guess that was made.
#[derive(Clone, Copy, Debug, PartialEq, Eq)]
pub enum Status {
    /// Nothing has decided it yet.
    Undecided,
    Committed,
    Failed,
    /// The failure of another guess took its step away.
    Struck,
}
