//! An epoch without its reply.
use sk_guesses::Guess;

/// The right to decide it, and the checkpoint that it goes back to.
pub(crate) struct Begun {
    pub(crate) token: Guess,
    pub(crate) checkpoint: u64,
}
