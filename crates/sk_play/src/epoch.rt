//! What is told of a wish for a new epoch.
ghost use Rattle.std.specs.Prelude.{Some};
ghost use Rattle.sk_play.specs.Epochs.{epoch_text};

use std::fmt;

/// What came of a wish for a new epoch.
#[derive(Clone, Copy, PartialEq, Eq)]
pub enum EpochTold {
    /// It has begun, and so many events of the last one are let go.
    Begun(usize),
    /// So many guesses are undecided.
    Undecided(usize),
    /// So many requests have no reply.
    Pending(usize),
}

impl fmt::Display for EpochTold {
    ghost output = { λ told. Some (epoch_text told) };

    fn fmt<W: fmt::Write>(&self, f: &mut fmt::Formatter<W>) -> fmt::Result {
        match self {
            EpochTold::Begun(events) => write!(f, "{events}"),
            EpochTold::Undecided(guesses) => write!(f, "refused {guesses} undecided"),
            EpochTold::Pending(requests) => write!(f, "refused {requests} pending"),
        }
    }
}
