//! Why no request can be read.
use std::alloc::AllocError;
use thiserror::Error;

/// What is wrong with bytes that begin no request, in the words that clients know.
#[derive(Clone, Copy, Debug, PartialEq, Eq, Error)]
pub enum Fault {
    /// A line that begins with `*` says no number of words.
    #[error("Protocol error: invalid multibulk length")]
    Count,
    /// A line that begins with `$` says no number of bytes.
    #[error("Protocol error: invalid bulk length")]
    Length,
    /// A word begins with this byte.
    #[error("Protocol error: expected '$', got '{}'", char::from(*.0))]
    Mark(u8),
    /// A line is too long.
    #[error("Protocol error: too big inline request")]
    Line,
    /// No end of a line stands behind a word.
    #[error("Protocol error: expected CRLF behind a bulk")]
    End,
}

/// Why bytes were not taken.
#[derive(Clone, Copy, Debug, PartialEq, Eq, Error)]
pub enum Refusal {
    /// No request begins so: the channel is to be closed.
    #[error(transparent)]
    Fault(Fault),
    /// There was no memory.
    #[error("out of memory")]
    Memory,
}

impl From<AllocError> for Refusal {
    ghost use Rattle.std.specs.Prelude.{◌≡◌};
    ghost use Rattle.sk_requests.specs.declared.fault.Refusal.TheVariants.{Memory};

    ghost from_gives = { λ _ refusal. refusal ≡ Memory };

    fn from(_error: AllocError) -> Refusal {
        Refusal::Memory
    }
}
