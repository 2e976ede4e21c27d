//! Why no store goes on.

use std::alloc::AllocError;
use thiserror::Error;

/// Why no store goes on. Nothing has changed then.
#[derive(Clone, Copy, Debug, PartialEq, Eq, Error)]
pub enum Refusal {
    /// The limits are not sound.
    #[error("these are no limits that a store may have")]
    Limits,
    /// There is no number for another frame, or for another segment.
    #[error("no number is left")]
    NoNumber,
    /// The room is shorter than the head of a frame.
    #[error("the room is shorter than a head")]
    Short,
    /// A key is longer than may be, or begins as those that are kept for batches: no store wrote this log.
    #[error("no store has such a key")]
    Key,
    /// There was no memory.
    #[error("out of memory")]
    Memory,
}

impl From<AllocError> for Refusal {
    ghost use Rattle.std.specs.Prelude.{◌≡◌};
    ghost use Rattle.sk_reopened.specs.declared.refusal.Refusal.TheVariants.{Memory};

    ghost from_gives = { λ _ refusal. refusal ≡ Memory };

    fn from(_error: AllocError) -> Refusal {
        Refusal::Memory
    }
}
