//! Why a call was refused.

use std::alloc::AllocError;
use thiserror::Error;

/// Why a call was refused. Nothing has changed then.
#[derive(Clone, Copy, Debug, PartialEq, Eq, Error)]
pub enum Refusal {
    /// A cut could not be made: nothing goes on from there.
    #[error("stopped, since a cut could not be made")]
    Stopped,
    /// So many bytes would be undecided as may not be.
    #[error("as many bytes are undecided as may be")]
    Full,
    /// No record waits.
    #[error("nothing is to be sent")]
    Nothing,
    /// As many frames are in flight as may be, or a frame failed and no cut was made.
    #[error("as many frames are in flight as may be")]
    Busy,
    /// The last number is given.
    #[error("no number is left")]
    NoNumber,
    /// The room is shorter than the frame.
    #[error("the room is shorter than the frame")]
    Short,
    /// No frame of this number is in flight, or it was told of.
    #[error("no frame of this number is waited for")]
    Unknown,
    /// No frame failed, or one is waited for.
    #[error("no cut is due")]
    NoCut,
    /// There was no memory.
    #[error("out of memory")]
    Memory,
}

impl From<AllocError> for Refusal {
    ghost use Rattle.std.specs.Prelude.{◌≡◌};
    ghost use Rattle.sk_batches.specs.declared.refusal.Refusal.TheVariants.{Memory};

    ghost from_gives = { λ _ refusal. refusal ≡ Memory };

    fn from(_error: AllocError) -> Refusal {
        Refusal::Memory
    }
}
