//! Why a step was not taken or logged.
ghost use Rattle.std.specs.Prelude.{◌≡◌};
ghost use Rattle.sk_batched.specs.Refused.{refusal_of};

use sk_batches::Refusal as Queued;
use thiserror::Error;

/// Why a step was not taken, or not logged.
#[derive(Clone, Copy, Debug, PartialEq, Eq, Error)]
pub enum Refusal {
    #[error("a key is longer than 65,536 bytes")]
    LongKey,
    /// A key of the step begins as the keys of batches do.
    #[error("a key begins as those of batches do")]
    Reserved,
    /// A cut could not be made: nothing goes on from there.
    #[error("stopped, since a cut could not be made")]
    Stopped,
    #[error("as many bytes are undecided as may be")]
    Full,
    #[error("as many batches are undecided as may be")]
    TooMany,
    #[error("out of memory")]
    Memory,
}

/// What the queue says against one record more.
pub(crate) fn named(refusal: Queued) -> Refusal
    ensures { result ≡ refusal_of refusal }
{
    match refusal {
        Queued::Stopped => Refusal::Stopped,
        Queued::Full => Refusal::Full,
        _ => Refusal::Memory,
    }
}
