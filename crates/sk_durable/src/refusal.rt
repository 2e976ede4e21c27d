//! Why a call was refused, and why nothing of a command was done.

use std::alloc::AllocError;
use thiserror::Error;

/// Why a call was refused. Nothing has changed then.
#[derive(Clone, Copy, Debug, PartialEq, Eq, Error)]
pub enum Refusal {
    /// No channel with this number is connected.
    #[error("no such channel")]
    NoChannel,
    /// A batch was cut off, and `Store::decide` has not told so yet.
    #[error("a decision is due")]
    DecisionDue,
    /// As many channels are connected as may be, as many bytes are undecided or commands wait as may be, or more bytes wait to be
    /// handed over than may.
    #[error("full")]
    Full,
    /// The channel has given its last ticket; of `tell`, the host is not asked there.
    #[error("the last ticket is given")]
    NoTicket,
    /// There was no memory.
    #[error("out of memory")]
    Memory,
}

impl From<AllocError> for Refusal {
    ghost use Rattle.std.specs.Prelude.{◌≡◌};
    ghost use Rattle.sk_durable.specs.declared.refusal.Refusal.TheVariants.{Memory};

    ghost from_gives = { λ _ refusal. refusal ≡ Memory };

    fn from(_error: AllocError) -> Refusal {
        Refusal::Memory
    }
}

impl From<sk_channels::Refusal> for Refusal {
    ghost use Rattle.std.specs.Prelude.{◌≡◌};
    ghost use Rattle.sk_durable.specs.Refused.{channel_refused};

    ghost from_gives = { λ why refusal. refusal ≡ channel_refused why };

    fn from(refusal: sk_channels::Refusal) -> Refusal {
        match refusal {
            sk_channels::Refusal::NoTicket => Refusal::NoTicket,
            sk_channels::Refusal::Full => Refusal::Full,
            sk_channels::Refusal::Memory => Refusal::Memory,
        }
    }
}

/// Why nothing of a command was done, whose ticket is then told so in its turn.
#[derive(Clone, Copy, Debug, PartialEq, Eq, Error)]
pub enum NotDone {
    /// A key is longer than may be, or reserved, which no work that comes here names.
    #[error("a key is longer than may be")]
    LongKey,
    /// A cut could not be made: nothing is written any more.
    #[error("stopped, since a cut could not be made")]
    Stopped,
    /// With what is logged of it more bytes than may be would be undecided.
    #[error("as many bytes are undecided as may be")]
    Full,
    /// As many batches are undecided as may be.
    #[error("as many batches are undecided as may be")]
    TooMany,
    /// There was no memory.
    #[error("out of memory")]
    Memory,
}

impl From<AllocError> for NotDone {
    ghost use Rattle.std.specs.Prelude.{◌≡◌};
    ghost use Rattle.sk_durable.specs.declared.refusal.NotDone.TheVariants.{Memory};

    ghost from_gives = { λ _ why. why ≡ Memory };

    fn from(_error: AllocError) -> NotDone {
        NotDone::Memory
    }
}

impl From<sk_batched::Refusal> for NotDone {
    ghost use Rattle.std.specs.Prelude.{◌≡◌};
    ghost use Rattle.sk_durable.specs.Refused.{step_refused};

    ghost from_gives = { λ refusal why. why ≡ step_refused refusal };

    /// No work comes here that names a reserved key, so `Reserved` is never told.
    fn from(refusal: sk_batched::Refusal) -> NotDone {
        match refusal {
            sk_batched::Refusal::LongKey | sk_batched::Refusal::Reserved => NotDone::LongKey,
            sk_batched::Refusal::Stopped => NotDone::Stopped,
            sk_batched::Refusal::Full => NotDone::Full,
            sk_batched::Refusal::TooMany => NotDone::TooMany,
            sk_batched::Refusal::Memory => NotDone::Memory,
        }
    }
}
