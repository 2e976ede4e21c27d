//! Why a call is refused.
use sk_speculator::Refusal;
use std::alloc::{AllocError, AllocFailed};
use thiserror::Error;

/// Why a call is refused; nothing has changed.
#[derive(Clone, Copy, Debug, PartialEq, Eq, Error)]
pub enum Refused {
    #[error("names are numbers from 1 on")]
    NoName,
    #[error("an epoch without its reply has changed the name")]
    Changed,
    #[error("too many epochs wait for their replies")]
    TooMany,
    #[error("no number is left for an epoch")]
    NoNumber,
    #[error("out of memory")]
    Memory,
}

impl From<AllocError> for Refused {
    ghost use Rattle.std.specs.Prelude.{◌≡◌};
    ghost use Rattle.real_epochs.specs.declared.refused.Refused.TheVariants.{Memory};

    ghost from_gives = { λ _ why. why ≡ Memory };

    fn from(_: AllocError) -> Refused {
        Refused::Memory
    }
}

impl<T: Drop> From<AllocFailed<T>> for Refused {
    ghost use Rattle.std.specs.Prelude.{◌≡◌};
    ghost use Rattle.real_epochs.specs.declared.refused.Refused.TheVariants.{Memory};

    ghost from_gives = { λ _ why. why ≡ Memory };

    fn from(_: AllocFailed<T>) -> Refused {
        Refused::Memory
    }
}

impl From<Refusal> for Refused {
    ghost use Rattle.std.specs.Prelude.{◌≡◌};
    ghost use Rattle.real_epochs.specs.Kernel.{refused_by};

    ghost from_gives = { λ refusal why. why ≡ refused_by refusal };

    fn from(refusal: Refusal) -> Refused {
        match refusal {
            Refusal::TooMany => Refused::TooMany,
            Refusal::NoNumber => Refused::NoNumber,
            Refusal::Memory => Refused::Memory,
        }
    }
}
