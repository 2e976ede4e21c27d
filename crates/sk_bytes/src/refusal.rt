//! Why a step over byte strings was not taken.
ghost use Rattle.std.specs.Prelude.{◌≡◌};
ghost use Rattle.sk_bytes.specs.Calls.{refusal_of};

use sk_speculator::Refusal as Inner;
use thiserror::Error;

/// Why a step was not taken.
#[derive(Clone, Copy, Debug, PartialEq, Eq, Error)]
pub enum Refusal {
    #[error("a key is longer than 65,536 bytes")]
    LongKey,
    #[error("a value is longer than 16,777,216 bytes")]
    LongValue,
    #[error("as many guesses are undecided as may be")]
    TooMany,
    #[error("the last number of a guess is drawn")]
    NoNumber,
    #[error("out of memory")]
    Memory,
}

/// The refusal of a step over byte strings where the kernel over numbers refused it so.
pub(crate) fn named(refusal: Inner) -> Refusal
    ensures { result ≡ refusal_of refusal }
{
    match refusal {
        Inner::TooMany => Refusal::TooMany,
        Inner::NoNumber => Refusal::NoNumber,
        Inner::Memory => Refusal::Memory,
    }
}
