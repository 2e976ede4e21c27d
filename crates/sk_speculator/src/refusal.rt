//! Why a step was not taken.

use thiserror::Error;

/// Why a step was not taken.
#[derive(Clone, Copy, Debug, PartialEq, Eq, Error)]
pub enum Refusal {
    #[error("as many guesses are undecided as may be")]
    TooMany,
    #[error("the last number of a guess is drawn")]
    NoNumber,
    #[error("out of memory")]
    Memory,
}
