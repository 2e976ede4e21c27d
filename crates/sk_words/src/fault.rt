//! What is wrong with a text.
use std::alloc::{AllocError, AllocFailed};
use thiserror::Error;

/// What is wrong with a line.
#[derive(Clone, Copy, Debug, PartialEq, Eq, Error)]
pub enum FaultKind {
    /// An unknown word, or a wrong number of words.
    #[error("Word")]
    Word,
    /// A malformed operand, or one out of its range.
    #[error("Operand")]
    Operand,
    /// A label or name that is declared twice, or not declared.
    #[error("Label")]
    Label,
    /// One instruction, or one boot object, too many.
    #[error("TooLong")]
    TooLong,
    /// A growth was refused.
    #[error("Memory")]
    Memory,
}

impl From<AllocError> for FaultKind {
    ghost use Rattle.std.specs.Prelude.{◌≡◌};
    ghost use Rattle.sk_words.specs.declared.fault.FaultKind.TheVariants.{Memory};

    ghost from_gives = { λ _ kind. kind ≡ Memory };

    fn from(_error: AllocError) -> FaultKind {
        FaultKind::Memory
    }
}

impl<T: Drop> From<AllocFailed<T>> for FaultKind {
    ghost use Rattle.std.specs.Prelude.{◌≡◌};
    ghost use Rattle.sk_words.specs.declared.fault.FaultKind.TheVariants.{Memory};

    ghost from_gives = { λ _ kind. kind ≡ Memory };

    fn from(_error: AllocFailed<T>) -> FaultKind {
        FaultKind::Memory
    }
}

/// Where a text has its first fault, by lines from 1 on, and which.
#[derive(Clone, Copy, Debug, PartialEq, Eq, Error)]
#[error("line {line}: {kind}")]
pub struct Fault {
    pub line: u64,
    pub kind: FaultKind,
}
