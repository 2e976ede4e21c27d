//! What is ordered of the accounts.
use hidewillow::own::Refusal;
use std::alloc::{AllocError, AllocFailed};
use thiserror::Error;

/// What is ordered. An account is known by its number.
#[derive(Clone, Copy, Debug, PartialEq, Eq, Drop)]
pub enum Order {
    Deposit(u16, u64),
    Transfer(u16, u16, u64),
}

/// Why an order is not carried out.
#[derive(Clone, Copy, Debug, PartialEq, Eq, Error)]
pub enum Refused {
    #[error("the account that it is from has too little, or is the one that it is to")]
    Short,
    #[error("the account that it is to has too much")]
    Full,
    #[error("the kernel refuses the guess: {0}")]
    Guess(Refusal),
    #[error("out of memory")]
    Memory,
}

impl From<AllocError> for Refused {
    fn from(_: AllocError) -> Refused {
        Refused::Memory
    }
}

impl<T: Drop> From<AllocFailed<T>> for Refused {
    fn from(_: AllocFailed<T>) -> Refused {
        Refused::Memory
    }
}

impl From<Refusal> for Refused {
    fn from(refusal: Refusal) -> Refused {
        Refused::Guess(refusal)
    }
}
