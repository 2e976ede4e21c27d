//! Why a payload is not read.
use sk_commands::Fault as CommandFault;
use sk_requests::Fault as RequestFault;
use std::alloc::AllocError;
use thiserror::Error;

/// Why a payload is not read as works.
#[derive(Clone, Copy, Debug, PartialEq, Eq, Error)]
pub enum Refusal {
    /// So many bytes were read, and what follows is no request.
    #[error("behind {1} bytes: {0}")]
    Request(RequestFault, usize),
    /// The request that ends behind so many bytes is beyond the limits.
    #[error("the request that ends behind {0} bytes is beyond the limits")]
    TooLarge(usize),
    /// The request that ends behind so many bytes says no command, or none that can come here.
    #[error("the request that ends behind {1} bytes is refused")]
    Command(CommandFault, usize),
    /// The payload ends within a request.
    #[error("a payload ends within a request")]
    Cut,
    /// The payload ends within a queue.
    #[error("a payload ends within a queue")]
    Open,
    /// There was no memory.
    #[error("out of memory")]
    Memory,
}

impl From<AllocError> for Refusal {
    ghost use Rattle.std.specs.Prelude.{◌≡◌};
    ghost use Rattle.sk_replay.specs.declared.refusal.Refusal.TheVariants.{Memory};

    ghost from_gives = { λ _ refusal. refusal ≡ Memory };

    fn from(_error: AllocError) -> Refusal {
        Refusal::Memory
    }
}
