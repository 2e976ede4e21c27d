//! Why a step is refused, and the error numbers that instructions answer.
ghost use Rattle.std.specs.Prelude.{◌≡◌, pos, neg_ℤ};
ghost use Rattle.sk_plain.specs.Refusal.{refusal_number, error_number};

use std::alloc::{AllocError, AllocFailed};
use thiserror::Error;

/// Why a kernel took no step, in the order in which the causes are tried.
#[derive(Clone, Copy, Debug, PartialEq, Eq, Error)]
pub enum Refusal {
    #[error("no such process")]
    NoProcess,
    #[error("the process has ended")]
    Ended,
    #[error("the input does not fit what the process does next")]
    Mismatch,
    #[error("a reply is needed")]
    NeedsReply,
    #[error("the step waits")]
    Blocked,
    #[error("the directory has no room for another name")]
    NoRoom,
    #[error("too many guesses are undecided, or no number is remaining")]
    TooMany,
    #[error("the trace is full")]
    TraceFull,
    #[error("out of memory")]
    Memory,
}

impl Refusal {
    /// Its number.
    pub fn number(self) -> u8
        ensures { result ≡ refusal_number self }
    {
        match self {
            Refusal::NoProcess => 1,
            Refusal::Ended => 2,
            Refusal::Mismatch => 3,
            Refusal::NeedsReply => 4,
            Refusal::Blocked => 5,
            Refusal::TooMany => 6,
            Refusal::TraceFull => 7,
            Refusal::Memory => 8,
            Refusal::NoRoom => 9,
        }
    }
}

impl From<AllocError> for Refusal {
    ghost use Rattle.std.specs.Prelude.{◌≡◌};
    ghost use Rattle.sk_plain.specs.declared.refusal.Refusal.TheVariants.{Memory};

    ghost from_gives = { λ _ refusal. refusal ≡ Memory };

    fn from(_error: AllocError) -> Refusal {
        Refusal::Memory
    }
}

impl<T: Drop> From<AllocFailed<T>> for Refusal {
    ghost use Rattle.std.specs.Prelude.{◌≡◌};
    ghost use Rattle.sk_plain.specs.declared.refusal.Refusal.TheVariants.{Memory};

    ghost from_gives = { λ _ refusal. refusal ≡ Memory };

    fn from(_error: AllocFailed<T>) -> Refusal {
        Refusal::Memory
    }
}

/// The error numbers that instructions leave in r0, negated. They are those of Linux.
#[derive(Clone, Copy, Debug, PartialEq, Eq)]
pub enum Errno {
    /// 2, ENOENT: the name is not linked
    NotLinked,
    /// 3, ESRCH: no such process
    NoSuchProcess,
    /// 9, EBADF: no object
    BadObject,
    /// 10, ECHILD: no child
    NoChild,
    /// 11, EAGAIN: a limit that may pass
    Again,
    /// 17, EEXIST: the name is linked
    Exists,
    /// 20, ENOTDIR
    NotDirectory,
    /// 21, EISDIR
    IsDirectory,
    /// 22, EINVAL
    Invalid,
    /// 27, EFBIG
    TooBig,
    /// 28, ENOSPC
    NoSpace,
    /// 32, EPIPE: the pipe is shut
    BrokenPipe,
    /// 116, ESTALE: the server has another content
    StaleCopy,
}

impl Errno {
    /// What r0 holds after the error.
    pub fn answer(self) -> i64
        ensures { result ≡ neg_ℤ (pos (error_number self)) }
    {
        match self {
            Errno::NotLinked => -2,
            Errno::NoSuchProcess => -3,
            Errno::BadObject => -9,
            Errno::NoChild => -10,
            Errno::Again => -11,
            Errno::Exists => -17,
            Errno::NotDirectory => -20,
            Errno::IsDirectory => -21,
            Errno::Invalid => -22,
            Errno::TooBig => -27,
            Errno::NoSpace => -28,
            Errno::BrokenPipe => -32,
            Errno::StaleCopy => -116,
        }
    }
}
