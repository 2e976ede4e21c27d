//! What a test finds wrong.
use sk_speculator::Refusal;
use std::alloc::{AllocError, AllocFailed};

/// Why a test does not pass.
#[derive(Clone, Copy, Debug)]
pub enum Wrong {
    /// The test itself has no memory.
    Memory,
    /// Other keys are there, or another number of guesses is undecided.
    Keys,
    /// A key has another value.
    Value,
    /// A key depends on other guesses.
    Tags,
    /// Other keys depend on a guess.
    Dependents,
    /// Something else became of a guess.
    Status,
    /// Another output came out, or another number of them waits.
    Output,
    /// A channel is named that has no output to take, or none is, though one has.
    Channel,
    /// A failure tells something else.
    Undone,
    /// A step's buffers are not empty after it was taken, or not as they were after it was refused.
    Buffers,
    /// A call is refused that should not be, or is not that should be.
    Refused,
}

impl From<AllocError> for Wrong {
    fn from(_: AllocError) -> Wrong {
        Wrong::Memory
    }
}

impl<T: Drop> From<AllocFailed<T>> for Wrong {
    fn from(_: AllocFailed<T>) -> Wrong {
        Wrong::Memory
    }
}

impl From<Refusal> for Wrong {
    fn from(why: Refusal) -> Wrong {
        match why {
            Refusal::Memory => Wrong::Memory,
            _ => Wrong::Refused,
        }
    }
}

/// What should hold holds.
pub fn holds(is: bool, wrong: Wrong) -> Result<(), Wrong> {
    if is { Ok(()) } else { Err(wrong) }
}
