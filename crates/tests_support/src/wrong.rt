//! What is wrong with a test, in a few words. A function that ends with it, and not with the long text of a `Fail`, is
//! proved in a fraction of the time.
use sk_plain::{Refusal, TraceFault};
use sk_script::BootFault;
use sk_words::Fault;
use std::alloc::AllocError;

/// Why a test does not pass.
#[derive(Clone, Copy, Debug, PartialEq, Eq)]
pub enum Wrong {
    /// A growth was refused.
    Memory,
    /// Bytes or a number that are no such value.
    Value,
    /// What the test starts from can't be declared.
    Start,
    /// A call is refused.
    Refused,
    /// What stands at this place of the test comes to something else.
    At(usize),
}

impl From<AllocError> for Wrong {
    fn from(_: AllocError) -> Wrong {
        Wrong::Memory
    }
}

impl From<Fault> for Wrong {
    fn from(_: Fault) -> Wrong {
        Wrong::Start
    }
}

impl From<BootFault> for Wrong {
    fn from(_: BootFault) -> Wrong {
        Wrong::Start
    }
}

impl From<Refusal> for Wrong {
    fn from(_: Refusal) -> Wrong {
        Wrong::Refused
    }
}

impl From<TraceFault> for Wrong {
    fn from(_: TraceFault) -> Wrong {
        Wrong::Refused
    }
}

/// What stands at this place of a test holds.
pub fn holds(place: usize, is: bool) -> Result<(), Wrong> {
    if is { Ok(()) } else { Err(Wrong::At(place)) }
}
