//! What a run finds wrong.
use sk_plain::{Refusal, TraceFault};
use sk_words::Fault;
use std::alloc::AllocError;
use std::io;
use thiserror::Error;

/// Why a run does not pass.
#[derive(Clone, Copy, Debug, Error)]
pub enum Finding {
    // The run itself went wrong.
    #[error(transparent)]
    Memory(#[from(alloc)] AllocError),
    #[error("what the run reads or writes: {0}")]
    Io(#[from] io::Error),
    #[error("the input can't be read, or is too long")]
    Input,
    #[error("the words are not those of a run")]
    Words,
    #[error("the scenario: {0}")]
    Scenario(#[from] Fault),
    #[error("the scenario has no such section")]
    Section,
    #[error("the scenario has no script")]
    Script,
    // The trace.
    #[error("the trace is not that of what was done")]
    Trace,
    #[error("the plain kernel does not take the trace: {0}")]
    Unsound(#[from] TraceFault),
    #[error("the plain kernel refuses what is left of the trace: {0}")]
    Refused(#[from] Refusal),
    // What a kernel is.
    #[error("other entities are present")]
    Entities,
    #[error("an entity has another value")]
    Value,
    #[error("a terminal shows other texts")]
    Terminal,
    #[error("other guesses are undecided")]
    Undecided,
    #[error("something is not as it was before memory was wanted")]
    Changed,
    // Its requests, and the server's files.
    #[error("the requests are others")]
    Requests,
    #[error("a request has no reply")]
    Pending,
    #[error("a file of the server is not what its edits and accepted stores make it")]
    Files,
    // The history of a crew.
    #[error("the crew has no history")]
    Crew,
    #[error("call {0} is another worker's")]
    Owner(usize),
    #[error("call {0} is not the one that its worker makes then")]
    Turn(usize),
    #[error("worker {0} stopped too early")]
    Stopped(u8),
    #[error("worker {0} did not pass the gate before each of its turns, or did not meet the others there")]
    Gate(usize),
    #[error("a fresh desk answers call {0} otherwise")]
    Entry(usize),
    #[error("a fresh server gives another reply at call {0}")]
    Reply(usize),
}
