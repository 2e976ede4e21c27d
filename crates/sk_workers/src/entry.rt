//! Entries of a history, and receipts for them.
ghost use Rattle.std.specs.Prelude.{◌≡◌, ◌↔◌, IsTrue};

use crate::kept_reply::KeptReply;
use sk_client::{Given, ReplyRefusal, Turn};
use sk_ids::Pid;
use sk_kernel::HandIn;
use sk_plain::Refusal;
use thiserror::Error;

/// A call of the desk.
#[derive(Debug, PartialEq, Eq, Drop)]
pub enum DeskCall {
    /// A turn of a process.
    Turn(Pid),
    Reply(KeptReply),
    /// A lease of this process is handed in, with so many private instructions done.
    HandIn { process: Pid, count: u32 },
}

/// What the desk answered, without a reply or a lease that came back.
#[derive(Clone, Copy, Debug, PartialEq, Eq)]
pub enum Answered {
    Turned(Result<Turn, Refusal>),
    Replied(Result<Given, ReplyRefusal>),
    HandedIn(Result<(), HandIn>),
}

/// A call of a worker and its answer.
#[derive(Debug, PartialEq, Eq, Drop)]
pub struct HistoryEntry {
    /// The worker's number, from 0.
    pub worker: u8,
    pub call: DeskCall,
    pub answer: Answered,
    /// How many requests had been taken from the desk before the call.
    pub taken: u64,
}

/// An entry, and its place in the history, from 0.
#[derive(Debug, PartialEq, Eq, Drop)]
pub struct Receipt {
    pub place: u64,
    pub entry: HistoryEntry,
}

/// Why a history was not closed, in the order in which the causes are tried.
#[derive(Clone, Copy, Debug, PartialEq, Eq, Error)]
pub enum CloseRefusal {
    #[error("{0} requests have no reply")]
    Pending(usize),
    /// This worker's receipt of this index does not stand in the history, or not above the one before it.
    #[error("receipt {receipt} of worker {worker} does not stand in the history")]
    Disagree { worker: u8, receipt: usize },
    #[error("the desk was opened elsewhere")]
    Other,
}

impl DeskCall {
    /// Whether both are the same.
    pub fn is_same(&self, other: &DeskCall) -> bool
        ensures { IsTrue result ↔ (self.now ≡ other.now) }
    {
        match (self, other) {
            (DeskCall::Turn(pid), DeskCall::Turn(other)) => *pid == *other,
            (DeskCall::Reply(reply), DeskCall::Reply(other)) => reply.is_same(other),
            (
                DeskCall::HandIn { process, count },
                DeskCall::HandIn {
                    process: other,
                    count: times,
                },
            ) => *process == *other && *count == *times,
            _ => false,
        }
    }
}

impl Answered {
    /// Whether both are the same.
    pub fn is_same(&self, other: &Answered) -> bool
        ensures { IsTrue result ↔ (self.now ≡ other.now) }
    {
        *self == *other
    }
}

impl HistoryEntry {
    /// Whether both are the same.
    pub fn is_same(&self, other: &HistoryEntry) -> bool
        ensures { IsTrue result ↔ (self.now ≡ other.now) }
    {
        if self.worker != other.worker || self.taken != other.taken {
            return false;
        }
        if !self.call.is_same(&other.call) {
            return false;
        }
        self.answer.is_same(&other.answer)
    }
}
