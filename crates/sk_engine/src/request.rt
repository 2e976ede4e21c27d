//! What a host asks the engine, and what it is to do on each answer.
ghost use Rattle.std.specs.Prelude.{◌≡◌};
ghost use Rattle.sk_engine.specs.Told.{batch_told, fence_told, lead_told, leads, round_told};

use crate::answer::{BatchAnswer, FenceAnswer, Held, LeadAnswer, RoundAnswer};

/// What a host is told by an answer.
#[derive(Clone, Copy, PartialEq, Eq)]
pub enum Told {
    /// The batch of this number stands in the log.
    Synced(u64),
    /// The batch of this number never will.
    Lost(u64),
    /// Nobody can know whether the batch of this number stood in the log: its clients get no answer.
    Unknowable(u64),
    /// The leadership held at some moment after this round was begun.
    Still(u64),
    /// Nothing stands behind the gap: batches are sent from its number on.
    Serves,
    /// The leadership is over: no new batch, and those in flight wait for words of their own.
    Over,
    /// Nothing is known: the same is asked again, until an answer tells more.
    Again,
    /// This leadership is the host's own.
    Claimed(u64),
    /// Another host leads: it is waited for.
    Waits,
    /// The engine contradicts itself: stop, and answer nothing more.
    Breach,
}

/// A batch with a number, to be put by a leadership where nothing stands under its number.
#[derive(Clone, Copy, PartialEq, Eq)]
pub struct Batch {
    pub leadership: u64,
    pub number: u64,
}

/// What a new leadership does first: all from the gap on is deleted, once.
#[derive(Clone, Copy, PartialEq, Eq)]
pub struct Fence {
    pub leadership: u64,
    pub gap: u64,
}

/// A question whether a leadership still holds.
#[derive(Clone, Copy, PartialEq, Eq)]
pub struct Round {
    pub leadership: u64,
    pub number: u64,
}

/// Whether the leader is of this leadership.
fn is_led(leadership: u64, leader: Option<u64>) -> bool
    ensures { result ≡ leads leadership leader }
{
    match leader {
        Some(other) => other == leadership,
        None => false,
    }
}

impl LeadAnswer {
    /// What an answer to one of the tries to lead tells.
    pub fn told(self) -> Told
        ensures { result ≡ lead_told self }
    {
        match self {
            LeadAnswer::Done(leadership) => Told::Claimed(leadership),
            LeadAnswer::Unknown => Told::Again,
            LeadAnswer::Not(seen) => match seen.held {
                Held::Mine => Told::Claimed(seen.leadership),
                Held::Another => Told::Waits,
                Held::Absent => Told::Breach,
            },
        }
    }
}

impl Batch {
    /// What an answer to one of its tries tells.
    pub fn told(&self, answer: BatchAnswer) -> Told
        ensures { result ≡ batch_told self.now answer }
    {
        let seen = match answer {
            BatchAnswer::Done => return Told::Synced(self.number),
            BatchAnswer::Unknown => return Told::Again,
            BatchAnswer::Not(seen) => seen,
        };
        match seen.held {
            Held::Mine => Told::Synced(self.number),
            _ if is_led(self.leadership, seen.leader) => Told::Breach,
            _ if self.number <= seen.snap => Told::Unknowable(self.number),
            _ => Told::Lost(self.number),
        }
    }
}

impl Fence {
    /// What an answer to one of its tries tells.
    pub fn told(&self, answer: FenceAnswer) -> Told
        ensures { result ≡ fence_told self.now answer }
    {
        match answer {
            FenceAnswer::Done => Told::Serves,
            FenceAnswer::Unknown => Told::Again,
            FenceAnswer::Not(seen) => {
                if !is_led(self.leadership, seen.leader) {
                    Told::Over
                } else if seen.fence == self.leadership {
                    Told::Serves
                } else {
                    Told::Breach
                }
            }
        }
    }
}

impl Round {
    /// What its answer tells.
    pub fn told(&self, answer: RoundAnswer) -> Told
        ensures { result ≡ round_told self.now answer }
    {
        match answer {
            RoundAnswer::Unknown => Told::Again,
            RoundAnswer::Seen(leader) => {
                if is_led(self.leadership, leader) {
                    Told::Still(self.number)
                } else {
                    Told::Over
                }
            }
        }
    }
}
