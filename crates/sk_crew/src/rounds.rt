//! The rounds that a worker makes of its processes.
ghost use Rattle.std.specs.Prelude.{◌≡◌};
ghost use Rattle.sk_crew.specs.Rounds.{fresh, due, next, after, is_ended};

use sk_client::Turn;
use sk_plain::Refusal;

/// How far a worker is in its rounds. Its processes are every so many of all, one after the other, and it stops after a
/// round of which each turn was answered `Ended`.
#[derive(Clone, Copy)]
pub(crate) struct Rounds {
    /// How many processes there are.
    count: usize,
    /// The place of the worker's first process.
    first: usize,
    step: usize,
    /// The place of the process whose turn it is.
    at: usize,
    /// Whether each turn of this round so far was answered `Ended`.
    is_ended: bool,
    is_over: bool,
}

impl Rounds {
    /// The rounds of the worker of a number, one of so many, over so many processes.
    pub(crate) fn new(number: u8, workers: u8, count: usize) -> Rounds
        ensures { result ≡ fresh number workers count }
    {
        let first = usize::from(number);
        Rounds {
            count,
            first,
            step: usize::from(workers),
            at: first,
            is_ended: true,
            is_over: first >= count,
        }
    }

    /// The place of the process whose turn it is; `None` once the worker has stopped.
    pub(crate) fn due(&self) -> Option<usize>
        ensures { result ≡ due self.now }
    {
        if self.is_over {
            return None;
        }
        Some(self.at)
    }

    /// The place of the process whose turn comes after this one, where the worker goes on.
    pub(crate) fn next(&self) -> usize
        ensures { result ≡ next self.now }
    {
        let further = self.at.saturating_add(self.step);
        if further < self.count {
            further
        } else {
            self.first
        }
    }

    /// Goes on after a turn that was answered `Ended`, or was not.
    pub(crate) fn take(&mut self, is_ended: bool)
        ensures { self.new ≡ after is_ended self.old }
    {
        let is_ended = self.is_ended && is_ended;
        let next = self.at.saturating_add(self.step);
        if next < self.count {
            self.at = next;
            self.is_ended = is_ended;
        } else {
            self.at = self.first;
            self.is_ended = true;
            self.is_over = is_ended;
        }
    }
}

/// Whether a turn was answered `Ended`.
pub(crate) fn is_ended(answer: &Result<Turn, Refusal>) -> bool
    ensures { result ≡ is_ended answer.now }
{
    matches!(answer, Err(Refusal::Ended))
}
