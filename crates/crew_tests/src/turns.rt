//! Whose the calls of a history are, and in which order each worker made its own.
ghost use Rattle.std.specs.Prelude.{◌≤◌};

use sk_crew::CrewPlan;
use sk_ids::{Entity, Pid};
use sk_kernel::Kernel;
use sk_plain::Refusal;
use sk_workers::{Answered, DeskCall, HistoryEntry};
use std::alloc::{AllocFailed, Global};
use tests_support::finding::Finding;

/// Adds the processes of a worker: those whose places, by rising number from 0, are its own number modulo that of the workers.
fn adds_processes(
    own: &mut Vec<Pid>,
    present: &[Entity],
    workers: u8,
    worker: u8,
) -> Result<(), AllocFailed<Pid>>
    requires { 1 ≤ workers }
{
    let mut place = 0usize;
    for entity in present {
        if let Entity::Proc(pid) = entity {
            if place % usize::from(workers) == usize::from(worker) {
                own.push(*pid)?;
            }
            place = place.saturating_add(1);
        }
    }
    Ok(())
}

/// How far a worker is.
#[derive(Clone, Copy)]
struct Progress {
    turns: u32,
    /// The turns of this round.
    taken: usize,
    /// Whether each turn of this round was answered `Ended`.
    is_ended: bool,
    has_stopped: bool,
    /// Whether a lease was handed in since the last turn.
    is_ahead: bool,
}

/// Whether a worker's turns go round its processes, one each, until a whole round was answered `Ended`, or for as many turns
/// as the plan says; before each of them at most one lease of its process is handed in.
fn judge_turns(
    own: &[Pid],
    plan: CrewPlan,
    worker: u8,
    entries: &[HistoryEntry],
) -> Result<(), Finding> {
    let mut progress = Progress::of(own);
    for (place, entry) in entries.iter().enumerate() {
        if entry.worker == worker && !progress.makes(own, entry) {
            return Err(Finding::Turn(place));
        }
    }
    if progress.has_stopped || progress.turns == plan.turns {
        Ok(())
    } else {
        Err(Finding::Stopped(worker))
    }
}

impl Progress {
    /// Before the first turn of one of these processes.
    fn of(own: &[Pid]) -> Progress {
        Progress {
            turns: 0,
            taken: 0,
            is_ended: true,
            has_stopped: own.is_empty(),
            is_ahead: false,
        }
    }

    /// Whether the process of a call is the one that is due.
    fn is_due(&self, own: &[Pid], pid: Pid) -> bool {
        !self.has_stopped && own.get(self.taken) == Some(&pid)
    }

    /// Goes on after a lease was handed in: whether it is the only one before the turn.
    fn runs_ahead(&mut self) -> bool {
        let is_first = !self.is_ahead;
        self.is_ahead = true;
        is_first
    }

    /// Goes on after a call: whether it is one that its worker makes then.
    fn makes(&mut self, own: &[Pid], entry: &HistoryEntry) -> bool {
        match &entry.call {
            DeskCall::Turn(pid) if self.is_due(own, *pid) => {
                self.pass(own.len(), entry.answer);
                true
            }
            DeskCall::HandIn { process, .. } if self.is_due(own, *process) => self.runs_ahead(),
            DeskCall::Turn(_) | DeskCall::HandIn { .. } => false,
            DeskCall::Reply(_) => true,
        }
    }

    /// Goes on after a turn of one of so many processes.
    fn pass(&mut self, count: usize, answer: Answered) {
        self.is_ahead = false;
        self.turns = self.turns.saturating_add(1);
        self.taken = self.taken.saturating_add(1);
        self.is_ended = self.is_ended && answer == Answered::Turned(Err(Refusal::Ended));
        if self.taken == count {
            self.has_stopped = self.is_ended;
            self.taken = 0;
            self.is_ended = true;
        }
    }
}

/// Whether each call is one that its worker may make: worker 0 gives the replies, and a lease has no more instructions than
/// the plan says.
fn judge_owners(plan: CrewPlan, entries: &[HistoryEntry]) -> Result<(), Finding> {
    for (place, entry) in entries.iter().enumerate() {
        let is_own = match &entry.call {
            DeskCall::Turn(_) => entry.worker < plan.workers,
            DeskCall::HandIn { count, .. } => {
                entry.worker < plan.workers && 0 < *count && *count <= plan.ahead
            }
            DeskCall::Reply(_) => entry.worker == 0,
        };
        if !is_own {
            return Err(Finding::Owner(place));
        }
    }
    Ok(())
}

/// Whether a worker made the turns that are its own, of these that are there.
fn judge_worker(
    alloc: Global,
    present: &[Entity],
    plan: CrewPlan,
    worker: u8,
    entries: &[HistoryEntry],
) -> Result<(), Finding>
    requires { 1 ≤ plan.workers }
{
    let mut own = Vec::new(alloc);
    adds_processes(&mut own, present, plan.workers, worker)?;
    judge_turns(&own, plan, worker, entries)
}

/// Whether each of them did.
fn judge_workers(
    alloc: Global,
    present: &[Entity],
    plan: CrewPlan,
    entries: &[HistoryEntry],
) -> Result<(), Finding>
    requires { 1 ≤ plan.workers }
{
    for worker in 0..plan.workers {
        judge_worker(alloc, present, plan, worker, entries)?;
    }
    Ok(())
}

/// Whether each worker made the calls that are its own, on a kernel just booted.
pub fn judge_calls(
    alloc: Global,
    booted: &Kernel,
    plan: CrewPlan,
    entries: &[HistoryEntry],
) -> Result<(), Finding>
    requires { 1 ≤ plan.workers }
{
    judge_owners(plan, entries)?;
    let present = booted.entities()?;
    judge_workers(alloc, &present, plan, entries)
}
