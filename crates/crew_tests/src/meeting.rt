//! Where the workers of a crew meet.
use sk_workers::{DeskCall, Gate, HistoryEntry};
use std::alloc::{AllocError, Global};
use std::sync::atomic::{AtomicU64, Ordering};
use std::thread;
use tests_support::finding::Finding;

/// How often a worker looks for the others.
const ROUNDS: u64 = 1_000_000_000;

/// Counts the turns that each worker begins in their order. Before its second turn a worker waits until the first so many
/// workers have come to theirs; after so many rounds it counts no more.
#[derive(Drop)]
pub struct Meeting {
    begun: Vec<AtomicU64>,
    guests: usize,
}

/// Adds so many counts that begin at 0.
fn adds_counts(begun: &mut Vec<AtomicU64>, workers: u8) -> Result<(), AllocError> {
    for _ in 0..workers {
        begun.push(AtomicU64::new(0))?;
    }
    Ok(())
}

impl Meeting {
    /// Of so many workers, the first of which wait for each other.
    pub fn new(alloc: Global, workers: u8, guests: usize) -> Result<Meeting, AllocError> {
        let mut begun = Vec::new(alloc);
        adds_counts(&mut begun, workers)?;
        Ok(Meeting { begun, guests })
    }

    /// Whether all that meet have come to their second turn.
    fn is_full(&self) -> bool {
        let mut guests = self.begun.iter().take(self.guests);
        guests.all(|begun| begun.load(Ordering::SeqCst) > 1)
    }

    /// Whether the workers met, and each passed the gate before each of its turns.
    pub fn judge(&self, entries: &[HistoryEntry]) -> Result<(), Finding> {
        for (worker, begun) in self.begun.iter().enumerate() {
            if begun.load(Ordering::SeqCst) != turns_of(worker, entries) {
                return Err(Finding::Gate(worker));
            }
        }
        Ok(())
    }
}

/// How many turns of a history are a worker's.
fn turns_of(worker: usize, entries: &[HistoryEntry]) -> u64 {
    let mut turns = 0u64;
    for entry in entries {
        let is_turn = matches!(&entry.call, DeskCall::Turn(_));
        if is_turn && usize::from(entry.worker) == worker {
            turns = turns.saturating_add(1);
        }
    }
    turns
}

impl Gate for Meeting {
    fn before(&self, worker: u8, turn: u64) {
        let Some(begun) = self.begun.get(usize::from(worker)) else {
            return;
        };
        if begun.load(Ordering::SeqCst) == turn {
            begun.fetch_add(1, Ordering::SeqCst);
        }
        if turn != 1 {
            return;
        }
        for _ in 0..ROUNDS {
            if self.is_full() {
                return;
            }
            thread::yield_now();
        }
        begun.store(0, Ordering::SeqCst);
    }
}
