//! What commits leave of notes, which is dropped in pieces.
ghost use Rattle.std.specs.Prelude.{◌≡◌, ◌-◌, [], length, take};

use crate::notes::Kept;
use std::alloc::Global;

/// The notes of keys that a commit left without notes, each key's by themselves.
#[derive(Drop)]
pub(crate) struct Left<V, U> {
    alloc: Global,
    logs: Vec<Vec<Kept<V, U>>>,
}

impl<V, U> Left<V, U> {
    pub(crate) fn new(alloc: Global) -> Left<V, U>
        ensures { result.logs.items ≡ [] }
    {
        Left {
            alloc,
            logs: Vec::new(alloc),
        }
    }
}

impl<V: Drop, U: Drop> Left<V, U> {
    /// Keeps notes to be dropped later. Without memory they are dropped at once.
    pub(crate) fn keep(&mut self, log: Vec<Kept<V, U>>) {
        if log.is_empty() {
            return;
        }
        let _kept = self.logs.push(log);
    }

    /// Drops those of so many keys, the newest first, and answers of how many there are still some.
    pub(crate) fn let_go(&mut self, most: usize) -> usize
        ensures logs { self.new.logs.items
            ≡ take (length self.old.logs.items - most) self.old.logs.items }
        ensures left { result ≡ length self.new.logs.items }
    {
        let left = self.logs.len().saturating_sub(most);
        if left == 0 {
            self.logs = Vec::new(self.alloc);
            return 0;
        }
        self.logs.truncate(left);
        left
    }
}
