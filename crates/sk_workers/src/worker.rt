//! Workers.
ghost use Rattle.std.specs.Prelude.{◌≡◌, length};
ghost use Rattle.sk_workers.specs.History.{fresh};
ghost use Rattle.sk_workers.specs.Closing.{begins_turn};

use crate::entry::Receipt;
use std::alloc::Global;
use std::marker::Model;
use std::sync::ledger::{Ledger, Share};

/// How many workers share a desk at most.
pub const WORKERS_LIMIT: u8 = 8;

/// Who makes calls of a desk, with a receipt for each answer. It can't be copied. Where one is dropped, its
/// book can no longer be closed.
#[derive(Drop)]
pub struct Worker<L: Ledger> {
    pub(crate) number: u8,
    pub(crate) turns: u64,
    pub(crate) receipts: Vec<Receipt>,
    pub(crate) share: Share<L>,
}

impl<L: Ledger> Model for Worker<L> {
    ghost use Rattle.sk_workers.specs.Views.{WorkerView};
    ghost use Rattle.sk_workers.specs.Invariants.{IsTidyWorker};

    ghost Value = { WorkerView };

    ghost view = { λ w. record
        { number = w.number; turns = w.turns; receipts = w.receipts.items } };

    ghost invariant = { λ w. IsTidyWorker w.number w.receipts.items
        w.share.parts w.share.amount };
}

impl<L: Ledger> Worker<L> {
    /// A worker without receipts, for one part of a ledger.
    pub(crate) fn new(alloc: Global, number: u8, share: Share<L>) -> Worker<L>
        requires { (share.parts ≡ 1) × (share.amount ≡ 0) }
        ensures { result ≡ fresh number }
    {
        Worker {
            number,
            turns: 0,
            receipts: Vec::new(alloc),
            share,
        }
    }

    /// Its number, from 0.
    pub fn number(&self) -> u8
        ensures { result ≡ self.now.number }
    {
        self.number
    }

    /// The receipts for its calls, the oldest first.
    pub fn receipts(&self) -> &[Receipt]
        ensures { result.now ≡ self.now.receipts }
    {
        self.receipts.as_slice()
    }
    /// Begins a turn: its number, how many turns it began before, and itself with one more; that number stays at
    /// its last value.
    pub(crate) fn begin_turn(self) -> (u8, u64, Worker<L>)
        ensures number { result.0 ≡ self.number }
        ensures turn { result.1 ≡ self.turns }
        ensures worker { result.2 ≡ begins_turn self }
    {
        let mut worker = self;
        let turn = worker.turns;
        if turn < u64::MAX {
            worker.turns = turn + 1;
        }
        (worker.number, turn, worker)
    }

    /// What is left of a worker: its share.
    pub(crate) fn into_share(self) -> Share<L>
        ensures { (result.parts ≡ 1) × (result.amount ≡ length self.receipts) }
    {
        let Worker {
            number: _,
            turns: _,
            receipts: _,
            share,
        } = self;
        share
    }
}
