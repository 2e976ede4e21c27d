//! The close of a book: its workers' receipts are the entries of its history.
ghost use Rattle.std.specs.Prelude.{◌≡◌, ◌≢◌, ◌↔◌, ℕ, ◌+◌, ◌<◌, [], length, vec_len, slice_get, Some, MatchOption, IfOk, IfErr, OnOk, IsTrue};
ghost use Rattle.sk_client.specs.Desk.{pending};
ghost use Rattle.sk_workers.specs.Views.{SharedView, WorkerView};
ghost use Rattle.sk_workers.specs.History.{IsLegal};
ghost use Rattle.sk_workers.specs.Closing.{IsFrom, Agrees, Stands, AllStand, receipts_of, AreDistinct, IsClosed, IsFirstBad, Disagrees, Refuses};

use crate::book::Book;
use crate::entry::{CloseRefusal, HistoryEntry, Receipt};
use crate::worker::Worker;
use sk_client::Desk;
use sk_kernel::Opening;
use std::sync::ledger::{Ledger, Share};

/// The calls that workers made of a desk, the oldest first, and the desk as they left it.
pub struct History {
    pub entries: Vec<HistoryEntry>,
    pub desk: Desk,
}

impl<L: Ledger> Book<L> {
    /// Ends the book, where nothing is pending, each receipt of its workers stands in its history, and its desk began
    /// at this opening with this first request. This takes no memory.
    pub fn close(
        self,
        workers: Vec<Worker<L>>,
        opening: &Opening,
        first: u64,
    ) -> Result<History, (Book<L>, Vec<Worker<L>>, CloseRefusal)>
        requires workers { vec_len workers ≡ L.parts }
        requires distinct { AreDistinct workers.items }
        ensures closed { IfOk result
            (λ h. IsClosed (record { opening = opening.now; first = first }) workers.items
            h.entries.items h.desk) }
        ensures same { IfOk result (λ h. (h.entries.items ≡ self.history) × (h.desk ≡ self.desk)) }
        ensures back { IfErr result (λ back. (back.0 ≡ self) × (back.1 ≡ workers)) }
        ensures refused { IfErr result
            (λ back. Refuses (record { opening = opening.now; first = first }) workers.items self
            back.2) }
        ensures legal { IfErr result (λ back. IsLegal back.0.history back.0.desk) }
    {
        match self.check(&workers, opening, first) {
            Ok(()) => Ok(self.settle(workers)),
            Err(refusal) => Err((self, workers, refusal)),
        }
    }

    /// Whether the book may be closed.
    fn check(
        &self,
        workers: &Vec<Worker<L>>,
        opening: &Opening,
        first: u64,
    ) -> Result<(), CloseRefusal>
        ensures ok { OnOk result
            ((pending self.now.desk ≡ []) × AllStand self.now.history workers.now.items
            × IsFrom (record { opening = opening.now; first = first }) self.now.desk) }
        ensures err { IfErr result
            (Refuses (record { opening = opening.now; first = first }) workers.now.items self.now) }
    {
        let pending = self.desk.pending();
        if pending > 0 {
            return Err(CloseRefusal::Pending(pending));
        }
        if let Some((worker, receipt)) = self.disagreement(workers) {
            return Err(CloseRefusal::Disagree { worker, receipt });
        }
        if !is_from(&self.desk, opening, first) {
            return Err(CloseRefusal::Other);
        }
        Ok(())
    }

    /// The first of its workers with a receipt that does not stand, by its number, and the first such receipt.
    fn disagreement(&self, workers: &Vec<Worker<L>>) -> Option<(u8, usize)>
        ensures { MatchOption result (AllStand self.now.history workers.now.items)
            (λ found. Disagrees self.now.history workers.now.items found.0 found.1) }
    {
        disagreement(self.history.as_slice(), workers)
    }

    /// The history, which has as many entries as the workers have receipts.
    fn settle(self, workers: Vec<Worker<L>>) -> History
        requires { vec_len workers ≡ L.parts }
        ensures same { (result.entries.items ≡ self.history) × (result.desk ≡ self.desk) }
        ensures legal { IsLegal self.history self.desk }
        ensures count { length self.history ≡ receipts_of workers.items }
    {
        let Book {
            desk,
            history,
            mut tally,
        } = self;
        let mut all = gather(workers);
        tally.audit(&mut all);
        History {
            entries: history,
            desk,
        }
    }
}

/// Whether a desk began at this opening with this first request.
fn is_from(desk: &Desk, opening: &Opening, first: u64) -> bool
    ensures { IsTrue result ↔ IsFrom (record { opening = opening.now; first = first }) desk.now }
{
    if desk.first() != first {
        return false;
    }
    *desk.kernel().opening() == *opening
}

/// The shares of all workers, put together.
fn gather<L: Ledger>(workers: Vec<Worker<L>>) -> Share<L>
    requires { 0 < vec_len workers }
    ensures parts { result.parts ≡ vec_len workers }
    ensures amount { result.amount ≡ receipts_of workers.items }
{
    let mut workers = workers;
    let Some(last) = workers.pop() else {
        unreachable!()
    };
    let mut all = last.into_share();
    while let Some(worker) = workers.pop() {
        all.merge(worker.into_share());
    }
    all
}

/// The first worker with a receipt that does not stand, by its number, and the first such receipt.
fn disagreement<L: Ledger>(
    history: &[HistoryEntry],
    workers: &Vec<Worker<L>>,
) -> Option<(u8, usize)>
    ensures { MatchOption result (AllStand history.now workers.now.items)
        (λ found. Disagrees history.now workers.now.items found.0 found.1) }
{
    for i in 0..workers.len() {
        let worker = &workers[i];
        if let Some(receipt) = worker.first_bad(history) {
            return Some((worker.number(), receipt));
        }
    }
    None
}

impl<L: Ledger> Worker<L> {
    /// The first of its receipts that does not stand in the history, or not above the one before it.
    fn first_bad(&self, history: &[HistoryEntry]) -> Option<usize>
        ensures { MatchOption result (Stands history.now self.now)
            (IsFirstBad history.now self.now.receipts) }
    {
        bad_in(history, self.receipts.as_slice())
    }
}

/// The first receipt that does not stand, or not above the one before it.
fn bad_in(history: &[HistoryEntry], receipts: &[Receipt]) -> Option<usize>
    ensures { MatchOption result
        ((k : ℕ) → k < length receipts.now → Agrees history.now receipts.now k)
        (IsFirstBad history.now receipts.now) }
{
    for k in 0..receipts.len() {
        if !agrees(history, receipts, k) {
            return Some(k);
        }
    }
    None
}

/// Whether a receipt stands in the history, above the one before it.
fn agrees(history: &[HistoryEntry], receipts: &[Receipt], k: usize) -> bool
    requires { k < length receipts.now }
    ensures { IsTrue result ↔ Agrees history.now receipts.now k }
{
    let this = &receipts[k];
    stands(history, this) && (k == 0 || receipts[k - 1].place < this.place)
}

/// Whether a receipt stands in the history.
fn stands(history: &[HistoryEntry], receipt: &Receipt) -> bool
    ensures { IsTrue result ↔ (slice_get history.now receipt.now.place ≡ Some receipt.now.entry) }
{
    if receipt.place >= history.len() as u64 {
        return false;
    }
    history[receipt.place as usize].is_same(&receipt.entry)
}
