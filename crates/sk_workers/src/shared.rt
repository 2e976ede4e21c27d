//! A book under a lock.
ghost use Rattle.std.specs.Prelude.{◌≡◌, ◌⊎◌, ◌≤◌, List, [], vec_len, Err, IfOk, IfErr};
ghost use Rattle.sk_kernel.specs.Opening.{opening_of};
ghost use Rattle.sk_plain.specs.Leased.{Lends};
ghost use Rattle.sk_client.specs.Desk.{opened_at};
ghost use Rattle.sk_client.specs.Leasing.{desk_lease};
ghost use Rattle.sk_workers.specs.declared.entry.HistoryEntry.{HistoryEntry};
ghost use Rattle.sk_workers.specs.declared.worker.TheConstants.{WORKERS_LIMIT};
ghost use Rattle.sk_workers.specs.Views.{BookView, WorkerView};
ghost use Rattle.sk_workers.specs.History.{AreFresh, IsLegal, Told, TurnTold, HandInTold, AnyTold, IsLentAny, IsLeaseOf, IsHandedOut, answer_alone};
ghost use Rattle.sk_workers.specs.Closing.{AreDistinct, IsClosed, Refuses, begins_turn};

use crate::book::{Book, Leased};
use crate::closing::History;
use crate::entry::{Answered, CloseRefusal, DeskCall};
use crate::worker::Worker;
use sk_client::{Desk, Given, ReplyRefusal, Turn};
use sk_ids::Pid;
use sk_kernel::{HandIn, Opening};
use sk_plain::Refusal;
use sk_script::Lease;
use sk_server::{Reply, Request};
use std::alloc::{AllocError, Global};
use std::hint::spin_loop;
use std::marker::Model;
use std::sync::atomic::{AtomicBool, Ordering};
use std::sync::ledger::{Blank, Ledger};
use std::sync::{Mutex, MutexGuard, Wait};
use std::thread::yield_now;

/// How often a thread tries to take the lock before it waits asleep, which costs far more than a call under it.
const TRIES: u32 = 10_000;

/// After how many tries the thread lets others run first.
const YIELDS: u32 = 2_500;

/// What a worker passes before its turn takes the lock.
pub trait Gate {
    /// `turn` is the number of the worker's earlier calls of `turn`; it stays at its last value.
    fn before(&self, worker: u8, turn: u64);
}

/// Pauses before the next try; now and then the thread lets others run first.
fn pause(tries: u32) {
    if tries % YIELDS == YIELDS - 1 {
        yield_now();
    } else {
        spin_loop();
    }
}

/// A desk that workers in several threads share, and beside its lock where it was opened. It can't be dropped: `close` or
/// `reopen` it.
pub struct Shared<L: Ledger> {
    book: Mutex<Book<L>>,
    opening: Opening,
    first: u64,
    /// Whether a request may wait: set by a turn that made one, and cleared where none is found, while the lock is held.
    may_wait: AtomicBool,
}

impl<L: Ledger> Model for Shared<L> {
    ghost use Rattle.sk_workers.specs.Views.{SharedView, shared_code};

    ghost Value = { SharedView };

    ghost coded = { shared_code };

    ghost view = { λ s. record { opening = s.opening; first = s.first } };
}

impl<L: Ledger> Shared<L> {
    /// Shares a desk on which nothing was done in its epoch among n workers, 1 to `WORKERS_LIMIT`, numbered from 0. Where memory
    /// runs out the ledger and the desk come back.
    pub fn new(
        alloc: Global,
        blank: Blank,
        desk: Desk,
        n: u8,
    ) -> Result<(Shared<L>, Vec<Worker<L>>), (Blank, Desk, AllocError)>
        requires ledger { (blank.name ≡ L.name) × (blank.parts ≡ L.parts) × (L.parts ≡ n) }
        requires count { (1 ≤ n) × (n ≤ WORKERS_LIMIT) }
        requires opened { desk ≡ opened_at desk.kernel desk.first }
        requires trace { desk.kernel.trace ≡ [] }
        ensures shared { IfOk result
            (λ made. (made.0.opening ≡ opening_of desk.kernel) × (made.0.first ≡ desk.first)) }
        ensures workers { IfOk result (λ made. AreFresh n made.1.items) }
        ensures err { IfErr result (λ back. (back.0 ≡ blank) × (back.1 ≡ desk)) }
    {
        let opening = match desk.kernel().opening().copy() {
            Ok(opening) => opening,
            Err(error) => return Err((blank, desk, error)),
        };
        let first = desk.first();
        let (book, workers) = Book::<L>::new(alloc, blank, desk, n)?;
        let shared = Shared {
            book: Mutex::new(book),
            opening,
            first,
            may_wait: AtomicBool::new(false),
        };
        Ok((shared, workers))
    }

    /// The desk's turn of a process, for a worker, behind the gate. Where memory runs out there is no receipt.
    pub fn turn<R: Wait, G: Gate>(
        &self,
        rt: &R,
        worker: Worker<L>,
        pid: Pid,
        gate: &G,
    ) -> (Worker<L>, Result<Turn, Refusal>)
        ensures { TurnTold result.1 (begins_turn worker) pid result.0 }
    {
        let (number, turn, worker) = worker.begin_turn();
        gate.before(number, turn);
        let mut book = self.hold(rt);
        let (worker, answer) = book.turn(worker, pid);
        self.note(&answer);
        (worker, answer)
    }

    /// `hand_in` of the lease in its place, if there is one, which is given up where it is refused; then the `turn` of a
    /// process; then the `lease` of the next into the same place, if there is one: behind the gate, with the lock held once.
    pub fn turn_with_leases<R: Wait, G: Gate>(
        &self,
        rt: &R,
        worker: Worker<L>,
        lease: &mut Option<Lease>,
        pid: Pid,
        next: Option<Pid>,
        gate: &G,
    ) -> (Worker<L>, Leased)
        ensures calls { (v : WorkerView) × AnyTold result.1.handed (begins_turn worker) lease.old v
            × TurnTold result.1.answer v pid result.0 }
        ensures lent { IsLentAny result.1.lent lease.new next }
        ensures own { IsLeaseOf lease.new next }
    {
        let (number, turn, worker) = worker.begin_turn();
        gate.before(number, turn);
        let mut book = self.hold(rt);
        let (worker, leased) = book.turn_with_leases(worker, lease, pid, next);
        self.note(&leased.answer);
        (worker, leased)
    }

    /// Takes the lock.
    fn hold<R: Wait>(&self, rt: &R) -> MutexGuard<'_, Book<L>> {
        for tries in 0..TRIES {
            if let Some(book) = self.book.try_lock() {
                return book;
            }
            pause(tries);
        }
        self.book.lock(rt)
    }

    /// Notes that a request may wait, after a turn that made one and before the lock is free.
    fn note(&self, answer: &Result<Turn, Refusal>) {
        if matches!(answer, Ok(Turn::Guessed(_) | Turn::Asked(_))) {
            self.may_wait.store(true, Ordering::SeqCst);
        }
    }

    /// Gives the desk a reply, for a worker. Where memory runs out there is no receipt.
    pub fn reply<R: Wait>(
        &self,
        rt: &R,
        worker: Worker<L>,
        reply: Reply,
    ) -> (Worker<L>, Result<Given, (Reply, ReplyRefusal)>)
        ensures back { IfErr result.1 (λ back. back.0 ≡ reply) }
        ensures receipt { ((answer_alone result.1 ≡ Err ReplyRefusal.Memory) × (result.0 ≡ worker))
            ⊎ Told worker (DeskCall.Reply reply) (Answered.Replied (answer_alone result.1))
            result.0 }
    {
        self.hold(rt).reply(worker, reply)
    }

    /// Lends a process, for a worker. There is no receipt.
    pub fn lease<R: Wait>(
        &self,
        rt: &R,
        worker: Worker<L>,
        pid: Pid,
    ) -> (Worker<L>, Result<Lease, Refusal>)
        ensures lease { (book : BookView) × IsLegal book.history book.desk
            × Lends result.1 (desk_lease book.desk pid) }
        ensures own { IfOk result.1 (λ lease. lease.lent.pid ≡ pid) }
        ensures same { result.0 ≡ worker }
    {
        self.hold(rt).lease(worker, pid)
    }

    /// Takes a lease in, for a worker; after a refusal it comes back. Where memory runs out there
    /// is no receipt.
    pub fn hand_in<R: Wait>(
        &self,
        rt: &R,
        worker: Worker<L>,
        lease: Lease,
    ) -> (Worker<L>, Result<(), (Lease, HandIn)>)
        ensures back { IfErr result.1 (λ back. back.0 ≡ lease) }
        ensures receipt { HandInTold (answer_alone result.1) worker lease result.0 }
    {
        self.hold(rt).hand_in(worker, lease)
    }

    /// Whether a request may wait, without the lock. It does not say that one does; where none may, none waited.
    pub fn may_wait(&self) -> bool {
        self.may_wait.load(Ordering::SeqCst)
    }

    /// Takes the desk's oldest request that waits; `None` where none does. This takes no memory.
    pub fn next_request<R: Wait>(&self, rt: &R) -> Option<Request>
        ensures { IsHandedOut result }
    {
        let mut book = self.hold(rt);
        let request = book.next_request();
        if request.is_none() {
            self.may_wait.store(false, Ordering::SeqCst);
        }
        request
    }

    /// Ends the sharing, where `Book::close` does: one legal history has the calls of all workers. Else all come
    /// back. This takes no memory.
    pub fn close(
        self,
        workers: Vec<Worker<L>>,
    ) -> Result<History, (Shared<L>, Vec<Worker<L>>, CloseRefusal)>
        requires workers { vec_len workers ≡ L.parts }
        requires distinct { AreDistinct workers.items }
        ensures closed { IfOk result (λ h. IsClosed self workers.items h.entries.items h.desk) }
        ensures back { IfErr result (λ back. (back.0 ≡ self) × (back.1 ≡ workers)) }
        ensures refused { IfErr result
            (λ back. (book : BookView) × IsLegal book.history book.desk
            × Refuses self workers.items book back.2) }
    {
        let Shared {
            book,
            opening,
            first,
            may_wait: _,
        } = self;
        match book.into_inner().close(workers, &opening, first) {
            Ok(history) => Ok(history),
            Err((book, workers, refusal)) => {
                let shared = Shared {
                    book: Mutex::new(book),
                    opening,
                    first,
                    may_wait: AtomicBool::new(true),
                };
                Err((shared, workers, refusal))
            }
        }
    }

    /// The desk alone, where a legal history ends. This takes no memory.
    pub fn reopen(self) -> Desk
        ensures { (history : List HistoryEntry) × IsLegal history result }
    {
        let Shared {
            book,
            opening: _,
            first: _,
            may_wait: _,
        } = self;
        book.into_inner().reopen()
    }
}
