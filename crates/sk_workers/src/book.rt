//! A desk with the history of its calls.
ghost use Rattle.std.specs.Prelude.{◌≡◌, ◌⊎◌, ◌↔◌, ◌+◌, ◌<◌, ◌≤◌, [], ◌∷◌, ◌++◌, length, vec_len, vec_capacity, Ok, Err, IfOk, IfErr, OnOk, MatchOption, IsTrue};
ghost use Rattle.sk_script.specs.Lease.{after_private};
ghost use Rattle.sk_plain.specs.Leased.{Lends};
ghost use Rattle.sk_client.specs.Desk.{opened_at, first_sent, first_taken};
ghost use Rattle.sk_client.specs.Leasing.{desk_lease, DeskHandInPost};
ghost use Rattle.sk_workers.specs.declared.worker.TheConstants.{WORKERS_LIMIT};
ghost use Rattle.sk_workers.specs.History.{CallPost, Adds, TurnAdds, HandInAdds, TakesAny, LendsAny, IsLeaseOf, AreFresh, IsLegal, receipt, answer_alone};
ghost use Rattle.sk_workers.specs.Views.{BookView, WorkerView};

use crate::entry::{Answered, DeskCall, HistoryEntry, Receipt};
use crate::kept_reply::KeptReply;
use crate::worker::Worker;
use sk_client::{Desk, Given, ReplyRefusal, Turn};
use sk_ids::Pid;
use sk_kernel::HandIn;
use sk_plain::Refusal;
use sk_script::Lease;
use sk_server::{Reply, Request};
use std::alloc::{AllocError, Global};
use std::marker::Model;
use std::sync::ledger::{self, Blank, Ledger, Share};

/// What a turn with leases came to.
pub struct Leased {
    /// The answer to the hand-in before the turn, where there was one.
    pub handed: Option<Result<(), HandIn>>,
    pub answer: Result<Turn, Refusal>,
    /// Whether a process was lent after it, where that was asked for.
    pub lent: Option<Result<(), Refusal>>,
}

/// A desk, the history of the calls that workers made of it, and a ledger's count of them. It can't be dropped:
/// `reopen` it.
pub struct Book<L: Ledger> {
    pub(crate) desk: Desk,
    pub(crate) history: Vec<HistoryEntry>,
    pub(crate) tally: ledger::Book<L>,
}

impl<L: Ledger> Model for Book<L> {
    ghost use Rattle.sk_workers.specs.Views.{BookView, book_code};
    ghost use Rattle.sk_workers.specs.Invariants.{IsTidyBook};

    ghost Value = { BookView };

    ghost coded = { book_code };

    ghost view = { λ b. record { desk = b.desk; history = b.history.items } };

    ghost invariant = { λ b. IsTidyBook b.history.items b.desk b.tally.total L.parts };
}

impl<L: Ledger> Book<L> {
    /// A book round a desk on which nothing was done in its epoch, and n workers, 1 to `WORKERS_LIMIT`, numbered from 0. Where
    /// memory runs out the ledger and the desk come back.
    pub fn new(
        alloc: Global,
        blank: Blank,
        desk: Desk,
        n: u8,
    ) -> Result<(Book<L>, Vec<Worker<L>>), (Blank, Desk, AllocError)>
        requires ledger { (blank.name ≡ L.name) × (blank.parts ≡ L.parts) × (L.parts ≡ n) }
        requires count { (1 ≤ n) × (n ≤ WORKERS_LIMIT) }
        requires opened { desk ≡ opened_at desk.kernel desk.first }
        requires trace { desk.kernel.trace ≡ [] }
        ensures ok { IfOk result
            (λ made. (made.0 ≡ record { desk = desk; history = [] }) × AreFresh n made.1.items) }
        ensures err { IfErr result (λ back. (back.0 ≡ blank) × (back.1 ≡ desk)) }
    {
        let mut workers = match Vec::with_capacity(alloc, usize::from(n)) {
            Ok(workers) => workers,
            Err(error) => return Err((blank, desk, error)),
        };
        let (tally, all) = blank.open::<L>();
        new_workers(alloc, all, n, &mut workers);
        let book = Book {
            desk,
            history: Vec::new(alloc),
            tally,
        };
        Ok((book, workers))
    }

    /// The desk. A legal history ends there.
    pub fn desk(&self) -> &Desk
        ensures desk { result.now ≡ self.now.desk }
        ensures legal { IsLegal self.now.history result.now }
    {
        &self.desk
    }

    /// The desk's turn of a process, for a worker. Where memory runs out, first of all for the entry and the receipt,
    /// the answer is `Memory` and nothing has changed; every other answer is entered.
    pub fn turn(&mut self, worker: Worker<L>, pid: Pid) -> (Worker<L>, Result<Turn, Refusal>)
        ensures { TurnAdds result.1 self.old worker pid self.new result.0 }
    {
        let mut worker = worker;
        if make_room(&mut self.history, &mut worker.receipts).is_err() {
            return (worker, Err(Refusal::Memory));
        }
        let taken = self.desk.requests_taken();
        let Some(answer) = turn_of(&mut self.desk, pid) else {
            return (worker, Err(Refusal::Memory));
        };
        let entry = HistoryEntry {
            worker: worker.number,
            call: DeskCall::Turn(pid),
            answer: turned(&answer),
            taken,
        };
        enter(
            &mut self.history,
            &mut self.tally,
            &mut worker.receipts,
            &mut worker.share,
            entry,
            DeskCall::Turn(pid),
        );
        (worker, answer)
    }

    /// Gives the desk a reply, for a worker. Where memory runs out, first of all for the entry and the receipt, the
    /// answer is `Memory` and nothing has changed; every other answer is entered.
    pub fn reply(
        &mut self,
        worker: Worker<L>,
        reply: Reply,
    ) -> (Worker<L>, Result<Given, (Reply, ReplyRefusal)>)
        ensures back { IfErr result.1 (λ back. back.0 ≡ reply) }
        ensures entered { ((answer_alone result.1 ≡ Err ReplyRefusal.Memory)
            × (self.new ≡ self.old) × (result.0 ≡ worker))
            ⊎ Adds self.old worker (DeskCall.Reply reply)
            (Answered.Replied (answer_alone result.1))
            self.new result.0 }
    {
        let mut worker = worker;
        if make_room(&mut self.history, &mut worker.receipts).is_err() {
            return (worker, Err((reply, ReplyRefusal::Memory)));
        }
        let Ok((call, again)) = calls_of(*self.history.allocator(), &reply) else {
            return (worker, Err((reply, ReplyRefusal::Memory)));
        };
        let taken = self.desk.requests_taken();
        let given = self.desk.give_reply(reply);
        let answer = without_reply(&given);
        if wants_memory(&answer) {
            return (worker, given);
        }
        let entry = HistoryEntry {
            worker: worker.number,
            call,
            answer: Answered::Replied(answer),
            taken,
        };
        enter(
            &mut self.history,
            &mut self.tally,
            &mut worker.receipts,
            &mut worker.share,
            entry,
            again,
        );
        (worker, given)
    }

    /// Lends a process, for a worker, as the desk does. It makes no entry.
    pub fn lease(&mut self, worker: Worker<L>, pid: Pid) -> (Worker<L>, Result<Lease, Refusal>)
        ensures lease { Lends result.1 (desk_lease self.old.desk pid) }
        ensures own { IfOk result.1 (λ lease. lease.lent.pid ≡ pid) }
        ensures same { (self.new ≡ self.old) × (result.0 ≡ worker) }
        ensures legal { IsLegal self.old.history self.old.desk }
    {
        (worker, lend(&self.desk, pid))
    }

    /// Takes a lease in, for a worker, as the desk does. Where memory runs out, first of all for
    /// the entry and the receipt, the answer is `Memory` and nothing has changed; every other
    /// answer is entered. After a refusal the lease comes back.
    #[tactic(auto, using(crate::proofs::Steps::comes_back, crate::proofs::Steps::short_back))]
    pub fn hand_in(
        &mut self,
        worker: Worker<L>,
        lease: Lease,
    ) -> (Worker<L>, Result<(), (Lease, HandIn)>)
        ensures back { IfErr result.1 (λ back. back.0 ≡ lease) }
        ensures entered { HandInAdds result.1 self.old worker lease self.new result.0 }
    {
        let mut worker = worker;
        if make_room(&mut self.history, &mut worker.receipts).is_err() {
            return (worker, Err((lease, HandIn::Memory)));
        }
        let taken = self.desk.requests_taken();
        let (call, again) = calls_with(&lease);
        let answer = self.desk.hand_in(lease);
        let told = told_of(&answer);
        if is_short(&told) {
            return (worker, answer);
        }
        let entry = HistoryEntry {
            worker: worker.number,
            call,
            answer: Answered::HandedIn(told),
            taken,
        };
        enter(
            &mut self.history,
            &mut self.tally,
            &mut worker.receipts,
            &mut worker.share,
            entry,
            again,
        );
        (worker, answer)
    }

    /// Takes in the lease in its place, if there is one, which is given up where it comes back.
    #[tactic(auto, using(crate::proofs::Steps::without_back))]
    fn take_any(
        &mut self,
        worker: Worker<L>,
        lease: &mut Option<Lease>,
    ) -> (Worker<L>, Option<Result<(), HandIn>>)
        ensures taken { TakesAny result.1 self.old worker lease.old self.new result.0 }
        ensures none { lease.new ≡ None }
    {
        let Some(lent) = lease.take() else {
            return (worker, None);
        };
        match self.hand_in(worker, lent) {
            (worker, Ok(())) => (worker, Some(Ok(()))),
            (worker, Err((lent, why))) => {
                lent.give_up();
                (worker, Some(Err(why)))
            }
        }
    }

    /// Lends a process into an empty place, if one is asked for.
    fn lend_any(&self, pid: Option<Pid>, lease: &mut Option<Lease>) -> Option<Result<(), Refusal>>
        requires none { lease.old ≡ None }
        ensures lent { LendsAny result lease.new self.now.desk pid }
        ensures own { IsLeaseOf lease.new pid }
        ensures legal { IsLegal self.now.history self.now.desk }
    {
        let desk = &self.desk;
        match lend(desk, pid?) {
            Ok(lent) => {
                put(lease, lent);
                Some(Ok(()))
            }
            Err(why) => Some(Err(why)),
        }
    }

    /// `hand_in` of the lease in its place, if there is one, which is given up where it is refused; then the `turn` of a
    /// process; then the `lease` of the next into the same place, if there is one.
    pub fn turn_with_leases(
        &mut self,
        worker: Worker<L>,
        lease: &mut Option<Lease>,
        pid: Pid,
        next: Option<Pid>,
    ) -> (Worker<L>, Leased)
        ensures calls { (b : BookView) × (v : WorkerView)
            × TakesAny result.1.handed self.old worker lease.old b v
            × TurnAdds result.1.answer b v pid self.new result.0 }
        ensures lent { LendsAny result.1.lent lease.new self.new.desk next }
        ensures own { IsLeaseOf lease.new next }
        ensures legal { IsLegal self.new.history self.new.desk }
    {
        let (worker, handed) = self.take_any(worker, lease);
        let (worker, answer) = self.turn(worker, pid);
        let lent = self.lend_any(next, lease);
        let leased = Leased {
            handed,
            answer,
            lent,
        };
        (worker, leased)
    }

    /// Takes the desk's oldest request that waits; `None` where none does. This takes no memory and makes no entry.
    pub fn next_request(&mut self) -> Option<Request>
        ensures request { result ≡ first_sent self.old.desk.waiting }
        ensures taken { self.new ≡ record self.old
            { desk = first_taken self.old.desk self.old.desk.waiting } }
        ensures legal { IsLegal self.old.history self.old.desk }
    {
        self.desk.take_request()
    }

    /// The desk alone. This takes no memory.
    pub fn reopen(self) -> Desk
        ensures desk { result ≡ self.desk }
        ensures legal { IsLegal self.history result }
    {
        let Book {
            desk,
            history: _,
            tally: _,
        } = self;
        desk
    }
}

/// Workers with one part of the ledger each, numbered from 0.
fn new_workers<L: Ledger>(alloc: Global, all: Share<L>, n: u8, workers: &mut Vec<Worker<L>>)
    requires parts { (all.parts ≡ n) × (all.amount ≡ 0) }
    requires room { (workers.old.items ≡ []) × (n ≤ vec_capacity workers.old) }
    ensures { AreFresh n workers.new.items }
{
    let mut all = all;
    for number in 0..n {
        let share = all.split_off(1, 0);
        workers.push_reserved(Worker::new(alloc, number, share));
    }
}

/// Makes room for one more entry and its receipt.
fn make_room(history: &mut Vec<HistoryEntry>, receipts: &mut Vec<Receipt>) -> Result<(), AllocError>
    ensures history { history.new.items ≡ history.old.items }
    ensures receipts { receipts.new.items ≡ receipts.old.items }
    ensures room { OnOk result
        ((vec_len history.new < vec_capacity history.new)
        × (vec_len receipts.new < vec_capacity receipts.new)) }
{
    history.reserve(1)?;
    receipts.reserve(1)
}

/// Adds an entry to the history, and a receipt for it with the same call, and counts both.
fn enter<L: Ledger>(
    history: &mut Vec<HistoryEntry>,
    tally: &mut ledger::Book<L>,
    receipts: &mut Vec<Receipt>,
    share: &mut Share<L>,
    entry: HistoryEntry,
    again: DeskCall,
)
    requires call { again ≡ entry.call }
    requires history { vec_len history.old < vec_capacity history.old }
    requires receipts { vec_len receipts.old < vec_capacity receipts.old }
    requires part { 0 < share.old.parts }
    ensures history { history.new.items ≡ history.old.items ++ entry ∷ [] }
    ensures receipts { receipts.new.items
        ≡ receipts.old.items ++ receipt (length history.old.items) entry ∷ [] }
    ensures tally { tally.new.total ≡ tally.old.total + 1 }
    ensures share { (share.new.amount ≡ share.old.amount + 1)
        × (share.new.parts ≡ share.old.parts) }
{
    let place = history.len() as u64;
    let told = HistoryEntry {
        worker: entry.worker,
        call: again,
        answer: entry.answer,
        taken: entry.taken,
    };
    receipts.push_reserved(Receipt { place, entry: told });
    history.push_reserved(entry);
    tally.add(share, 1);
}

/// The call that gives a reply, for the history and for the receipt.
fn calls_of(alloc: Global, reply: &Reply) -> Result<(DeskCall, DeskCall), AllocError>
    ensures { IfOk result
        (λ calls. (calls.0 ≡ DeskCall.Reply reply.now) × (calls.1 ≡ DeskCall.Reply reply.now)) }
{
    let call = DeskCall::Reply(KeptReply::keep(alloc, reply)?);
    let again = DeskCall::Reply(KeptReply::keep(alloc, reply)?);
    Ok((call, again))
}

/// The call that hands a lease in, whose instructions were all private, for the history and for the receipt.
fn calls_with(lease: &Lease) -> (DeskCall, DeskCall)
    ensures call { result.0 ≡ DeskCall.HandIn lease.now.lent.pid lease.now.count }
    ensures again { result.1 ≡ DeskCall.HandIn lease.now.lent.pid lease.now.count }
    ensures done { after_private lease.now.script lease.now.count lease.now.lent
        ≡ Some lease.now.now }
{
    let _ = lease.now();
    let process = lease.lent().pid;
    let count = lease.count();
    (
        DeskCall::HandIn { process, count },
        DeskCall::HandIn { process, count },
    )
}

/// What is entered of the answer to a turn.
fn turned(answer: &Result<Turn, Refusal>) -> Answered
    ensures { result ≡ Answered.Turned answer.now }
{
    Answered::Turned(*answer)
}

/// A turn of the desk; `None` where it was refused for want of memory, and nothing has changed.
fn turn_of(desk: &mut Desk, pid: Pid) -> Option<Result<Turn, Refusal>>
    ensures { MatchOption result (desk.new ≡ desk.old)
        (λ answer. CallPost desk.old (DeskCall.Turn pid) (Answered.Turned answer) desk.new) }
{
    let answer = desk.turn(pid);
    if lacks_memory(&answer) {
        return None;
    }
    Some(answer)
}

/// Whether a turn was refused for want of memory.
fn lacks_memory(answer: &Result<Turn, Refusal>) -> bool
    ensures { IsTrue result ↔ (answer.now ≡ Err Refusal.Memory) }
{
    matches!(answer, Err(Refusal::Memory))
}

/// Whether a reply came back for want of memory.
fn wants_memory(answer: &Result<Given, ReplyRefusal>) -> bool
    ensures { IsTrue result ↔ (answer.now ≡ Err ReplyRefusal.Memory) }
{
    matches!(answer, Err(ReplyRefusal::Memory))
}

/// The answer to a reply, without the reply that comes back.
fn without_reply(given: &Result<Given, (Reply, ReplyRefusal)>) -> Result<Given, ReplyRefusal>
    ensures { result ≡ answer_alone given.now }
{
    match given {
        Ok(given) => Ok(*given),
        Err((_reply, why)) => Err(*why),
    }
}

/// What a hand-in is answered, without the lease that came back.
fn told_of(answer: &Result<(), (Lease, HandIn)>) -> Result<(), HandIn>
    ensures { result ≡ answer_alone answer.now }
{
    match answer {
        Ok(()) => Ok(()),
        Err((_, why)) => Err(*why),
    }
}

/// Whether a lease came back for want of memory.
fn is_short(answer: &Result<(), HandIn>) -> bool
    ensures { IsTrue result ↔ (answer.now ≡ Err HandIn.Memory) }
{
    matches!(answer, Err(HandIn::Memory))
}

/// The desk's lease of a process. No clause of the kernel says that a process stands at its own number, so that it is looked at
/// here: one that does not, of which no kernel has any, is not lent.
fn lend(desk: &Desk, pid: Pid) -> Result<Lease, Refusal>
    ensures lease { Lends result (desk_lease desk.now pid) }
    ensures own { IfOk result (λ lease. lease.lent.pid ≡ pid) }
{
    let lease = desk.lease(pid)?;
    if lease.lent().pid == pid {
        return Ok(lease);
    }
    lease.give_up();
    Err(Refusal::Memory)
}

/// Puts a lease into its place; one that was there is given up.
fn put(place: &mut Option<Lease>, lease: Lease)
    ensures { place.new ≡ Some lease }
{
    if let Some(old) = place.replace(lease) {
        old.give_up();
    }
}
