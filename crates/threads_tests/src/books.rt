//! Two workers on one desk.
ghost use Rattle.std.specs.Prelude.{◌≡◌, []};
ghost use Rattle.sk_client.specs.Desk.{opened_at};
ghost use Rattle.sk_workers.specs.History.{AreFresh};

use crate::same::same;
use crate::start::{desk_of, process};
use sk_client::{Desk, Given, Turn};
use sk_ids::{GuessId, Pid};
use sk_kernel::Opening;
use sk_server::{Answer, Reply};
use sk_workers::{Answered, Book, CloseRefusal, DeskCall, History, HistoryEntry, Receipt, Worker};
use std::alloc::Global;
use std::marker::Brand;
use std::process::Abort;
use std::sync::ledger::{Blank, Ledger};

/// How many rounds of turns there are; each is two calls.
const ROUNDS: usize = 2_100;

/// Two processes: one that sets its buffer for ever, and one that fetches `/x`, of which there is a copy.
const SCENARIO: &[u8] = b"
copy /x 3 \"old\"
script round
a:
text \"t\"
jump a
end
script fetching
fetch /x
say
end
process 1 round 1
process 2 fetching 2
";

/// The book of a desk, and its two workers.
fn book_of<L: Ledger>(
    rt: &impl Abort,
    alloc: Global,
    blank: Blank,
    desk: Desk,
) -> (Book<L>, Vec<Worker<L>>)
    requires ledger { (blank.name ≡ L.name) × (blank.parts ≡ L.parts) × (L.parts ≡ 2) }
    requires opened { desk ≡ opened_at desk.kernel desk.first }
    requires trace { desk.kernel.trace ≡ [] }
    ensures { AreFresh 2 result.1.items }
{
    match Book::<L>::new(alloc, blank, desk, 2) {
        Ok(made) => made,
        Err((_blank, desk, _error)) => {
            desk.abandon();
            panic!(rt; "out of memory")
        }
    }
}

/// Takes a turn that is a step.
fn steps<L: Ledger>(rt: &impl Abort, book: &mut Book<L>, worker: Worker<L>, pid: Pid) -> Worker<L> {
    let (worker, answer) = book.turn(worker, pid);
    same(rt, &answer, &Ok(Turn::Stepped));
    worker
}

/// Takes a turn that is a guess, and its request.
fn guesses<L: Ledger>(
    rt: &impl Abort,
    book: &mut Book<L>,
    worker: Worker<L>,
    pid: Pid,
    id: GuessId,
) -> Worker<L> {
    let (worker, answer) = book.turn(worker, pid);
    same(rt, &answer, &Ok(Turn::Guessed(id)));
    let number = match book.next_request() {
        Some(request) => request.number,
        None => 0,
    };
    same(rt, &number, &1);
    worker
}

/// Gives the reply that commits the guess.
fn commits<L: Ledger>(
    rt: &impl Abort,
    book: &mut Book<L>,
    worker: Worker<L>,
    id: GuessId,
) -> Worker<L> {
    let number = 1;
    let answer = Answer::Yes;
    let (worker, given) = book.reply(worker, Reply { number, answer });
    same(rt, &given, &Ok(Given::Committed(id)));
    worker
}

/// Whether an entry is for a turn of this process.
fn is_turn(entry: &HistoryEntry, process: Pid) -> bool {
    match &entry.call {
        DeskCall::Turn(pid) => *pid == process,
        DeskCall::Reply(_) | DeskCall::HandIn { .. } => false,
    }
}

/// Whether a receipt has this place and is for a step of a process, before which no request was taken.
fn is_step(receipt: &Receipt, place: u64, worker: u8, pid: Pid) -> bool {
    let entry = &receipt.entry;
    let is_stepped = entry.answer == Answered::Turned(Ok(Turn::Stepped)) && entry.taken == 0;
    receipt.place == place && entry.worker == worker && is_turn(entry, pid) && is_stepped
}

/// Looks at the receipts of a worker whose first call had this place, and each later one the next but one.
fn looks<L: Ledger>(rt: &impl Abort, worker: &Worker<L>, first: u64, pid: Pid) {
    for (turn, receipt) in worker.receipts().iter().take(ROUNDS).enumerate() {
        let place = first.saturating_add(2 * (turn as u64));
        assert!(rt; is_step(receipt, place, worker.number(), pid));
    }
}

/// The place of a worker's last receipt, and how many requests were taken before its call.
fn last_of<L: Ledger>(worker: &Worker<L>) -> Option<(u64, u64)> {
    let last = worker.receipts().last()?;
    Some((last.place, last.entry.taken))
}

/// Both workers take turns of the first process; then a guess is made and committed.
fn works<L: Ledger>(rt: &impl Abort, book: &mut Book<L>, zero: Worker<L>, one: Worker<L>) {
    let (first, id) = (process(1), GuessId::new(1).unwrap_or_default());
    let (mut zero, mut one) = (zero, one);
    for _ in 0..ROUNDS {
        zero = steps(rt, book, zero, first);
        one = steps(rt, book, one, first);
    }
    let zero = guesses(rt, book, zero, process(2), id);
    let one = commits(rt, book, one, id);
    looks(rt, &zero, 0, first);
    looks(rt, &one, 1, first);
    same(rt, &last_of(&zero), &Some((4_200, 0)));
    same(rt, &last_of(&one), &Some((4_201, 1)));
}

/// Two workers work on the book of a desk.
fn two_work<L: Ledger>(rt: &impl Abort, alloc: Global, blank: Blank, desk: Desk)
    requires ledger { (blank.name ≡ L.name) × (blank.parts ≡ L.parts) × (L.parts ≡ 2) }
    requires opened { desk ≡ opened_at desk.kernel desk.first }
    requires trace { desk.kernel.trace ≡ [] }
{
    let (mut book, mut workers) = book_of::<L>(rt, alloc, blank, desk);
    let (Some(one), Some(zero)) = (workers.pop(), workers.pop()) else {
        panic!(rt; "two workers")
    };
    works(rt, &mut book, zero, one);
    book.reopen().abandon();
}

#[test]
fn receipts_of_two_workers(rt: HostRuntime) {
    let desk = desk_of(&rt, rt.alloc(), SCENARIO);
    two_work::<Brand>(&rt, rt.alloc(), Blank::new(2), desk);
}

/// A book is not closed by a first request that is not its own desk's.
fn stays_open_elsewhere<L: Ledger>(
    rt: &impl Abort,
    alloc: Global,
    blank: Blank,
    desk: Desk,
    opening: &Opening,
)
    requires ledger { (blank.name ≡ L.name) × (blank.parts ≡ L.parts) × (L.parts ≡ 2) }
    requires opened { desk ≡ opened_at desk.kernel desk.first }
    requires trace { desk.kernel.trace ≡ [] }
{
    let (book, workers) = book_of::<L>(rt, alloc, blank, desk);
    match book.close(workers, opening, 2) {
        Err((book, _workers, refusal)) => {
            book.reopen().abandon();
            same(rt, &refusal, &CloseRefusal::Other);
        }
        Ok(History { entries: _, desk }) => {
            desk.abandon();
            panic!(rt; "closed elsewhere")
        }
    }
}

#[test]
fn not_closed_elsewhere(rt: HostRuntime) {
    let desk = desk_of(&rt, rt.alloc(), SCENARIO);
    let Ok(opening) = desk.kernel().opening().copy() else {
        desk.abandon();
        panic!(rt; "out of memory")
    };
    stays_open_elsewhere::<Brand>(&rt, rt.alloc(), Blank::new(2), desk, &opening);
}
