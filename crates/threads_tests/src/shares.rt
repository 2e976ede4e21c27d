//! Workers in threads of their own share a desk.
ghost use Rattle.std.specs.Prelude.{◌≡◌, [], vec_len};
ghost use Rattle.sk_client.specs.Desk.{opened_at};
ghost use Rattle.sk_workers.specs.Closing.{AreDistinct};

use crate::same::same;
use crate::start::{FreeGate, desk_of, process, shared_by};
use sk_client::{Desk, Given, Turn};
use sk_ids::{Entity, GuessId, Pid, Text};
use sk_plain::View;
use sk_script::{Register, Val};
use sk_server::{Answer, Reply};
use sk_workers::{Answered, CloseRefusal, Gate, History, HistoryEntry, Shared, Worker};
use std::alloc::Global;
use std::marker::Brand;
use std::process::Abort;
use std::sync::Wait;
use std::sync::atomic::{AtomicU64, Ordering};
use std::sync::ledger::{Blank, Ledger};
use std::thread;
use std::thread::Threads;

const ROUNDS: u64 = 1_000_000_000;

/// Holds the first turn of worker 0 until three answers have come to worker 1, or for so many rounds. It counts the turns
/// of each worker that come with the number that is next.
#[derive(Drop)]
struct UntilThree<'a> {
    answers: &'a AtomicU64,
    zero: &'a AtomicU64,
    one: &'a AtomicU64,
}

impl Gate for UntilThree<'_> {
    fn before(&self, worker: u8, turn: u64) {
        let came = if worker == 0 { self.zero } else { self.one };
        if came.load(Ordering::SeqCst) == turn {
            came.fetch_add(1, Ordering::SeqCst);
        }
        if worker != 0 || turn != 0 {
            return;
        }
        for _ in 0..ROUNDS {
            if self.answers.load(Ordering::SeqCst) >= 3 {
                return;
            }
            thread::yield_now();
        }
    }
}

/// The file `f`, a copy of `/x`, a process that reads `f`, one that writes to it, and one that fetches.
const SCENARIO: &[u8] = b"
copy /x 3 \"old\"
file f \"f0\"
script reading
look r1 r7 f
read r1 r2
end
script writing
look r1 r7 f
text \"z\"
write r1 r2
end
script fetching
fetch /x
end
process 1 reading 1
process 2 writing 2
process 3 fetching 3
";

/// Takes so many turns of a process, each of which is a step, and counts the answers.
fn steps<L: Ledger, R: Wait + Abort, G: Gate>(
    rt: &R,
    shared: &Shared<L>,
    worker: Worker<L>,
    pid: Pid,
    turns: u32,
    gate: &G,
    answers: &AtomicU64,
) -> Worker<L>
    ensures { result.number ≡ worker.number }
{
    let mut worker = worker;
    for _ in 0..turns {
        let (back, answer) = shared.turn(rt, worker, pid, gate);
        worker = back;
        same(rt, &answer, &Ok(Turn::Stepped));
        answers.fetch_add(1, Ordering::SeqCst);
    }
    worker
}

/// Worker 0 takes two turns of the first process, of which the gate holds the first, and worker 1 three of the second.
fn five<L: Ledger + Send + Sync, R: Threads + Wait + Sync + Abort>(
    rt: &R,
    shared: &Shared<L>,
    zero: Worker<L>,
    one: Worker<L>,
) -> (Worker<L>, Worker<L>)
    ensures { (result.0.number ≡ zero.number) × (result.1.number ≡ one.number) }
{
    let answers = AtomicU64::new(0);
    let idle = AtomicU64::new(0);
    let (came, other) = (AtomicU64::new(0), AtomicU64::new(0));
    let gate = UntilThree {
        answers: &answers,
        zero: &came,
        one: &other,
    };
    let (first, second) = (process(1), process(2));
    let (zero, one) = thread::join(
        rt,
        || -> Worker<L>
            ensures { result.number ≡ zero.number }
        { steps(rt, shared, zero, first, 2, &gate, &idle) },
        || -> Worker<L>
            ensures { result.number ≡ one.number }
        { steps(rt, shared, one, second, 3, &gate, &answers) },
    );
    same(rt, &came.load(Ordering::SeqCst), &2);
    same(rt, &other.load(Ordering::SeqCst), &3);
    (zero, one)
}

/// Closes what two workers share.
fn closes<L: Ledger>(rt: &impl Abort, shared: Shared<L>, workers: Vec<Worker<L>>) -> History
    requires workers { vec_len workers ≡ L.parts }
    requires distinct { AreDistinct workers.items }
{
    match shared.close(workers) {
        Ok(history) => history,
        Err((shared, _workers, _refusal)) => {
            shared.reopen().abandon();
            panic!(rt; "not closed")
        }
    }
}

/// Two workers share a desk, make five calls, and close it.
fn two_workers<L: Ledger + Send + Sync, R: Threads + Wait + Sync + Abort>(
    rt: &R,
    alloc: Global,
    blank: Blank,
    desk: Desk,
) -> History
    requires ledger { (blank.name ≡ L.name) × (blank.parts ≡ L.parts) × (L.parts ≡ 2) }
    requires opened { desk ≡ opened_at desk.kernel desk.first }
    requires trace { desk.kernel.trace ≡ [] }
{
    let (shared, mut workers) = shared_by::<L>(rt, alloc, blank, desk, 2);
    let (Some(one), Some(zero)) = (workers.pop(), workers.pop()) else {
        unreachable!()
    };
    let (zero, one) = five(rt, &shared, zero, one);
    workers.push_reserved(zero);
    workers.push_reserved(one);
    closes(rt, shared, workers)
}

/// Looks at the five entries: the first three are worker 1's, and each is a step.
fn looks(rt: &impl Abort, entries: &[HistoryEntry]) {
    same(rt, &entries.len(), &5);
    for (place, entry) in entries.iter().enumerate() {
        let worker = if place < 3 { 1 } else { 0 };
        same(rt, &entry.worker, &worker);
        same(rt, &entry.answer, &Answered::Turned(Ok(Turn::Stepped)));
    }
}

/// What a process has in its buffer, and was told at last.
fn read_by(desk: &Desk, pid: Pid) -> Option<(Text, Val)> {
    match desk.kernel().value(&Entity::Proc(pid)) {
        Some(View::Process(process)) => {
            Some((process.buffer, process.registers.get(Register::ANSWER)))
        }
        _ => None,
    }
}

/// The history of two workers on a desk: worker 1 wrote before worker 0 read. Gives the desk back.
fn one_history<R: Threads + Wait + Sync + Abort>(rt: &R, alloc: Global, desk: Desk) -> Desk
    requires opened { desk ≡ opened_at desk.kernel desk.first }
    requires trace { desk.kernel.trace ≡ [] }
{
    let History { entries, desk } = two_workers::<Brand, _>(rt, alloc, Blank::new(2), desk);
    looks(rt, &entries);
    let read = read_by(&desk, process(1));
    same(rt, &read, &Text::new(b"z0").map(|text| (text, Val::Num(2))));
    desk
}

#[test]
fn two_workers_one_history(rt: HostRuntime) {
    let desk = desk_of(&rt, rt.alloc(), SCENARIO);
    one_history(&rt, rt.alloc(), desk).abandon();
}

/// Takes a turn that is a guess.
fn guesses<L: Ledger, R: Wait + Abort>(
    rt: &R,
    shared: &Shared<L>,
    worker: Worker<L>,
    id: GuessId,
) -> Worker<L> {
    let (worker, answer) = shared.turn(rt, worker, process(3), &FreeGate);
    same(rt, &answer, &Ok(Turn::Guessed(id)));
    worker
}

/// With a request that has no reply the desk is not closed.
fn stays_open<L: Ledger>(
    rt: &impl Abort,
    shared: Shared<L>,
    workers: Vec<Worker<L>>,
) -> (Shared<L>, Vec<Worker<L>>)
    requires workers { vec_len workers ≡ L.parts }
    requires distinct { AreDistinct workers.items }
    ensures { result.1 ≡ workers }
{
    match shared.close(workers) {
        Ok(History { entries: _, desk }) => {
            desk.abandon();
            panic!(rt; "closed with a request pending")
        }
        Err((shared, workers, refusal)) => {
            same(rt, &refusal, &CloseRefusal::Pending(1));
            (shared, workers)
        }
    }
}

/// Takes the only request, and gives its reply, which commits the guess.
fn commits<L: Ledger, R: Wait + Abort>(
    rt: &R,
    shared: &Shared<L>,
    worker: Worker<L>,
    id: GuessId,
) -> Worker<L> {
    same(rt, &shared.next_request(rt).is_some(), &true);
    same(rt, &shared.next_request(rt).is_none(), &true);
    let number = 1;
    let answer = Answer::Yes;
    let (worker, given) = shared.reply(rt, worker, Reply { number, answer });
    same(rt, &given, &Ok(Given::Committed(id)));
    worker
}

/// With a request that has no reply the desk is not closed; with its reply given it is.
fn waits_for_the_reply<L: Ledger, R: Wait + Abort>(
    rt: &R,
    alloc: Global,
    blank: Blank,
    desk: Desk,
) -> History
    requires ledger { (blank.name ≡ L.name) × (blank.parts ≡ L.parts) × (L.parts ≡ 1) }
    requires opened { desk ≡ opened_at desk.kernel desk.first }
    requires trace { desk.kernel.trace ≡ [] }
{
    let id = GuessId::new(1).unwrap_or_default();
    let (shared, mut workers) = shared_by::<L>(rt, alloc, blank, desk, 1);
    let Some(worker) = workers.pop() else {
        unreachable!()
    };
    let worker = guesses(rt, &shared, worker, id);
    workers.push_reserved(worker);
    let (shared, mut workers) = stays_open(rt, shared, workers);
    let Some(worker) = workers.pop() else {
        unreachable!()
    };
    let worker = commits(rt, &shared, worker, id);
    workers.push_reserved(worker);
    closes(rt, shared, workers)
}

/// The history of one worker that waits for a reply. Gives the desk back.
fn settled<R: Wait + Abort>(rt: &R, alloc: Global, desk: Desk) -> Desk
    requires opened { desk ≡ opened_at desk.kernel desk.first }
    requires trace { desk.kernel.trace ≡ [] }
{
    let History { entries, desk } = waits_for_the_reply::<Brand, _>(rt, alloc, Blank::new(1), desk);
    same(rt, &(entries.len(), desk.pending()), &(2, 0));
    desk
}

#[test]
fn closed_when_settled(rt: HostRuntime) {
    let desk = desk_of(&rt, rt.alloc(), SCENARIO);
    settled(&rt, rt.alloc(), desk).abandon();
}

/// Begins an epoch of a desk, for which so many events are handed out.
fn next_epoch(rt: &impl Abort, desk: &mut Desk, events: usize)
    ensures opened { desk.new ≡ opened_at desk.new.kernel desk.new.first }
    ensures trace { desk.new.kernel.trace ≡ [] }
{
    match desk.new_epoch() {
        Ok((trace, _texts)) => same(rt, &trace.events().len(), &events),
        Err(_) => panic!(rt; "no epoch"),
    }
}

/// Two workers close a desk, which is shared again in each of two more epochs.
#[test]
fn shared_again_in_the_next_epoch(rt: HostRuntime) {
    let desk = desk_of(&rt, rt.alloc(), SCENARIO);
    let mut desk = one_history(&rt, rt.alloc(), desk);
    next_epoch(&rt, &mut desk, 5);
    same(&rt, &desk.first(), &1);
    let mut desk = settled(&rt, rt.alloc(), desk);
    next_epoch(&rt, &mut desk, 2);
    same(
        &rt,
        &(desk.first(), desk.kernel().opening().guess()),
        &(2, 2),
    );
    desk.abandon();
}
