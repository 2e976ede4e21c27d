//! A worker leases processes, and hands them in.
ghost use Rattle.std.specs.Prelude.{◌≡◌, []};
ghost use Rattle.sk_client.specs.Desk.{opened_at};

use crate::same::same;
use crate::start::{FreeGate, desk_of, shared_by};
use sk_client::{Desk, Turn};
use sk_ids::Pid;
use sk_kernel::HandIn;
use sk_plain::Refusal;
use sk_script::Lease;
use sk_workers::{Answered, DeskCall, HistoryEntry, Leased, Receipt, Shared, Worker};
use std::alloc::Global;
use std::marker::Brand;
use std::process::Abort;
use std::sync::Wait;
use std::sync::ledger::{Blank, Ledger};

/// A process with two private instructions and one that is not, and one that ends it by a signal.
const SCENARIO: &[u8] = b"
script sets
set r1 1
set r2 2
say
end
script kills
boot r1 1
set r2 9
kill r1 r2
end
process 1 sets 1
process 2 kills 2
";

/// What a worker does, with processes by their numbers.
#[derive(Clone, Copy)]
enum Act {
    /// It takes a turn, which is a step.
    Steps(u16),
    /// It leases a process, and runs its two private instructions.
    Lends(u16),
    /// It hands in the lease that is out, and is answered so.
    HandsIn(Result<(), HandIn>),
    /// It takes a turn that is a step. The lease that is out is handed in before and answered so; behind it a process is lent,
    /// where one is named, and given up.
    Between(u16, Result<(), HandIn>, Option<u16>),
}

/// What a receipt is for: a turn of a process that is a step, or the hand-in of one with so many instructions, which is taken or
/// stale.
#[derive(Clone, Copy)]
enum Seen {
    Stepped(u16),
    Taken(u16, u32),
    Stale(u16, u32),
}

/// The boot process of a number.
fn pid(rt: &impl Abort, number: u16) -> Pid {
    Pid::boot(number).expect(rt, "a process")
}

/// The boot process of a number; none where no number is named.
fn pid_of(rt: &impl Abort, number: Option<u16>) -> Option<Pid> {
    match number {
        Some(number) => Some(pid(rt, number)),
        None => None,
    }
}

/// Takes a turn, which is a step.
fn steps<L: Ledger, R: Wait + Abort>(
    rt: &R,
    shared: &Shared<L>,
    worker: Worker<L>,
    pid: Pid,
) -> Worker<L> {
    let (worker, answer) = shared.turn(rt, worker, pid, &FreeGate);
    same(rt, &answer, &Ok(Turn::Stepped));
    worker
}

/// Leases a process, and runs its two private instructions.
fn lends<L: Ledger, R: Wait + Abort>(
    rt: &R,
    shared: &Shared<L>,
    worker: Worker<L>,
    out: &mut Option<Lease>,
    pid: Pid,
) -> Worker<L> {
    let (worker, lent) = shared.lease(rt, worker, pid);
    let Ok(mut lease) = lent else {
        panic!(rt; "not lent");
    };
    lease.run(10);
    same(rt, &lease.count(), &2);
    if let Some(before) = out.replace(lease) {
        before.give_up();
    }
    worker
}

/// What a hand-in is answered, without a lease that came back.
fn told(done: Result<(), (Lease, HandIn)>) -> Result<(), HandIn> {
    match done {
        Ok(()) => Ok(()),
        Err((lease, why)) => {
            lease.give_up();
            Err(why)
        }
    }
}

/// Hands in the lease that is out.
fn hands_in<L: Ledger, R: Wait + Abort>(
    rt: &R,
    shared: &Shared<L>,
    worker: Worker<L>,
    out: &mut Option<Lease>,
    answer: Result<(), HandIn>,
) -> Worker<L> {
    let Some(lease) = out.take() else {
        panic!(rt; "no lease is out");
    };
    let (worker, done) = shared.hand_in(rt, worker, lease);
    same(rt, &told(done), &answer);
    worker
}

/// Gives up the lease that is out: its process, and how many instructions were done.
fn given_up(out: &mut Option<Lease>) -> Option<(Pid, u32)> {
    let lease = out.take()?;
    let seen = (lease.lent().pid, lease.count());
    lease.give_up();
    Some(seen)
}

/// Takes a turn that is a step. The hand-in before it is answered so, and behind it this process is lent, with nothing done.
fn takes_between<L: Ledger, R: Wait + Abort>(
    rt: &R,
    shared: &Shared<L>,
    worker: Worker<L>,
    out: &mut Option<Lease>,
    pid: Pid,
    wanted: Result<(), HandIn>,
    next: &Option<Pid>,
) -> Worker<L> {
    let (worker, leased) = shared.turn_with_leases(rt, worker, out, pid, *next, &FreeGate);
    let Leased {
        handed,
        answer,
        lent,
    } = leased;
    same(rt, &answer, &Ok(Turn::Stepped));
    same(rt, &handed, &Some(wanted));
    let place = given_up(out);
    looks_at(rt, &lent, &place, next);
    worker
}

/// Looks at what was lent, where a process was to be.
fn looks_at(
    rt: &impl Abort,
    lent: &Option<Result<(), Refusal>>,
    place: &Option<(Pid, u32)>,
    next: &Option<Pid>,
) {
    match next {
        Some(pid) => {
            same(rt, lent, &Some(Ok(())));
            same(rt, place, &Some((*pid, 0)));
        }
        None => {
            same(rt, lent, &None);
            same(rt, place, &None);
        }
    }
}

/// Does one thing.
fn acts<L: Ledger, R: Wait + Abort>(
    rt: &R,
    shared: &Shared<L>,
    worker: Worker<L>,
    out: &mut Option<Lease>,
    act: Act,
) -> Worker<L> {
    match act {
        Act::Steps(number) => steps(rt, shared, worker, pid(rt, number)),
        Act::Lends(number) => lends(rt, shared, worker, out, pid(rt, number)),
        Act::HandsIn(answer) => hands_in(rt, shared, worker, out, answer),
        Act::Between(number, answer, next) => {
            let (pid, next) = (pid(rt, number), pid_of(rt, next));
            takes_between(rt, shared, worker, out, pid, answer, &next)
        }
    }
}

/// Does all in turn; no lease is out at the end.
fn acts_all<L: Ledger, R: Wait + Abort>(
    rt: &R,
    shared: &Shared<L>,
    worker: Worker<L>,
    all: &[Act],
) -> Worker<L> {
    let mut worker = worker;
    let mut out = None;
    for act in all {
        worker = acts(rt, shared, worker, &mut out, *act);
    }
    if let Some(lease) = out {
        lease.give_up();
        panic!(rt; "a lease is out");
    }
    worker
}

/// The process that a receipt's entry is for, and with how many instructions.
fn subject(entry: &HistoryEntry) -> (Option<Pid>, u32) {
    match &entry.call {
        DeskCall::Turn(pid) => (Some(*pid), 0),
        DeskCall::HandIn { process, count } => (Some(*process), *count),
        DeskCall::Reply(_) => (None, 0),
    }
}

/// Whether an entry is for this process, with so many instructions, and was answered so.
fn is_for(entry: &HistoryEntry, number: u16, count: u32, answer: Answered) -> bool {
    subject(entry) == (Pid::boot(number), count) && entry.answer == answer
}

/// Whether a receipt is for this call, and has this place of the history.
fn is_so(receipt: &Receipt, place: u64, wanted: Option<&Seen>) -> bool {
    let entry = &receipt.entry;
    let is_wanted = match wanted {
        Some(Seen::Stepped(pid)) => is_for(entry, *pid, 0, Answered::Turned(Ok(Turn::Stepped))),
        Some(Seen::Taken(pid, count)) => is_for(entry, *pid, *count, Answered::HandedIn(Ok(()))),
        Some(Seen::Stale(pid, count)) => {
            is_for(entry, *pid, *count, Answered::HandedIn(Err(HandIn::Stale)))
        }
        None => false,
    };
    is_wanted && receipt.place == place
}

/// Looks at a worker's receipts: they are for these calls, and have the places of the history in their order.
fn looks<L: Ledger>(rt: &impl Abort, worker: &Worker<L>, wanted: &[Seen]) {
    same(rt, &worker.receipts().len(), &wanted.len());
    for (place, receipt) in worker.receipts().iter().enumerate() {
        assert!(rt; is_so(receipt, place as u64, wanted.get(place)));
    }
}

/// One worker on a desk of its own: how many steps the trace has in the end.
fn plays<L: Ledger, R: Wait + Abort>(
    rt: &R,
    alloc: Global,
    blank: Blank,
    desk: Desk,
    all: &[Act],
    receipts: &[Seen],
) -> usize
    requires ledger { (blank.name ≡ L.name) × (blank.parts ≡ L.parts) × (L.parts ≡ 1) }
    requires opened { desk ≡ opened_at desk.kernel desk.first }
    requires trace { desk.kernel.trace ≡ [] }
{
    let (shared, mut workers) = shared_by::<L>(rt, alloc, blank, desk, 1);
    let Some(worker) = workers.pop() else {
        unreachable!()
    };
    let worker = acts_all(rt, &shared, worker, all);
    looks(rt, &worker, receipts);
    let desk = shared.reopen();
    let steps = desk.kernel().trace().events().len();
    desk.abandon();
    steps
}

/// What a worker does on a desk of its own, what its receipts are for, and how many steps the trace has in the end.
fn session<R: Wait + Abort>(rt: &R, alloc: Global, all: &[Act], receipts: &[Seen], steps: usize) {
    let desk = desk_of(rt, alloc, SCENARIO);
    let taken = plays::<Brand, _>(rt, alloc, Blank::new(1), desk, all, receipts);
    same(rt, &taken, &steps);
}

#[test]
fn lease_is_handed_in(rt: HostRuntime) {
    const ACTS: &[Act] = &[Act::Lends(1), Act::HandsIn(Ok(()))];
    session(&rt, rt.alloc(), ACTS, &[Seen::Taken(1, 2)], 2);
}

#[test]
fn lease_is_handed_in_behind_turns_of_another(rt: HostRuntime) {
    const ACTS: &[Act] = &[
        Act::Lends(1),
        Act::Steps(2),
        Act::Steps(2),
        Act::HandsIn(Ok(())),
    ];
    const RECEIPTS: &[Seen] = &[Seen::Stepped(2), Seen::Stepped(2), Seen::Taken(1, 2)];
    session(&rt, rt.alloc(), ACTS, RECEIPTS, 4);
}

#[test]
fn lease_is_stale_behind_a_signal(rt: HostRuntime) {
    const ACTS: &[Act] = &[
        Act::Lends(1),
        Act::Steps(2),
        Act::Steps(2),
        Act::Steps(2),
        Act::HandsIn(Err(HandIn::Stale)),
    ];
    const RECEIPTS: &[Seen] = &[
        Seen::Stepped(2),
        Seen::Stepped(2),
        Seen::Stepped(2),
        Seen::Stale(1, 2),
    ];
    session(&rt, rt.alloc(), ACTS, RECEIPTS, 3);
}

#[test]
fn lease_is_stale_behind_a_turn(rt: HostRuntime) {
    const ACTS: &[Act] = &[
        Act::Lends(1),
        Act::Steps(1),
        Act::HandsIn(Err(HandIn::Stale)),
    ];
    const RECEIPTS: &[Seen] = &[Seen::Stepped(1), Seen::Stale(1, 2)];
    session(&rt, rt.alloc(), ACTS, RECEIPTS, 1);
}

#[test]
fn turn_between_leases(rt: HostRuntime) {
    const ACTS: &[Act] = &[
        Act::Lends(1),
        Act::Between(1, Ok(()), Some(2)),
        Act::Lends(2),
        Act::Steps(2),
        Act::Between(2, Err(HandIn::Stale), None),
    ];
    const RECEIPTS: &[Seen] = &[
        Seen::Taken(1, 2),
        Seen::Stepped(1),
        Seen::Stepped(2),
        Seen::Stale(2, 2),
        Seen::Stepped(2),
    ];
    session(&rt, rt.alloc(), ACTS, RECEIPTS, 5);
}
