//! The threads of a crew.
ghost use Rattle.std.specs.Prelude.{◌≡◌, ℕ, Some, IfOk, IfSome, vec_len, vec_capacity, slice_get, option_and_then};
ghost use Rattle.sk_crew.specs.Base.{IsSync, Lends, DeskView, desk_lease};
ghost use Rattle.sk_crew.specs.Rounds.{due, next, after, is_ended};
ghost use Rattle.sk_crew.specs.Ahead.{IsLent, IsLentFor, IsLentNext, HasRun, TakesTurn};
ghost use Rattle.sk_crew.specs.Duties.{WorksOn, LeadsOn, AllWorkOn, OnlyReplies};
ghost use Rattle.sk_crew.specs.Served.{IsServed};

use crate::carrier::Lead;
use crate::crew::CrewPlan;
use crate::rounds::{Rounds, is_ended};
use crate::service::Service;
use sk_client::Turn;
use sk_ids::Pid;
use sk_plain::Refusal;
use sk_script::Lease;
use sk_workers::{Gate, Leased, Shared, Worker};
use std::sync::Wait;
use std::sync::atomic::{AtomicBool, Ordering};
use std::sync::ledger::Ledger;
use std::thread;
use std::thread::Threads;

/// Worker 0, the other workers in their order, and the server. All are owned and not lent: a call of `Shared` takes a worker and
/// gives it back, and so does a call of `Wire` with a pass.
#[derive(Drop)]
pub(crate) struct Crew<'a, L: Ledger> {
    pub(crate) lead: Lead<'a, L>,
    pub(crate) others: Vec<Worker<L>>,
    pub(crate) service: Service<'a>,
}

/// The process whose turn it is in a worker's rounds; `None` once the worker has stopped.
fn due(rounds: &Rounds, processes: &[Pid]) -> Option<Pid>
    ensures { result ≡ option_and_then (slice_get processes.now) (due rounds.now) }
{
    processes.get(rounds.due()?).copied()
}

/// The process whose turn comes after this one in a worker's rounds, where the worker runs ahead.
fn following(rounds: &Rounds, processes: &[Pid], ahead: u32) -> Option<Pid>
    ensures { IfSome result (λ pid. slice_get processes.now (next rounds.now) ≡ Some pid) }
{
    if ahead == 0 {
        return None;
    }
    processes.get(rounds.next()).copied()
}

/// What was lent; `None` after a refusal.
#[tactic(auto, using(crate::proofs::Ahead::lease_fresh))]
fn kept(lent: Result<Lease, Refusal>, pid: Pid) -> Option<Lease>
    requires lent { (desk : DeskView) × Lends lent (desk_lease desk pid) }
    requires own { IfOk lent (λ lease. lease.lent.pid ≡ pid) }
    ensures { IfSome result (IsLent pid) }
{
    lent.ok()
}

/// Lends a worker the process whose turn is first, where it runs ahead.
fn lease<L: Ledger, R: Wait>(
    rt: &R,
    shared: &Shared<L>,
    worker: Worker<L>,
    pid: Option<Pid>,
    ahead: u32,
) -> (Worker<L>, Option<Lease>)
    ensures same { result.0 ≡ worker }
    ensures fresh { IfSome result.1 (IsLentFor pid) }
{
    let Some(pid) = pid else {
        return (worker, None);
    };
    if ahead == 0 {
        return (worker, None);
    }
    let (worker, lent) = shared.lease(rt, worker, pid);
    (worker, kept(lent, pid))
}

/// Runs up to so many private instructions on the lease in its place, outside the lock. One that ran none is given up.
fn run_ahead(place: &mut Option<Lease>, ahead: u32)
    ensures { (pid : ℕ) → IfSome place.old (IsLent pid) → IfSome place.new (HasRun ahead pid) }
{
    let Some(lease) = place else {
        return;
    };
    lease.run(ahead);
    if lease.count() == 0 {
        give_up(place.take());
    }
}

/// Gives up a lease, if there is one.
fn give_up(lease: Option<Lease>) {
    if let Some(lease) = lease {
        lease.give_up();
    }
}

/// A worker hands in what it ran ahead, takes a turn of the process, and is lent the next into the same place, with the lock
/// held once; its rounds go on by the answer. After any refusal the instructions are left to the process's turns.
fn take_turn<L: Ledger, R: Wait, G: Gate>(
    rt: &R,
    shared: &Shared<L>,
    worker: Worker<L>,
    place: &mut Option<Lease>,
    pid: Pid,
    next: Option<Pid>,
    rounds: &mut Rounds,
    gate: &G,
    ahead: u32,
) -> (Worker<L>, Result<Turn, Refusal>)
    // The lease in the place has run.
    requires { IfSome place.old (HasRun ahead pid) }
    // The turn was taken, and the rounds go on; the lease in the place is a new one of the next process.
    ensures told { TakesTurn ahead result.1 worker pid result.0 }
    ensures rounds { rounds.new ≡ after (is_ended result.1) rounds.old }
    ensures lent { IfSome place.new (IsLentFor next) }
{
    let (worker, leased) = shared.turn_with_leases(rt, worker, place, pid, next, gate);
    let Leased {
        handed: _handed,
        answer,
        lent: _lent,
    } = leased;
    rounds.take(is_ended(&answer));
    if answer.is_err() {
        thread::yield_now();
    }
    (worker, answer)
}

/// A worker runs ahead on the lease that it has, and takes the turn that is due.
#[tactic(auto, using(crate::proofs::Ahead::lent_due, crate::proofs::Ahead::lent_after))]
fn go_on<L: Ledger, R: Wait, G: Gate>(
    rt: &R,
    shared: &Shared<L>,
    worker: Worker<L>,
    place: &mut Option<Lease>,
    pid: Pid,
    processes: &[Pid],
    rounds: &mut Rounds,
    gate: &G,
    ahead: u32,
) -> (Worker<L>, Result<Turn, Refusal>)
    // The process is due, and the lease in the place is one of it.
    requires due { option_and_then (slice_get processes.now) (due rounds.old) ≡ Some pid }
    requires lent { IfSome place.old (IsLentNext processes.now rounds.old) }
    // The turn was taken, and the rounds go on; the lease in the place is one of the process that is due next.
    ensures told { TakesTurn ahead result.1 worker pid result.0 }
    ensures rounds { rounds.new ≡ after (is_ended result.1) rounds.old }
    ensures lent { IfSome place.new (IsLentNext processes.now rounds.new) }
{
    let next = following(rounds, processes, ahead);
    run_ahead(place, ahead);
    take_turn(rt, shared, worker, place, pid, next, rounds, gate, ahead)
}

/// Makes a worker's rounds.
#[tactic(auto, using(crate::proofs::Turns::all_begun))]
fn work<L: Ledger, R: Wait, G: Gate>(
    rt: &R,
    shared: &Shared<L>,
    worker: Worker<L>,
    processes: &[Pid],
    plan: CrewPlan,
    gate: &G,
) -> Worker<L>
    ensures { WorksOn plan processes.now worker result }
{
    let mut rounds = Rounds::new(worker.number(), plan.workers, processes.len());
    let first = due(&rounds, processes);
    let (mut worker, mut place) = lease(rt, shared, worker, first, plan.ahead);
    for turn in 0..plan.turns {
        let Some(pid) = due(&rounds, processes) else {
            give_up(place);
            return worker;
        };
        let (back, _) = go_on(
            rt,
            shared,
            worker,
            &mut place,
            pid,
            processes,
            &mut rounds,
            gate,
            plan.ahead,
        );
        worker = back;
    }
    give_up(place);
    worker
}

/// A worker is lent the process that is due, runs ahead on it, and takes the turn.
#[tactic(auto, using(crate::proofs::Ahead::lent_for))]
fn go_at_once<L: Ledger, R: Wait, G: Gate>(
    rt: &R,
    shared: &Shared<L>,
    worker: Worker<L>,
    pid: Pid,
    rounds: &mut Rounds,
    gate: &G,
    ahead: u32,
) -> (Worker<L>, Result<Turn, Refusal>)
    // The turn was taken, and the rounds go on.
    ensures told { TakesTurn ahead result.1 worker pid result.0 }
    ensures rounds { rounds.new ≡ after (is_ended result.1) rounds.old }
{
    let (worker, mut place) = lease(rt, shared, worker, Some(pid), ahead);
    run_ahead(&mut place, ahead);
    let (worker, answer) = take_turn(
        rt, shared, worker, &mut place, pid, None, rounds, gate, ahead,
    );
    give_up(place);
    (worker, answer)
}

/// Makes the rounds of worker 0, which carries before each of its turns, and before it is lent the process.
#[tactic(auto, using(crate::proofs::Turns::all_begun))]
fn lead_rounds<'a, L: Ledger, R: Wait, G: Gate>(
    rt: &R,
    shared: &Shared<L>,
    lead: Lead<'a, L>,
    processes: &[Pid],
    plan: CrewPlan,
    gate: &G,
) -> Lead<'a, L>
    ensures { LeadsOn plan processes.now lead.entry.worker result.worker }
{
    let mut rounds = Rounds::new(lead.worker.number(), plan.workers, processes.len());
    let mut lead = lead;
    for turn in 0..plan.turns {
        let Some(pid) = due(&rounds, processes) else {
            return lead;
        };
        let Lead { worker, carrier } = lead.carry(rt, shared);
        let (worker, _) = go_at_once(rt, shared, worker, pid, &mut rounds, gate, plan.ahead);
        lead = Lead { worker, carrier };
    }
    lead
}

/// Carries until the other workers have stopped.
fn carry_on<'a, L: Ledger, R: Wait>(
    rt: &R,
    shared: &Shared<L>,
    lead: Lead<'a, L>,
    have_stopped: &AtomicBool,
) -> Lead<'a, L>
    ensures number { result.worker.number ≡ lead.entry.worker.number }
    ensures replies { OnlyReplies lead.entry.worker result.worker }
{
    let mut lead = lead;
    for _ in rt.forever() {
        if have_stopped.load(Ordering::SeqCst) {
            break;
        }
        lead = lead.carry(rt, shared);
        thread::yield_now();
    }
    lead
}

/// Makes the rounds of each worker in a thread of its own, and gives all back in their order.
fn work_all<L: Ledger + Send + Sync, R: Threads + Wait + Sync, G: Gate + Sync>(
    rt: &R,
    shared: &Shared<L>,
    workers: Vec<Worker<L>>,
    processes: &[Pid],
    plan: CrewPlan,
    gate: &G,
) -> Vec<Worker<L>>
    ensures work { AllWorkOn plan processes.now workers.items result.items }
    ensures count { vec_len result ≡ vec_len workers }
    ensures room { vec_capacity result ≡ vec_capacity workers }
{
    let mut rest = workers;
    let Some(last) = rest.pop() else {
        return rest;
    };
    let (one, mut all) = thread::join(
        rt,
        move || -> Worker<L>
            ensures { WorksOn plan processes.entry.now last result }
        { work(rt, shared, last, processes, plan, gate) },
        move || -> Vec<Worker<L>>
            requires { IsSync R.row × IsSync G.row }
            ensures { AllWorkOn plan processes.entry.now rest.items result.items
                × (vec_len result ≡ vec_len rest)
                × (vec_capacity result ≡ vec_capacity rest) }
        { work_all(rt, shared, rest, processes, plan, gate) },
    );
    all.push_reserved(one);
    all
}

/// Makes the rounds of worker 0 and of the others at once.
fn work_together<'a, L: Ledger + Send + Sync, R: Threads + Wait + Sync, G: Gate + Sync>(
    rt: &R,
    shared: &Shared<L>,
    lead: Lead<'a, L>,
    others: Vec<Worker<L>>,
    processes: &[Pid],
    plan: CrewPlan,
    gate: &G,
) -> (Lead<'a, L>, Vec<Worker<L>>)
    ensures lead { LeadsOn plan processes.now lead.entry.worker result.0.worker }
    ensures others { AllWorkOn plan processes.now others.items result.1.items }
    ensures count { vec_len result.1 ≡ vec_len others }
{
    let have_stopped = AtomicBool::new(false);
    let have_stopped = &have_stopped;
    thread::join(
        rt,
        move || -> Lead<L>
            ensures { LeadsOn plan processes.entry.now lead.entry.worker result.worker }
        {
            let lead = lead_rounds(rt, shared, lead, processes, plan, gate);
            carry_on(rt, shared, lead, have_stopped)
        },
        move || -> Vec<Worker<L>>
            requires { IsSync R.row × IsSync G.row }
            ensures { AllWorkOn plan processes.entry.now others.items result.items
                × (vec_len result ≡ vec_len others) }
        {
            let others = work_all(rt, shared, others, processes, plan, gate);
            have_stopped.store(true, Ordering::SeqCst);
            others
        },
    )
}

/// Makes the rounds of all workers, and has the server answer at once, until they have stopped. Where no thread can be made,
/// the second of two closures is run first: that is the one for which the other waits, here and above.
pub(crate) fn work_served<'a, L: Ledger + Send + Sync, R: Threads + Wait + Sync, G: Gate + Sync>(
    rt: &R,
    shared: &Shared<L>,
    crew: Crew<'a, L>,
    processes: &[Pid],
    plan: CrewPlan,
    gate: &G,
) -> Crew<'a, L>
    ensures lead { LeadsOn plan processes.now crew.entry.lead.worker result.lead.worker }
    ensures others { AllWorkOn plan processes.now
        crew.entry.others.items result.others.items }
    ensures count { vec_len result.others ≡ vec_len crew.entry.others }
{
    let Crew {
        lead,
        others,
        service,
    } = crew;
    let stop = AtomicBool::new(false);
    let stop = &stop;
    let (service, (lead, others)) = thread::join(
        rt,
        move || -> Service
            requires { IsSync R.row }
            ensures { IsServed service.entry.server result.server }
        { service.serve(rt, stop) },
        move || -> (Lead<L>, Vec<Worker<L>>)
            requires { IsSync R.row × IsSync G.row × IsSync L.row }
            ensures { LeadsOn plan processes.entry.now lead.entry.worker result.0.worker
                × AllWorkOn plan processes.entry.now others.items result.1.items
                × (vec_len result.1 ≡ vec_len others) }
        {
            let worked = work_together(rt, shared, lead, others, processes, plan, gate);
            stop.store(true, Ordering::SeqCst);
            worked
        },
    );
    Crew {
        lead,
        others,
        service,
    }
}
