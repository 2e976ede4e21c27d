//! Crews, one after the other.
ghost use Rattle.std.specs.Prelude.{◌≡◌, ◌≤◌, [], IfOk};
ghost use Rattle.sk_client.specs.Desk.{opened_at};

use crate::again::{Peer, run_again};
use crate::judge::judge_files;
use crate::meeting::Meeting;
use crate::turns::judge_calls;
use sk_client::Desk;
use sk_crew::{CrewPlan, run_crew};
use sk_play::desk_of;
use sk_scenario::Declarations;
use sk_server::Server;
use sk_workers::{History, HistoryEntry};
use std::alloc::Global;
use std::marker::Brand;
use std::sync::Wait;
use std::sync::ledger::Blank;
use std::thread::Threads;
use tests_support::finding::Finding;
use tests_support::judge::judge_settled;

/// Has a crew work on a desk.
fn crew<R: Threads + Wait + Sync>(
    rt: &R,
    alloc: Global,
    desk: Desk,
    server: Server,
    plan: CrewPlan,
    meeting: &Meeting,
) -> Result<(History, Server), Finding>
    requires count { (1 ≤ plan.workers) × (plan.workers ≤ 8) }
    requires opened { desk ≡ opened_at desk.kernel desk.first }
    requires trace { desk.kernel.trace ≡ [] }
{
    let blank = Blank::new(u64::from(plan.workers));
    match run_crew::<Brand, R, Meeting>(rt, alloc, blank, desk, server, plan, meeting) {
        Ok(done) => Ok(done),
        Err(_) => Err(Finding::Crew),
    }
}

/// What a crew leaves.
#[derive(Clone, Copy)]
struct CrewLeft<'a> {
    entries: &'a [HistoryEntry],
    desk: &'a Desk,
    server: &'a Server,
}

/// Runs the history again with a fresh desk and a fresh server, which have to come to the same trace and files.
fn repeat(fresh: &mut Desk, peer: &mut Peer, left: &CrewLeft) -> Result<(), Finding> {
    run_again(fresh, peer, left.entries)?;
    if fresh.kernel().trace().events() != left.desk.kernel().trace().events() {
        return Err(Finding::Trace);
    }
    judge_files(peer.server(), left.server)
}

/// Judges the calls of a history on a fresh desk and its peer.
fn judge_fresh(
    alloc: Global,
    fresh: &mut Desk,
    peer: &mut Peer,
    plan: CrewPlan,
    left: &CrewLeft,
) -> Result<(), Finding>
    requires { 1 ≤ plan.workers }
{
    judge_calls(alloc, fresh.kernel(), plan, left.entries)?;
    repeat(fresh, peer, left)
}

/// Judges the calls of a history.
fn judge_history(
    alloc: Global,
    declarations: &Declarations,
    plan: CrewPlan,
    left: &CrewLeft,
) -> Result<(), Finding>
    requires { 1 ≤ plan.workers }
{
    let (mut fresh, server) = desk_of(alloc, declarations)?;
    let mut peer = Peer::new(alloc, server);
    let judged = judge_fresh(alloc, &mut fresh, &mut peer, plan, left);
    fresh.abandon();
    drop(peer);
    judged
}

/// Judges what a crew leaves whose workers met: how many calls it made.
fn judge_crew(
    alloc: Global,
    declarations: &Declarations,
    plan: CrewPlan,
    meeting: &Meeting,
    left: &CrewLeft,
) -> Result<usize, Finding>
    requires { 1 ≤ plan.workers }
{
    if left.desk.pending() > 0 {
        return Err(Finding::Pending);
    }
    judge_settled(alloc, declarations.boot(), left.desk.kernel())?;
    meeting.judge(left.entries)?;
    judge_history(alloc, declarations, plan, left)?;
    Ok(left.entries.len())
}

/// One crew, whose workers meet: how many calls it makes.
fn one_crew<R: Threads + Wait + Sync>(
    rt: &R,
    alloc: Global,
    declarations: &Declarations,
    plan: CrewPlan,
    meeting: &Meeting,
) -> Result<usize, Finding>
    requires count { (1 ≤ plan.workers) × (plan.workers ≤ 8) }
{
    let (desk, server) = desk_of(alloc, declarations)?;
    let (History { entries, desk }, server) = crew(rt, alloc, desk, server, plan, meeting)?;
    let left = CrewLeft {
        entries: entries.as_slice(),
        desk: &desk,
        server: &server,
    };
    let judged = judge_crew(alloc, declarations, plan, meeting, &left);
    desk.abandon();
    drop(server);
    drop(entries);
    judged
}

/// How many workers meet in the crew of a number: in every second one all that have a process.
fn guests_of(declarations: &Declarations, number: u32) -> usize {
    if number % 2 == 0 {
        declarations.boot().processes().len()
    } else {
        0
    }
}

/// The crew of a number, with as many turns fewer a worker: how many calls it makes.
fn numbered_crew<R: Threads + Wait + Sync>(
    rt: &R,
    alloc: Global,
    declarations: &Declarations,
    plan: CrewPlan,
    number: u32,
) -> Result<usize, Finding>
    requires count { (1 ≤ plan.workers) × (plan.workers ≤ 8) }
    requires turns { 1 ≤ plan.turns }
{
    let turns = plan.turns - number % plan.turns;
    let plan = CrewPlan { turns, ..plan };
    let meeting = Meeting::new(alloc, plan.workers, guests_of(declarations, number))?;
    one_crew(rt, alloc, declarations, plan, &meeting)
}

/// Has so many crews work, each with a turn fewer a worker than the one before, and judges each; some call has to be made.
pub fn judge_crews<R: Threads + Wait + Sync>(
    rt: &R,
    alloc: Global,
    declarations: &Declarations,
    plan: CrewPlan,
    crews: u32,
) -> Result<(), Finding>
    requires count { (1 ≤ plan.workers) × (plan.workers ≤ 8) }
    requires turns { 1 ≤ plan.turns }
{
    let mut calls = 0usize;
    for number in 0..crews {
        let made = numbered_crew(rt, alloc, declarations, plan, number)?;
        calls = calls.saturating_add(made);
    }
    if calls == 0 {
        return Err(Finding::Crew);
    }
    Ok(())
}
