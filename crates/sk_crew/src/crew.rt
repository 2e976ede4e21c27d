//! A crew, from its desk and server to the history of its calls.
ghost use Rattle.std.specs.Prelude.{◌≡◌, ◌≤◌, ◌<◌, [], vec_len, IfOk, IfErr};
ghost use Rattle.sk_crew.specs.Base.{opened_at, pending, WORKERS_LIMIT, Runs, AreFresh, numbers, AreDistinct, IsClosed};
ghost use Rattle.sk_crew.specs.Crewed.{IsCrewed, IsRefused, HasCause};
ghost use Rattle.sk_crew.specs.Duties.{AllKeepTo, AllTookTurns};

use crate::carrier::{Carrier, Lead};
use crate::ends::WireEnds;
use crate::remaining::serve_remaining;
use crate::service::Service;
use crate::setup::Setup;
use crate::working::{Crew, work_served};
use sk_client::Desk;
use sk_server::Server;
use sk_workers::{CloseRefusal, Gate, History, Shared, Worker};
use std::alloc::Global;
use std::sync::Wait;
use std::sync::ledger::{Blank, Ledger};
use std::thread::Threads;
use thiserror::Error;

/// Why a crew has no history.
#[derive(Clone, Copy, Debug, PartialEq, Eq, Error)]
pub enum CrewFault {
    #[error("out of memory")]
    Memory,
    #[error("{0}")]
    Close(CloseRefusal),
}

/// How many workers there are, 1 to `WORKERS_LIMIT`, how many turns each of them takes at most, and how many
/// private instructions it runs at most outside the lock before each turn.
#[derive(Clone, Copy, Debug, PartialEq, Eq)]
pub struct CrewPlan {
    pub workers: u8,
    pub turns: u32,
    pub ahead: u32,
}

/// The crew works until all is served. All workers come back in their order.
fn run_served<L: Ledger + Send + Sync, R: Threads + Wait + Sync, G: Gate + Sync>(
    rt: &R,
    shared: &Shared<L>,
    workers: Vec<Worker<L>>,
    server: Server,
    setup: Setup,
    plan: CrewPlan,
    gate: &G,
) -> Result<(Vec<Worker<L>>, Server), CrewFault>
    requires { 0 < vec_len workers }
    // The workers come back, each of their calls was theirs to make, and they took their turns.
    ensures numbers { IfOk result (λ back. numbers back.0.items ≡ numbers workers.items) }
    ensures count { IfOk result (λ back. vec_len back.0 ≡ vec_len workers) }
    ensures duties { IfOk result (λ back. AreFresh plan.workers workers.items
        → AllKeepTo plan setup.processes.items back.0.items) }
    ensures turns { IfOk result (λ back. AreFresh plan.workers workers.items
        → AllTookTurns plan setup.processes.items back.0.items) }
    // Where no workers come back there was no memory.
    ensures fault { IfErr result (λ fault. fault ≡ CrewFault.Memory) }
{
    let Setup {
        processes,
        requests,
        replies,
    } = setup;
    let WireEnds {
        wire: requests,
        passes: asked,
    } = requests;
    let WireEnds {
        wire: replies,
        passes: answered,
    } = replies;
    let (asks, takes) = asked.ends(&requests);
    let (answers, gets) = answered.ends(&replies);
    let service = Service::new(server, takes, answers);
    let carrier = Carrier::new(asks, gets);
    let mut workers = workers;
    let Ok(others) = workers.split_off(1) else {
        return Err(CrewFault::Memory);
    };
    let Some(worker) = workers.pop() else {
        unreachable!()
    };
    let lead = Lead { worker, carrier };
    let crew = Crew {
        lead,
        others,
        service,
    };
    let Crew {
        lead,
        mut others,
        service,
    } = work_served(rt, shared, crew, &processes, plan, gate);
    let (first, server) = serve_remaining(rt, shared, lead, service)?;
    workers.push_reserved(first);
    match workers.append(&mut others) {
        Ok(()) => Ok((workers, server)),
        Err(_) => Err(CrewFault::Memory),
    }
}

/// Runs workers, each in a thread of its own, on a desk on which nothing was done in its epoch, and a server
/// beside them; then closes the desk. Worker k has the processes whose places, by rising number
/// from 0, are k modulo the number of workers, and takes a turn of each in rounds, until each turn
/// of a round was answered `Ended`, or for so many turns as the plan says. Before each turn it runs
/// the process's private instructions on a lease, and hands it in. That is no turn. Worker 0
/// carries requests and replies. What is left is served at the end.
pub fn run_crew<L: Ledger + Send + Sync, R: Threads + Wait + Sync, G: Gate + Sync>(
    rt: &R,
    alloc: Global,
    blank: Blank,
    desk: Desk,
    server: Server,
    plan: CrewPlan,
    gate: &G,
) -> Result<(History, Server), CrewFault>
    // The ledger has a part for each worker, and nothing was done on the desk in its epoch.
    requires ledger { (blank.name ≡ L.name) × (blank.parts ≡ L.parts)
        × (L.parts ≡ plan.workers) }
    requires count { (1 ≤ plan.workers) × (plan.workers ≤ WORKERS_LIMIT) }
    requires opened { desk ≡ opened_at desk.kernel desk.first }
    requires trace { desk.kernel.trace ≡ [] }
    // The calls are of such workers and make one legal history, and nothing is pending at its end.
    ensures crewed { IfOk result (λ done.
        IsCrewed plan desk done.0.entries.items done.0.desk) }
    ensures legal { IfOk result (λ done. desk.kernel.earlier ≡ []
        → Runs desk done.0.entries.items done.0.desk) }
    ensures settled { IfOk result (λ done. pending done.0.desk ≡ []) }
    // Where there is no history it is told why.
    ensures fault { IfErr result (HasCause plan desk) }
{
    let setup = match Setup::new(alloc, &desk) {
        Ok(setup) => setup,
        Err(_) => {
            desk.abandon();
            return Err(CrewFault::Memory);
        }
    };
    let (shared, workers) = match Shared::<L>::new(alloc, blank, desk, plan.workers) {
        Ok(made) => made,
        Err((_blank, desk, _error)) => {
            desk.abandon();
            return Err(CrewFault::Memory);
        }
    };
    match run_served(rt, &shared, workers, server, setup, plan, gate) {
        Ok((workers, server)) => match close(shared, workers) {
            Ok(history) => Ok((history, server)),
            Err(fault) => Err(fault),
        },
        Err(fault) => {
            shared.reopen().abandon();
            Err(fault)
        }
    }
}

/// Closes what the workers shared.
fn close<L: Ledger>(shared: Shared<L>, workers: Vec<Worker<L>>) -> Result<History, CrewFault>
    requires workers { vec_len workers ≡ L.parts }
    requires distinct { AreDistinct workers.items }
    ensures closed { IfOk result (λ history.
        IsClosed shared workers.items history.entries.items history.desk) }
    ensures fault { IfErr result (IsRefused shared workers.items) }
{
    match shared.close(workers) {
        Ok(history) => Ok(history),
        Err((shared, _workers, refusal)) => {
            shared.reopen().abandon();
            Err(CrewFault::Close(refusal))
        }
    }
}
