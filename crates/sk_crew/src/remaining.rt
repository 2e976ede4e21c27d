//! What is left when all threads have ended is served by rising number.
ghost use Rattle.std.specs.Prelude.{◌≡◌, IfOk, IfErr};
ghost use Rattle.sk_crew.specs.Duties.{OnlyReplies};
ghost use Rattle.sk_crew.specs.Served.{IsServed};

use crate::carrier::{Carrier, Lead};
use crate::crew::CrewFault;
use crate::service::{Service, Unfinished};
use sk_client::ReplyRefusal;
use sk_server::{Reply, Request, Server, ServerRefusal};
use sk_workers::{Shared, Worker};
use std::sync::Wait;
use std::sync::ledger::Ledger;

/// Gives the desk a reply. One that is not its next is left out.
fn give<L: Ledger, R: Wait>(
    rt: &R,
    shared: &Shared<L>,
    worker: Worker<L>,
    reply: Reply,
) -> Result<Worker<L>, CrewFault>
    ensures number { IfOk result (λ back. back.number ≡ worker.number) }
    ensures replies { IfOk result (OnlyReplies worker) }
    ensures fault { IfErr result (λ fault. fault ≡ CrewFault.Memory) }
{
    match shared.reply(rt, worker, reply) {
        (_, Err((_, ReplyRefusal::Memory))) => Err(CrewFault::Memory),
        (worker, _) => Ok(worker),
    }
}

/// Has a request answered, and gives the desk the reply. One that is not the server's next is left out.
fn serve<L: Ledger, R: Wait>(
    rt: &R,
    shared: &Shared<L>,
    worker: Worker<L>,
    server: &mut Server,
    request: Request,
) -> Result<Worker<L>, CrewFault>
    ensures number { IfOk result (λ back. back.number ≡ worker.number) }
    ensures replies { IfOk result (OnlyReplies worker) }
    ensures served { IsServed server.old server.new }
    ensures fault { IfErr result (λ fault. fault ≡ CrewFault.Memory) }
{
    match server.answer(request) {
        Ok(reply) => give(rt, shared, worker, reply),
        Err((_, ServerRefusal::Memory)) => Err(CrewFault::Memory),
        Err(_) => Ok(worker),
    }
}

/// Gives the desk a reply, if there is one.
fn give_kept<L: Ledger, R: Wait>(
    rt: &R,
    shared: &Shared<L>,
    worker: Worker<L>,
    reply: Option<Reply>,
) -> Result<Worker<L>, CrewFault>
    ensures number { IfOk result (λ back. back.number ≡ worker.number) }
    ensures replies { IfOk result (OnlyReplies worker) }
    ensures fault { IfErr result (λ fault. fault ≡ CrewFault.Memory) }
{
    match reply {
        Some(reply) => give(rt, shared, worker, reply),
        None => Ok(worker),
    }
}

/// Goes on with what the server kept, if that is something.
fn serve_kept<L: Ledger, R: Wait>(
    rt: &R,
    shared: &Shared<L>,
    worker: Worker<L>,
    server: &mut Server,
    kept: Option<Unfinished>,
) -> Result<Worker<L>, CrewFault>
    ensures number { IfOk result (λ back. back.number ≡ worker.number) }
    ensures replies { IfOk result (OnlyReplies worker) }
    ensures served { IsServed server.old server.new }
    ensures fault { IfErr result (λ fault. fault ≡ CrewFault.Memory) }
{
    match kept {
        Some(Unfinished::Reply(reply)) => give(rt, shared, worker, reply),
        Some(Unfinished::Request(request)) => serve(rt, shared, worker, server, request),
        None => Ok(worker),
    }
}

/// Gives the replies that worker 0 carries, and those in its wire; a request that it carries comes back.
fn give_received<L: Ledger, R: Wait>(
    rt: &R,
    shared: &Shared<L>,
    lead: Lead<'_, L>,
) -> Result<(Worker<L>, Option<Request>), CrewFault>
    ensures number { IfOk result (λ back. back.0.number ≡ lead.entry.worker.number) }
    ensures replies { IfOk result (λ back. OnlyReplies lead.entry.worker back.0) }
    ensures fault { IfErr result (λ fault. fault ≡ CrewFault.Memory) }
{
    let Lead { worker, carrier } = lead;
    let Carrier {
        requests: _,
        replies,
        request,
        reply,
        awaited: _,
    } = carrier;
    let mut worker = give_kept(rt, shared, worker, reply)?;
    let mut replies = replies;
    for _ in rt.forever() {
        let (back, reply) = replies.receive(rt);
        replies = back;
        let Some(reply) = reply else {
            break;
        };
        worker = give(rt, shared, worker, reply)?;
    }
    Ok((worker, request))
}

/// Serves what the server holds, and what is in its wire.
fn serve_received<L: Ledger, R: Wait>(
    rt: &R,
    shared: &Shared<L>,
    worker: Worker<L>,
    service: Service,
) -> Result<(Worker<L>, Server), CrewFault>
    ensures number { IfOk result (λ back. back.0.number ≡ worker.number) }
    ensures replies { IfOk result (λ back. OnlyReplies worker back.0) }
    ensures served { IfOk result (λ back. IsServed service.entry.server back.1) }
    ensures fault { IfErr result (λ fault. fault ≡ CrewFault.Memory) }
{
    let Service {
        mut server,
        requests,
        replies: _,
        kept,
    } = service;
    let mut worker = serve_kept(rt, shared, worker, &mut server, kept)?;
    let mut requests = requests;
    for _ in rt.forever() {
        let (back, request) = requests.receive(rt);
        requests = back;
        let Some(request) = request else {
            break;
        };
        worker = serve(rt, shared, worker, &mut server, request)?;
    }
    Ok((worker, server))
}

/// Serves a request that was not sent, and those that the desk still holds.
fn serve_unsent<L: Ledger, R: Wait>(
    rt: &R,
    shared: &Shared<L>,
    worker: Worker<L>,
    server: &mut Server,
    request: Option<Request>,
) -> Result<Worker<L>, CrewFault>
    ensures number { IfOk result (λ back. back.number ≡ worker.number) }
    ensures replies { IfOk result (OnlyReplies worker) }
    ensures served { IsServed server.old server.new }
    ensures fault { IfErr result (λ fault. fault ≡ CrewFault.Memory) }
{
    let kept = match request {
        Some(request) => Some(Unfinished::Request(request)),
        None => None,
    };
    let mut worker = serve_kept(rt, shared, worker, server, kept)?;
    for _ in rt.forever() {
        let Some(request) = shared.next_request(rt) else {
            break;
        };
        worker = serve(rt, shared, worker, server, request)?;
    }
    Ok(worker)
}

/// Serves by rising number what both kept, what the wires hold and what the desk holds, for worker 0.
pub(crate) fn serve_remaining<L: Ledger, R: Wait>(
    rt: &R,
    shared: &Shared<L>,
    lead: Lead<'_, L>,
    service: Service,
) -> Result<(Worker<L>, Server), CrewFault>
    ensures number { IfOk result (λ back. back.0.number ≡ lead.entry.worker.number) }
    ensures replies { IfOk result (λ back. OnlyReplies lead.entry.worker back.0) }
    ensures served { IfOk result (λ back. IsServed service.entry.server back.1) }
    ensures fault { IfErr result (λ fault. fault ≡ CrewFault.Memory) }
{
    let (worker, request) = give_received(rt, shared, lead)?;
    let (worker, mut server) = serve_received(rt, shared, worker, service)?;
    let worker = serve_unsent(rt, shared, worker, &mut server, request)?;
    Ok((worker, server))
}
