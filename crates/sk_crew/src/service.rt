//! The server in a thread of its own.
ghost use Rattle.std.specs.Prelude.{◌≡◌};
ghost use Rattle.sk_crew.specs.Served.{IsServed};

use crate::ends::{ReceivingEnd, SendingEnd};
use sk_server::{Reply, Request, Server};
use std::sync::Wait;
use std::sync::atomic::{AtomicBool, Ordering};
use std::thread;

/// What the server has not finished.
#[derive(Drop)]
pub(crate) enum Unfinished {
    /// A request that it had no memory for.
    Request(Request),
    /// A reply that is not sent yet.
    Reply(Reply),
}

/// A server that answers what comes by one wire and sends its replies by the other.
#[derive(Drop)]
pub(crate) struct Service<'a> {
    pub(crate) server: Server,
    pub(crate) requests: ReceivingEnd<'a, Request>,
    pub(crate) replies: SendingEnd<'a, Reply>,
    pub(crate) kept: Option<Unfinished>,
}

/// How many loads the server's pause between two looks for a request takes.
const PAUSE_LOADS: u32 = 600;

/// Waits where there is nothing to answer, and lets others run.
fn pause(stop: &AtomicBool) {
    for _ in 0..PAUSE_LOADS {
        let _ = stop.load(Ordering::Relaxed);
    }
    thread::yield_now();
}

/// The reply to a request, or the request where it is not answered.
fn answer(server: &mut Server, request: Request) -> Unfinished
    ensures { IsServed server.old server.new }
{
    match server.answer(request) {
        Ok(reply) => Unfinished::Reply(reply),
        Err((request, _)) => Unfinished::Request(request),
    }
}

impl<'a> Service<'a> {
    /// Nothing is served yet.
    pub(crate) fn new(
        server: Server,
        requests: ReceivingEnd<'a, Request>,
        replies: SendingEnd<'a, Reply>,
    ) -> Service<'a>
        ensures { result.server ≡ server }
    {
        Service {
            server,
            requests,
            replies,
            kept: None,
        }
    }

    /// Serves until it is told to stop.
    pub(crate) fn serve<R: Wait>(self, rt: &R, stop: &AtomicBool) -> Service<'a>
        ensures { IsServed self.entry.server result.server }
    {
        let mut service = self;
        for _ in rt.forever() {
            if stop.load(Ordering::SeqCst) {
                break;
            }
            service = service.go_on(rt);
            if service.kept.is_none() {
                pause(stop);
            }
        }
        service
    }

    /// Sends the reply that is kept; or answers the request that is kept, or else the next.
    fn go_on<R: Wait>(self, rt: &R) -> Service<'a>
        ensures { IsServed self.entry.server result.server }
    {
        let Service {
            mut server,
            requests,
            replies,
            kept,
        } = self;
        let (requests, replies, kept) = match kept {
            Some(Unfinished::Reply(reply)) => {
                let (replies, reply) = replies.send_if_any(rt, Some(reply));
                (requests, replies, reply.map(Unfinished::Reply))
            }
            Some(Unfinished::Request(request)) => {
                (requests, replies, Some(answer(&mut server, request)))
            }
            None => {
                let (requests, request) = requests.receive(rt);
                let kept = match request {
                    Some(request) => Some(answer(&mut server, request)),
                    None => None,
                };
                (requests, replies, kept)
            }
        };
        Service {
            server,
            requests,
            replies,
            kept,
        }
    }
}
