//! A history, run again.
use sk_client::Desk;
use sk_ids::Pid;
use sk_kernel::HandIn;
use sk_server::{Reply, Request, Server, ServerRefusal};
use sk_workers::{Answered, DeskCall, HistoryEntry};
use std::alloc::{AllocError, Global};
use tests_support::finding::Finding;

/// A fresh server with the replies that it made, the oldest first.
#[derive(Drop)]
pub struct Peer {
    server: Server,
    replies: Vec<Reply>,
    /// How many of the replies were given.
    given: usize,
}

impl Peer {
    /// A server that answered nothing yet.
    pub fn new(alloc: Global, server: Server) -> Peer {
        Peer {
            server,
            replies: Vec::new(alloc),
            given: 0,
        }
    }

    pub fn server(&self) -> &Server {
        &self.server
    }

    /// Answers a request.
    fn serve(&mut self, request: Request) -> Result<(), Finding> {
        match self.server.answer(request) {
            Ok(reply) => {
                self.replies.push(reply)?;
                Ok(())
            }
            Err((_, ServerRefusal::Memory)) => Err(Finding::Memory(AllocError)),
            Err((_, ServerRefusal::OutOfTurn { .. })) => Err(Finding::Requests),
        }
    }

    /// Whether this is the reply that comes next, which is given then.
    fn gives(&mut self, reply: &Reply) -> bool {
        let is_next = self.replies.get(self.given) == Some(reply);
        self.given = self.given.saturating_add(1);
        is_next
    }
}

/// Takes requests until so many were taken, and has them answered.
fn take_until(desk: &mut Desk, peer: &mut Peer, taken: u64) -> Result<(), Finding> {
    for _ in 0..taken {
        if desk.requests_taken() >= taken {
            return Ok(());
        }
        let Some(request) = desk.take_request() else {
            return Err(Finding::Requests);
        };
        peer.serve(request)?;
    }
    Ok(())
}

/// Leases a process, runs so many of its private instructions and hands it in. Where it can't be
/// leased or runs fewer, that is told as a stale lease is.
fn hand_in(desk: &mut Desk, pid: Pid, count: u32) -> Result<(), HandIn> {
    let Ok(mut lease) = desk.lease(pid) else {
        return Err(HandIn::Stale);
    };
    lease.run(count);
    if lease.count() != count {
        lease.give_up();
        return Err(HandIn::Stale);
    }
    match desk.hand_in(lease) {
        Ok(()) => Ok(()),
        Err((lease, why)) => {
            lease.give_up();
            Err(why)
        }
    }
}

/// Makes a call, and tells the answer without what came back. Of a stale lease nothing is known but
/// that nothing changed.
fn make(desk: &mut Desk, entry: &HistoryEntry) -> Answered {
    match &entry.call {
        DeskCall::HandIn { .. } if entry.answer == Answered::HandedIn(Err(HandIn::Stale)) => {
            entry.answer
        }
        DeskCall::HandIn { process, count } => Answered::HandedIn(hand_in(desk, *process, *count)),
        DeskCall::Turn(pid) => Answered::Turned(desk.turn(*pid)),
        DeskCall::Reply(reply) => match desk.give_reply(reply.reply()) {
            Ok(given) => Answered::Replied(Ok(given)),
            Err((_, why)) => Answered::Replied(Err(why)),
        },
    }
}

/// Whether a call gives no reply, or the one that comes next.
fn is_next(peer: &mut Peer, entry: &HistoryEntry) -> bool {
    match &entry.call {
        DeskCall::Reply(reply) => peer.gives(&reply.reply()),
        DeskCall::Turn(_) | DeskCall::HandIn { .. } => true,
    }
}

/// Makes the calls of a history on a desk, each of which has to be answered as it was; the replies have to be those of the
/// server to the desk's requests.
pub fn run_again(
    desk: &mut Desk,
    peer: &mut Peer,
    entries: &[HistoryEntry],
) -> Result<(), Finding> {
    for (place, entry) in entries.iter().enumerate() {
        take_until(desk, peer, entry.taken)?;
        if !is_next(peer, entry) {
            return Err(Finding::Reply(place));
        }
        if make(desk, entry) != entry.answer {
            return Err(Finding::Entry(place));
        }
    }
    Ok(())
}
