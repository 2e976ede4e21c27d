//! What worker 0 does beside its turns.
ghost use Rattle.std.specs.Prelude.{◌≡◌};
ghost use Rattle.sk_crew.specs.Duties.{OnlyReplies};

use crate::ends::{ReceivingEnd, SendingEnd};
use sk_server::{Reply, Request};
use sk_workers::{Shared, Worker};
use std::sync::Wait;
use std::sync::ledger::Ledger;

/// Carries requests from the desk to one wire, and replies from the other to the desk.
#[derive(Drop)]
pub(crate) struct Carrier<'a> {
    pub(crate) requests: SendingEnd<'a, Request>,
    pub(crate) replies: ReceivingEnd<'a, Reply>,
    /// A request that was taken from the desk, and is not sent yet.
    pub(crate) request: Option<Request>,
    /// A reply that was received, and which the desk did not take yet.
    pub(crate) reply: Option<Reply>,
    /// How many requests were sent whose replies were not received yet.
    pub(crate) awaited: u64,
}

/// Worker 0, with what it carries.
#[derive(Drop)]
pub(crate) struct Lead<'a, L: Ledger> {
    pub(crate) worker: Worker<L>,
    pub(crate) carrier: Carrier<'a>,
}

impl<'a> Carrier<'a> {
    /// Nothing is carried yet.
    pub(crate) fn new(
        requests: SendingEnd<'a, Request>,
        replies: ReceivingEnd<'a, Reply>,
    ) -> Carrier<'a> {
        Carrier {
            requests,
            replies,
            request: None,
            reply: None,
            awaited: 0,
        }
    }

    /// Whether it has nothing to send or to give, and no reply is on its way.
    fn is_idle(&self) -> bool {
        self.awaited == 0 && self.request.is_none() && self.reply.is_none()
    }

    /// Sends the oldest request that is not sent yet, if there is one.
    fn move_out<L: Ledger, R: Wait>(self, rt: &R, shared: &Shared<L>) -> Carrier<'a> {
        let Carrier {
            requests,
            replies,
            request,
            reply,
            awaited,
        } = self;
        let next = match request {
            Some(request) => Some(request),
            None if shared.may_wait() => shared.next_request(rt),
            None => None,
        };
        let was_some = next.is_some();
        let (requests, request) = requests.send_if_any(rt, next);
        let sent = was_some && request.is_none();
        Carrier {
            requests,
            replies,
            request,
            reply,
            awaited: awaited.saturating_add(u64::from(sent)),
        }
    }
}

impl<'a, L: Ledger> Lead<'a, L> {
    /// Moves at most one request out and one reply in.
    pub(crate) fn carry<R: Wait>(self, rt: &R, shared: &Shared<L>) -> Lead<'a, L>
        ensures number { result.worker.number ≡ self.entry.worker.number }
        ensures replies { OnlyReplies self.entry.worker result.worker }
    {
        if self.carrier.is_idle() && !shared.may_wait() {
            return self;
        }
        let Lead { worker, carrier } = self;
        let carrier = carrier.move_out(rt, shared);
        Lead { worker, carrier }.move_in(rt, shared)
    }

    /// Gives the desk the oldest reply that it did not take yet, if there is one.
    fn move_in<R: Wait>(self, rt: &R, shared: &Shared<L>) -> Lead<'a, L>
        ensures number { result.worker.number ≡ self.entry.worker.number }
        ensures replies { OnlyReplies self.entry.worker result.worker }
    {
        let Lead { worker, carrier } = self;
        let Carrier {
            requests,
            replies,
            request,
            reply,
            awaited,
        } = carrier;
        let is_new = reply.is_none();
        let (replies, next) = match reply {
            Some(reply) => (replies, Some(reply)),
            None => replies.receive(rt),
        };
        let awaited = awaited.saturating_sub(u64::from(is_new && next.is_some()));
        let (worker, reply) = offer(rt, shared, worker, next);
        let carrier = Carrier {
            requests,
            replies,
            request,
            reply,
            awaited,
        };
        Lead { worker, carrier }
    }
}

/// Offers the desk a reply, if there is one; what it did not take is kept.
fn offer<L: Ledger, R: Wait>(
    rt: &R,
    shared: &Shared<L>,
    worker: Worker<L>,
    reply: Option<Reply>,
) -> (Worker<L>, Option<Reply>)
    ensures number { result.0.number ≡ worker.number }
    ensures replies { OnlyReplies worker result.0 }
{
    let Some(reply) = reply else {
        return (worker, None);
    };
    match shared.reply(rt, worker, reply) {
        (worker, Ok(_)) => (worker, None),
        (worker, Err((reply, _))) => (worker, Some(reply)),
    }
}
