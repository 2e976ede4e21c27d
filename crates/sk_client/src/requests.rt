//! The requests of a desk that have no reply.
ghost use Rattle.std.specs.Prelude.{◌≡◌, ◌^◌, ◌<◌, ◌↔◌, [], ◌∷◌, ◌++◌, length, take, drop, IsSome, OnOk, option_to_list};
ghost use Rattle.sk_client.specs.Requests.{IsOldest};
ghost use Rattle.sk_client.specs.Desk.{asks_for, asks_on, asked_count, first_sent};

use crate::pending::BoxedRequest;
use sk_ids::{Name, Pid, TagSet};
use sk_server::Request;
use std::alloc::{AllocError, Global};
use std::collections::VecDeque;
use std::marker::Model;

/// A request of the queue.
#[derive(Drop)]
pub(crate) struct Queued {
    request: BoxedRequest,
    /// What it depends on, once more, to go with the request; `None` once that was taken.
    again: Option<TagSet>,
}

/// Requests without a reply, the oldest first: those that were taken, and then those that wait to be.
#[derive(Drop)]
pub(crate) struct Requests {
    queue: VecDeque<Queued>,
    /// How many of them were taken.
    taken: usize,
    /// For how many of them a process waits.
    asked: usize,
}

impl Model for Requests {
    ghost use Rattle.std.specs.Prelude.{take, drop};
    ghost use Rattle.std.specs.VecDeque.{deque_capacity};
    ghost use Rattle.sk_client.specs.Requests.{RequestsView, IsQueue, requests_in};

    ghost Value = { RequestsView };

    ghost view = { λ q. record {
      taken = take q.taken (requests_in q.queue.items);
      waiting = drop q.taken
          (requests_in q.queue.items);
      room = deque_capacity q.queue;
    } };

    ghost invariant = { λ q. IsQueue q.taken q.asked q.queue.items };
}

impl Requests {
    /// No request. This takes no memory.
    pub(crate) fn new(alloc: Global) -> Requests
        ensures taken { result.taken ≡ [] }
        ensures waiting { result.waiting ≡ [] }
    {
        Requests {
            queue: VecDeque::new(alloc),
            taken: 0,
            asked: 0,
        }
    }

    /// How many requests there are.
    pub(crate) fn len(&self) -> usize
        ensures count { result ≡ length (self.now.taken ++ self.now.waiting) }
        ensures limit { result < 2 ^ 63 }
    {
        self.queue.len()
    }

    /// How many of them wait.
    pub(crate) fn waiting(&self) -> usize
        ensures { result ≡ length self.now.waiting }
    {
        self.queue.len() - self.taken
    }

    /// Whether a process waits for the reply to one of them.
    pub(crate) fn asks_for(&self, pid: Pid) -> bool
        ensures { result ≡ asks_for pid (self.now.taken ++ self.now.waiting) }
    {
        if self.asked == 0 {
            return false;
        }
        self.queue.iter().any(|queued| queued.request.asks_for(pid))
    }

    /// Whether a process waits for a reply on this name.
    pub(crate) fn asks_on(&self, name: &Name) -> bool
        ensures { result ≡ asks_on name.now (self.now.taken ++ self.now.waiting) }
    {
        if self.asked == 0 {
            return false;
        }
        self.queue.iter().any(|queued| queued.request.asks_on(name))
    }

    /// For how many of them a process waits.
    pub(crate) fn asked(&self) -> usize
        ensures { result ≡ asked_count (self.now.taken ++ self.now.waiting) }
    {
        self.asked
    }

    /// Makes room for one more.
    pub(crate) fn reserve(&mut self) -> Result<(), AllocError>
        ensures taken { self.new.taken ≡ self.old.taken }
        ensures waiting { self.new.waiting ≡ self.old.waiting }
        ensures room { OnOk result (length (self.old.taken ++ self.old.waiting) < self.new.room) }
    {
        self.queue.reserve(1)
    }

    /// Adds a request, for which there is room, with a second list of what it depends on.
    pub(crate) fn push(&mut self, request: BoxedRequest, again: TagSet)
        requires room { length (self.old.taken ++ self.old.waiting) < self.old.room }
        requires again { again ≡ request.rests }
        ensures taken { self.new.taken ≡ self.old.taken }
        ensures waiting { self.new.waiting ≡ self.old.waiting ++ request ∷ [] }
    {
        let _few = self.queue.len();
        self.asked += request.places();
        self.queue.push_back_reserved(Queued {
            request,
            again: Some(again),
        });
    }

    /// The oldest request that was taken.
    pub(crate) fn first_taken(&self) -> Option<&BoxedRequest>
        ensures { IsOldest result self.now.taken }
    {
        if self.taken == 0 {
            return None;
        }
        let oldest = self.queue.front()?;
        Some(&oldest.request)
    }

    /// The oldest request that waits.
    pub(crate) fn first_waiting(&self) -> Option<&BoxedRequest>
        ensures { IsOldest result self.now.waiting }
    {
        let oldest = self.queue.get(self.taken)?;
        Some(&oldest.request)
    }

    /// Takes the oldest request that waits, and answers it as it is sent.
    pub(crate) fn take(&mut self) -> Option<Request>
        ensures request { result ≡ first_sent self.old.waiting }
        ensures taken { self.new.taken ≡ self.old.taken ++ take 1 self.old.waiting }
        ensures waiting { self.new.waiting ≡ drop 1 self.old.waiting }
    {
        let oldest = self.queue.get_mut(self.taken)?;
        self.taken += 1;
        let Some(rests) = oldest.again.take() else {
            unreachable!();
        };
        Some(oldest.request.sent(rests))
    }

    /// Takes the oldest request that waits, where nothing is to be sent of it.
    pub(crate) fn take_unsent(&mut self)
        ensures taken { self.new.taken ≡ self.old.taken ++ take 1 self.old.waiting }
        ensures waiting { self.new.waiting ≡ drop 1 self.old.waiting }
    {
        if let Some(oldest) = self.queue.get_mut(self.taken) {
            oldest.again = None;
            self.taken += 1;
        }
    }

    /// Takes out the oldest request that was taken.
    pub(crate) fn pop_taken(&mut self) -> Option<BoxedRequest>
        ensures items { self.old.taken ≡ option_to_list result ++ self.new.taken }
        ensures variant { IsSome result ↔ (0 < length self.old.taken) }
        ensures waiting { self.new.waiting ≡ self.old.waiting }
    {
        if self.taken == 0 {
            return None;
        }
        let Queued { request, again: _ } = self.queue.pop_front()?;
        self.taken -= 1;
        self.asked -= request.places();
        Some(request)
    }
}
