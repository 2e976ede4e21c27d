//! A channel: bytes in, works with tickets, and what the tickets are told, as bytes, in order.
ghost use Rattle.std.specs.Prelude.{◌≡◌, ◌+◌, ◌-◌, ◌<◌, ◌≤◌, ◌^◌, ◌++◌, ◌∷◌, ℕ, true, List, [], None, is_some, length, drop, take, min, option_map, OnOk};
ghost use Rattle.sk_channels.specs.Base.{Limits, Text, Say, Ask, Do};
ghost use Rattle.sk_channels.specs.Hearing.{most_queued, posed_ticket, word_at};
ghost use Rattle.sk_channels.specs.Serving.{FeedPost, HasServed, RefusePost, ReplyPost};
ghost use Rattle.sk_channels.specs.Telling.{Told};

use crate::Refusal;
use crate::inlet::{Fed, Inlet};
use crate::outlet::Outlet;
use sk_requests::Limits;
use std::alloc::Global;

/// A channel: bytes that came to works with tickets, and what the tickets are told to bytes, in order.
#[derive(Drop)]
pub struct Channel {
    inlet: Inlet,
    outlet: Outlet,
}

impl Channel {
    /// No byte came. No reply is taken while more bytes than these wait to be handed over, and no command is queued where the
    /// queue would take more than four times the bytes that a request may have.
    pub fn new(alloc: Global, limits: Limits, most_waiting: usize) -> Channel
        requires { 16 ≤ limits.line }
        ensures served { HasServed limits [] [] [] [] result }
        ensures most { result.outlet.most ≡ most_waiting }
        ensures queued { result.inlet.most_queued ≡ most_queued limits }
    {
        Channel {
            inlet: Inlet::new(alloc, limits),
            outlet: Outlet::new(alloc, most_waiting),
        }
    }

    /// Whether a fault was told: what comes is dropped.
    pub fn is_closed(&self) -> bool
        ensures { result ≡ self.now.inlet.closed }
    {
        self.inlet.is_closed()
    }

    /// The next ticket to be given.
    pub fn next_given(&self) -> u64
        ensures { result ≡ self.now.inlet.next }
    {
        self.inlet.next()
    }

    /// The next ticket to be told something.
    pub fn next_told(&self) -> u64
        ensures { result ≡ self.now.outlet.next }
    {
        self.outlet.next()
    }

    /// How many bytes the commands take that wait for EXEC; none where no queue is open.
    pub fn queued(&self) -> usize
        ensures { result ≡ self.now.inlet.session.bytes }
    {
        self.inlet.queued()
    }

    /// How many bytes wait to be handed over.
    pub fn waiting_len(&self) -> usize
        ensures { result ≡ length self.now.outlet.waiting }
    {
        self.outlet.waiting_len()
    }

    /// Whether the host is asked for the reply to a request: no byte is taken until it told.
    pub fn is_posed(&self) -> bool
        ensures { result ≡ is_some self.now.inlet.posed }
    {
        self.inlet.is_posed()
    }

    /// A word of the request that the host is asked; `None` past the last, and where it is not asked.
    pub fn word(&self, place: usize) -> Option<&[u8]>
        ensures { option_map (λ s. s.now) result ≡ word_at place self.now.inlet.posed }
    {
        self.inlet.word(place)
    }

    /// The ticket that the request has which the host is asked.
    pub fn posed_ticket(&self) -> Option<u64>
        ensures { result ≡ posed_ticket self.now.inlet }
    {
        self.inlet.posed_ticket()
    }

    /// The host told what is to be replied: its request has its ticket, and the next bytes may come.
    pub fn tell(&mut self)
        requires posed { is_some self.old.inlet.posed ≡ true }
        requires next { self.old.inlet.next < 2 ^ 64 - 1 }
        ensures served { (limits : Limits) (asked : List Ask) (stream : List ℕ) (told : Told)
            (handed text : List ℕ) → HasServed limits asked stream told handed self.old
            → HasServed limits (asked ++ Do (Say (Text text)) ∷ []) stream told handed self.new }
        ensures idle { self.new.inlet.posed ≡ None }
        ensures most { self.new.outlet.most ≡ self.old.outlet.most }
    {
        self.inlet.tell();
    }

    /// Takes bytes from the front: up to the end of a request, or all; fewer where there is no memory for more, and none while
    /// the host is asked.
    pub fn feed(&mut self, bytes: &[u8]) -> Result<Fed, Refusal>
        ensures served { (limits : Limits) (asked : List Ask) (stream : List ℕ) (told : Told)
            (handed : List ℕ) → HasServed limits asked stream told handed self.old
            → FeedPost limits asked stream told handed bytes.now result self.new }
        ensures most { self.new.outlet.most ≡ self.old.outlet.most }
    {
        self.inlet.feed(bytes)
    }

    /// Tells a ticket a text, and those before it that were told nothing that their writes did not reach the disk.
    pub fn reply(&mut self, ticket: u64, text: &[u8]) -> Result<(), Refusal>
        ensures told { (limits : Limits) (asked : List Ask) (stream : List ℕ) (told : Told)
            (handed : List ℕ) → HasServed limits asked stream told handed self.old
            → ReplyPost limits asked stream told handed ticket text.now result self.new }
        ensures room { OnOk result (length self.old.outlet.waiting ≤ self.old.outlet.most) }
        ensures most { self.new.outlet.most ≡ self.old.outlet.most }
    {
        if ticket < self.outlet.next() || self.inlet.next() <= ticket {
            return Err(Refusal::NoTicket);
        }
        self.outlet.tell(ticket, text)
    }

    /// Tells the tickets before this one that were told nothing that their writes did not reach the disk.
    pub fn refuse_up_to(&mut self, ticket: u64) -> Result<(), Refusal>
        ensures told { (limits : Limits) (asked : List Ask) (stream : List ℕ) (told : Told)
            (handed : List ℕ) → HasServed limits asked stream told handed self.old
            → RefusePost limits asked stream told handed ticket result self.new }
        ensures room { OnOk result (self.old.outlet.next < ticket
            → length self.old.outlet.waiting ≤ self.old.outlet.most) }
        ensures most { self.new.outlet.most ≡ self.old.outlet.most }
    {
        if self.inlet.next() < ticket {
            return Err(Refusal::NoTicket);
        }
        self.outlet.refuse_up_to(ticket)
    }

    /// Moves as many bytes into the front of the room as wait, or fit.
    pub fn output(&mut self, room: &mut [u8]) -> usize
        ensures handed { (limits : Limits) (asked : List Ask) (stream : List ℕ) (told : Told)
            (handed : List ℕ) → HasServed limits asked stream told handed self.old
            → HasServed limits asked stream told (handed ++ take result room.new) self.new }
        ensures count { result ≡ min (length room.old) (length self.old.outlet.waiting) }
        ensures behind { drop result room.new ≡ drop result room.old }
        ensures most { self.new.outlet.most ≡ self.old.outlet.most }
    {
        self.outlet.hand_over(room)
    }
}
