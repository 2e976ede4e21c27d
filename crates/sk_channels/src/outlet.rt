//! The way out: what each ticket is told, as bytes, in order.
ghost use Rattle.std.specs.Prelude.{◌≡◌, ◌+◌, ◌-◌, ◌<◌, ◌≤◌, ◌^◌, ◌++◌, ◌∷◌, ◌↔◌, ℕ, List, [], Some, length, drop, take, min, flat_map, IfOk, OnOk, IsTrue};
ghost use Rattle.sk_channels.specs.Telling.{Told, refused, refused_up_to, told_text, HasTold, Tells};

use crate::Refusal;
use crate::waiting::Waiting;
use sk_requests::reply;
use std::alloc::{AllocError, Global};

/// What a ticket is told whose write did not reach the disk.
const LOST: &[u8] = b"IOERR the write did not reach the disk, nothing of it was done";

/// What each ticket is told, as bytes, in order.
#[derive(Drop)]
pub(crate) struct Outlet {
    alloc: Global,
    /// No more is taken while more bytes than these wait.
    most: usize,
    /// The next ticket to be told.
    next: u64,
    waiting: Waiting,
}

/// The lines for so many tickets whose writes did not reach the disk.
#[tactic(auto, using(crate::proofs::Tellings::one_more_refused))]
fn lost_lines(alloc: Global, count: u64) -> Result<Vec<u8>, AllocError>
    ensures { IfOk result (λ lines. lines.items ≡ flat_map told_text (refused count)) }
{
    let mut lines = Vec::new(alloc);
    for _ticket in 0..count {
        reply::error(&mut lines, LOST)?;
    }
    Ok(lines)
}

impl Outlet {
    /// No ticket was told anything.
    pub(crate) fn new(alloc: Global, most: usize) -> Outlet
        ensures told { HasTold [] [] result }
        ensures most { result.most ≡ most }
    {
        Outlet {
            alloc,
            most,
            next: 1,
            waiting: Waiting::new(alloc),
        }
    }

    /// The next ticket to be told.
    pub(crate) fn next(&self) -> u64
        ensures { result ≡ self.now.next }
    {
        self.next
    }

    /// How many bytes wait to be handed over.
    pub(crate) fn waiting_len(&self) -> usize
        ensures { result ≡ length self.now.waiting }
    {
        self.waiting.len()
    }

    /// Whether more bytes wait than may while more is taken.
    fn is_full(&self) -> bool
        ensures { IsTrue result ↔ (self.now.most < length self.now.waiting) }
    {
        self.most < self.waiting.len()
    }

    /// Tells this ticket a text, and those before it that were told nothing that their writes did not reach the disk.
    #[tactic(auto, using(crate::proofs::Tellings::tells_on))]
    pub(crate) fn tell(&mut self, ticket: u64, text: &[u8]) -> Result<(), Refusal>
        requires untold { self.old.next ≤ ticket }
        requires last { ticket + 1 < 2 ^ 64 }
        ensures told { (told : Told) (handed : List ℕ) → HasTold told handed self.old
            → Tells told handed (refused_up_to told ticket ++ Some text.now ∷ []) result self.new }
        ensures room { OnOk result (length self.old.waiting ≤ self.old.most) }
        ensures most { self.new.most ≡ self.old.most }
    {
        if self.is_full() {
            return Err(Refusal::Full);
        }
        let lines = lost_lines(self.alloc, ticket - self.next)?;
        self.waiting.append(lines.as_slice(), text)?;
        self.next = ticket + 1;
        Ok(())
    }

    /// Tells the tickets before this one that were told nothing that their writes did not reach the disk.
    #[tactic(auto, using(crate::proofs::Tellings::refuses_on))]
    pub(crate) fn refuse_up_to(&mut self, ticket: u64) -> Result<(), Refusal>
        ensures told { (told : Told) (handed : List ℕ) → HasTold told handed self.old
            → Tells told handed (refused_up_to told ticket) result self.new }
        ensures room { OnOk result (self.old.next < ticket
            → length self.old.waiting ≤ self.old.most) }
        ensures most { self.new.most ≡ self.old.most }
    {
        if ticket <= self.next {
            return Ok(());
        }
        if self.is_full() {
            return Err(Refusal::Full);
        }
        let lines = lost_lines(self.alloc, ticket - self.next)?;
        self.waiting.append(lines.as_slice(), b"")?;
        self.next = ticket;
        Ok(())
    }

    /// Moves as many bytes into the front of the room as wait, or fit.
    pub(crate) fn hand_over(&mut self, room: &mut [u8]) -> usize
        ensures told { (told : Told) (handed : List ℕ) → HasTold told handed self.old
            → HasTold told (handed ++ take result room.new) self.new }
        ensures count { result ≡ min (length room.old) (length self.old.waiting) }
        ensures behind { drop result room.new ≡ drop result room.old }
        ensures most { self.new.most ≡ self.old.most }
    {
        self.waiting.hand_over(room)
    }
}
