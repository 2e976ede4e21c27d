//! The opening of a store behind a log that was read.
ghost use Rattle.std.specs.Prelude.{◌≡◌, MatchOption, MatchResult};
ghost use Rattle.sk_handles.specs.Reopening.{not_opened, AreGiven, IsCause, OpensStore};

use crate::codes::{MEMORY, REFUSED};
use crate::reading::{Reading, Stage};
use crate::store_calls::{FramePlace, place_of};
use crate::told::Told;
use sk_durable::{Limits, Store};
use sk_recovered::FIRST_PIECE;
use sk_reopened::{Last, Refusal, reopen};
use std::alloc::Global;
use std::num::NonZeroU16;

/// What a store takes, as C gives it.
#[repr(C)]
#[derive(Clone, Copy)]
pub struct StoreLimits {
    pub words: usize,
    pub bytes: usize,
    pub line: usize,
    pub waiting: usize,
    pub segment: u64,
    pub undecided: u32,
    pub commands: u32,
    pub in_flight: u16,
}

/// Why no store is opened.
#[derive(Clone, Copy)]
pub enum NotOpened {
    /// No log is read whole, or a part of what was found was given as pieces of a snapshot.
    Order,
    Refused(Refusal),
}

/// What a call is told that opens no store.
pub fn not_opened(why: NotOpened) -> Told
    ensures { result ≡ not_opened why }
{
    match why {
        NotOpened::Order => Told::of(REFUSED, 14),
        NotOpened::Refused(Refusal::NoNumber) => Told::of(REFUSED, 8),
        NotOpened::Refused(Refusal::Short) => Told::of(REFUSED, 9),
        NotOpened::Refused(Refusal::Limits) => Told::of(REFUSED, 12),
        NotOpened::Refused(Refusal::Key) => Told::of(REFUSED, 13),
        NotOpened::Refused(Refusal::Memory) => Told::of(MEMORY, 0),
    }
}

/// The limits; none where no frame may be in flight.
fn limits_of(given: &StoreLimits) -> Option<Limits>
    ensures { MatchOption result (given.now.in_flight ≡ 0) (λ limits. AreGiven given.now limits) }
{
    Some(Limits {
        requests: sk_requests::Limits {
            words: given.words,
            bytes: given.bytes,
            line: given.line,
        },
        waiting: given.waiting,
        in_flight: NonZeroU16::new(given.in_flight)?,
        undecided: given.undecided,
        commands: given.commands,
        segment: given.segment,
    })
}

/// A store behind what was read, in a box; the head of its segment is in the room then, and its place is told.
pub fn opened(
    alloc: Global,
    read: &Reading,
    limits: &StoreLimits,
    seed: u64,
    room: &mut [u8],
    place: &mut FramePlace,
) -> Result<Box<Store>, NotOpened>
    ensures { MatchResult result
        (λ store. OpensStore limits.now read.now store.value room.old room.new place.new)
        (λ why. IsCause why limits.now read.now room.old room.new × (place.new ≡ place.old)) }
{
    let Stage::Found(entries) = &read.stage else {
        return Err(NotOpened::Order);
    };
    if read.pieces != FIRST_PIECE {
        return Err(NotOpened::Order);
    }
    let Some(limits) = limits_of(limits) else {
        return Err(NotOpened::Refused(Refusal::Limits));
    };
    let last = Last {
        frame: read.next,
        segment: read.last,
    };
    let reopened = match reopen(alloc, limits, seed, entries.left(), last, room) {
        Ok(reopened) => reopened,
        Err(why) => return Err(NotOpened::Refused(why)),
    };
    let Ok(store) = Box::new(alloc, reopened.store) else {
        return Err(NotOpened::Refused(Refusal::Memory));
    };
    *place = place_of(reopened.head);
    Ok(store)
}
