//! What the calls of a store do, and what they are told.
ghost use Rattle.std.specs.Prelude.{◌≡◌, if◌then◌else◌};
ghost use Rattle.sk_handles.specs.Base.{option_map_or, error_text, name_of, rests_on_at, words_of};
ghost use Rattle.sk_commands.specs.declared.fault.Fault.TheVariants.{Unknown};
ghost use Rattle.sk_handles.specs.StoreCalls.{done_told, end_number, fed_told, may_write_told, output_told, outcome_told, place_of, queue_refused, store_refused, value_at, AreStoreCounts, Connects, CutsOff, Decides, Feeds, FeedsAhead, HangsUp, Fails, IsDone, NextReady, OutputsTo, SendsHead, ShowsAhead, ShowsAsked, Syncs, TakesFrame, TellsClosed, TellsCut, TellsLeft, TellsQueued, TellsReply, Turns, WindsUp};
ghost use Rattle.sk_handles.specs.OwnCalls.{ShowsBytes, TellsTag};
ghost use Rattle.sk_handles.specs.Told.{just, told_by};

use crate::codes::{ABSENT, COMMITTED, DONE, FAILED, MEMORY, REFUSED, SHOWN};
use crate::room::put;
use crate::told::Told;
use sk_batched::Outcome;
use sk_batches::{Refusal as Queued, Sealed};
use sk_commands::Name;
use sk_durable::{End, Fed, NotDone, Refusal, Store};
use sk_led::wind_up;

/// Where a frame is to be written: its number, its segment, the place of its first byte there, and how many bytes it has.
#[repr(C)]
#[derive(Clone, Copy)]
pub struct FramePlace {
    pub frame: u64,
    pub segment: u64,
    pub offset: u64,
    pub len: usize,
}

/// The frame that is cut off, and its first and last batch.
#[repr(C)]
#[derive(Clone, Copy)]
pub struct CutOff {
    pub frame: u64,
    pub first: u64,
    pub last: u64,
}

/// What of a store is counted in constant time.
#[repr(C)]
#[derive(Clone, Copy)]
pub struct StoreCounts {
    pub undecided: usize,
    pub in_flight: u64,
    pub open_batches: usize,
    pub next_frame: usize,
    pub answers: usize,
}

/// What a refused call of channels is told.
fn store_refused(why: Refusal) -> Told
    ensures { result ≡ store_refused why }
{
    match why {
        Refusal::NoChannel => Told::of(REFUSED, 1),
        Refusal::DecisionDue => Told::of(REFUSED, 2),
        Refusal::Full => Told::of(REFUSED, 3),
        Refusal::NoTicket => Told::of(REFUSED, 4),
        Refusal::Memory => Told::of(MEMORY, 0),
    }
}

/// What a refused call of frames is told.
fn queue_refused(why: Queued) -> Told
    ensures { result ≡ queue_refused why }
{
    match why {
        Queued::Full => Told::of(REFUSED, 3),
        Queued::Stopped => Told::of(REFUSED, 5),
        Queued::Nothing => Told::of(REFUSED, 6),
        Queued::Busy => Told::of(REFUSED, 7),
        Queued::NoNumber => Told::of(REFUSED, 8),
        Queued::Short => Told::of(REFUSED, 9),
        Queued::Unknown => Told::of(REFUSED, 10),
        Queued::NoCut => Told::of(REFUSED, 11),
        Queued::Memory => Told::of(MEMORY, 0),
    }
}

fn of_channel(did: Result<u16, Refusal>) -> Told
    ensures { result ≡ told_by (just DONE) store_refused did }
{
    match did {
        Ok(channel) => Told::of(DONE, u64::from(channel)),
        Err(why) => store_refused(why),
    }
}

/// The number of what became of a request.
fn end_number(end: End) -> u64
    ensures { result ≡ end_number end }
{
    match end {
        End::Part => 0,
        End::Done => 1,
        End::NotDone(NotDone::LongKey) => 2,
        End::NotDone(NotDone::Stopped) => 3,
        End::NotDone(NotDone::Full) => 4,
        End::NotDone(NotDone::TooMany) => 5,
        End::NotDone(NotDone::Memory) => 6,
        End::Asked => 7,
    }
}

fn of_fed(did: Result<Fed, Refusal>) -> Told
    ensures { result ≡ fed_told did }
{
    match did {
        Ok(fed) => Told::of(DONE, end_number(fed.end)).with_text(fed.count),
        Err(why) => store_refused(why),
    }
}

fn of_told(did: Result<(), Refusal>) -> Told
    ensures { result ≡ told_by (λ _. just DONE 0) store_refused did }
{
    match did {
        Ok(()) => Told::of(DONE, 0),
        Err(why) => store_refused(why),
    }
}

fn of_flag(flag: bool) -> Told
    ensures { result ≡ just DONE (if flag then 1 else 0) }
{
    Told::of(DONE, u64::from(flag))
}

fn of_output(did: Result<usize, Refusal>) -> Told
    ensures { result ≡ output_told did }
{
    match did {
        Ok(count) => Told::of(DONE, 0).with_text(count),
        Err(why) => store_refused(why),
    }
}

fn of_ready(channel: Option<u16>) -> Told
    ensures { result ≡ option_map_or (just DONE) channel (just ABSENT 0) }
{
    match channel {
        Some(channel) => Told::of(DONE, u64::from(channel)),
        None => Told::of(ABSENT, 0),
    }
}

fn of_done(did: Result<(), Queued>) -> Told
    ensures { result ≡ done_told did }
{
    match did {
        Ok(()) => Told::of(DONE, 0),
        Err(why) => queue_refused(why),
    }
}

/// Tells where a frame is to be written; after a refusal nothing of that is told.
fn of_sealed(did: Result<Sealed, Queued>, place: &mut FramePlace) -> Told
    ensures { IsDone did result place.old place.new }
{
    match did {
        Ok(sealed) => {
            *place = place_of(sealed);
            Told::of(DONE, 0)
        }
        Err(why) => queue_refused(why),
    }
}

/// Where a frame is to be written.
pub(crate) fn place_of(sealed: Sealed) -> FramePlace
    ensures { result ≡ place_of sealed }
{
    FramePlace {
        frame: sealed.frame,
        segment: sealed.segment,
        offset: sealed.offset,
        len: sealed.len,
    }
}

fn of_outcome(did: Option<Outcome>) -> Told
    ensures { result ≡ outcome_told did }
{
    match did {
        Some(Outcome::Logged(batch)) => Told::of(COMMITTED, batch),
        Some(Outcome::Refused { batch, keys }) => Told::of(FAILED, batch).with_text(keys),
        None => Told::of(ABSENT, 0),
    }
}

// ---- channels

pub fn connect(store: &mut Store) -> Told
    ensures { Connects result store.old store.new }
{
    of_channel(store.connect())
}

pub fn hang_up(store: &mut Store, channel: u16) -> Told
    ensures { HangsUp channel result store.old store.new }
{
    store.hang_up(channel);
    Told::of(DONE, 0)
}

pub fn feed(store: &mut Store, channel: u16, bytes: &[u8]) -> Told
    ensures { Feeds channel bytes.now result store.old store.new }
{
    of_fed(store.feed(channel, bytes))
}

pub fn feed_ahead(store: &mut Store, channel: u16, bytes: &[u8]) -> Told
    ensures { FeedsAhead channel bytes.now result store.old store.new }
{
    of_fed(store.feed_ahead(channel, bytes))
}

/// Shows the answer of what was carried out last, where it is looked at ahead.
pub fn tell_ahead(store: &Store, room: &mut [u8]) -> Told
    ensures { ShowsAhead room.old room.new result store.now }
{
    match store.ahead() {
        Some(text) => {
            put(text, room);
            Told::of(SHOWN, 0).with_text(text.len())
        }
        None => Told::of(ABSENT, 0),
    }
}

/// Shows a word of the request that the host is asked.
pub fn tell_asked(store: &Store, channel: u16, place: usize, room: &mut [u8]) -> Told
    ensures { ShowsAsked channel place room.old room.new result store.now }
{
    match store.asked(channel, place) {
        Some(word) => {
            put(word, room);
            Told::of(SHOWN, 0).with_text(word.len())
        }
        None => Told::of(ABSENT, 0),
    }
}

pub fn tell(store: &mut Store, channel: u16, reply: &[u8]) -> Told
    ensures { TellsReply channel reply.now result store.old store.new }
{
    of_told(store.tell(channel, reply))
}

pub fn tell_unknown(store: &mut Store, channel: u16) -> Told
    ensures { TellsReply channel (error_text (words_of Unknown)) result store.old store.new }
{
    of_told(store.tell_unknown(channel))
}

pub fn tell_closed(store: &mut Store, channel: u16) -> Told
    ensures told { TellsClosed channel result store.old }
    ensures same { store.new ≡ store.old }
{
    of_flag(store.is_closed(channel))
}

/// Tells how many bytes the commands take that wait for EXEC on a channel.
pub fn tell_queued(store: &Store, channel: u16) -> Told
    ensures { TellsQueued channel result store.now }
{
    Told::of(DONE, 0).with_text(store.queued(channel))
}

/// Tells whether a request may write whose first word this is.
pub fn tell_may_write(word: &[u8]) -> Told
    ensures { result ≡ may_write_told (name_of word.now) }
{
    match Name::of(word) {
        Some(name) => of_flag(name.may_write()),
        None => Told::of(ABSENT, 0),
    }
}

/// Drops what decisions of many keys left of old values, of at most so many keys, and tells of how many there are still some.
pub fn let_go(store: &mut Store, most: usize) -> Told
    ensures told { TellsLeft result store.old }
    ensures same { store.new ≡ store.old }
{
    Told::of(DONE, 0).with_text(store.free(most))
}

pub fn output(store: &mut Store, channel: u16, room: &mut [u8]) -> Told
    ensures { OutputsTo channel room.old room.new result store.old store.new }
{
    of_output(store.output(channel, room))
}

pub fn next_ready(store: &mut Store) -> Told
    ensures { NextReady result store.old store.new }
{
    of_ready(store.next_ready())
}

// ---- the log

pub fn take_frame(store: &mut Store, room: &mut [u8], place: &mut FramePlace) -> Told
    ensures { TakesFrame room.old room.new place.old place.new result store.old store.new }
{
    of_sealed(store.take_frame(room), place)
}

pub fn turn(store: &mut Store) -> Told
    ensures { Turns result store.old store.new }
{
    of_done(store.turn())
}

pub fn synced(store: &mut Store, frame: u64) -> Told
    ensures { Syncs frame result store.old store.new }
{
    of_done(store.synced(frame))
}

pub fn failed(store: &mut Store, frame: u64) -> Told
    ensures { Fails frame result store.old store.new }
{
    of_done(store.failed(frame))
}

/// Tells the cut that is due.
pub fn tell_cut(store: &Store, cut: &mut CutOff) -> Told
    ensures { TellsCut cut.old cut.new result store.now }
{
    let Some(due) = store.cut_due() else {
        return Told::of(ABSENT, 0);
    };
    *cut = CutOff {
        frame: due.frame,
        first: due.first,
        last: due.last,
    };
    Told::of(DONE, 0)
}

pub fn cut_frame(store: &Store, room: &mut [u8], place: &mut FramePlace) -> Told
    ensures { SendsHead room.old room.new place.old place.new result store.now }
{
    of_sealed(store.cut_frame(room), place)
}

pub fn cut(store: &mut Store, made: u32) -> Told
    ensures { CutsOff made result store.old store.new }
{
    of_done(store.cut(made != 0))
}

/// Winds a store up whose leadership is over.
pub fn lost(store: &mut Store, room: &mut [u8]) -> Told
    ensures { WindsUp room.old result store.old store.new }
{
    of_done(wind_up(store, room))
}

pub fn decide(store: &mut Store) -> Told
    ensures { Decides result store.old store.new }
{
    of_outcome(store.decide())
}

// ---- what is there

/// Shows what a key has.
pub fn tell_value(store: &Store, key: &[u8], room: &mut [u8]) -> Told
    ensures { ShowsBytes result (value_at key.now store.now) room.old room.new }
{
    match store.value(key) {
        Some(value) => {
            put(value.as_slice(), room);
            Told::of(SHOWN, 0).with_text(value.len())
        }
        None => Told::of(ABSENT, 0),
    }
}

/// The batch at a place among those that a key depends on.
pub fn tell_rests_on(store: &Store, key: &[u8], place: usize) -> Told
    ensures { TellsTag (rests_on_at key.now place) result store.now }
{
    match store.rests_on(key, place) {
        Some(batch) => Told::of(SHOWN, batch),
        None => Told::of(ABSENT, 0),
    }
}

pub fn count(store: &Store, counts: &mut StoreCounts) -> Told
    ensures told { result ≡ just SHOWN 0 }
    ensures counts { AreStoreCounts store.now counts.new }
{
    counts.undecided = store.undecided();
    counts.in_flight = store.in_flight();
    counts.open_batches = store.open_batches();
    counts.next_frame = store.next_frame_len();
    counts.answers = store.answers();
    Told::of(SHOWN, 0)
}
