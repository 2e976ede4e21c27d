//! A log that is read again, whose bytes come in pieces.
ghost use Rattle.std.specs.Prelude.{◌≡◌, ◌+◌, ◌<◌, ◌≤◌, ◌^◌, ◌++◌, ℕ, drop, length, take, List, Ok, IfOk, OnErr};
ghost use Rattle.sk_handles.specs.Base.{frame, Entries, Head, UsesFront};
ghost use Rattle.sk_handles.specs.Reading.{anew, anew_told, left_by, next_number, no_piece, order_refused, zeros_by, zeros_of, AddsTo, BeginsAt, EndsAt, EndsWith, GivesPiece, GoesOn, GoesTo, HasCome, HoldsFrom, IsGiven, Keeps, Lets, MostIs, NextIs, Sets, StartsOn, TakesAt, TakesHead, TakesPiece, TakesStartAt};

use crate::codes::{ABSENT, DONE, MEMORY, REFUSED, SHOWN};
use crate::told::Told;
use sk_commands::ByteString;
use sk_log::frame::{NUMBER_LIMIT, PAYLOAD_LIMIT};
use sk_log::{HEAD, seal};
use sk_plain_store::PlainStore;
use sk_recovered::{FIRST_PIECE, Found, Heads, Recovered, SNAPSHOT, Segment};
use sk_replay::Snapshot;
use std::alloc::{AllocError, Global};
use std::mem::replace;

/// The refusal where no crash left what was read.
const DAMAGED: u64 = 15;

/// How many bytes the frame of an entry has at most, beside those of its key and its value.
const ENTRY: usize = 88;

/// How far a log is read.
#[derive(Drop)]
pub enum Stage {
    /// Nothing came.
    Nothing,
    /// A snapshot comes.
    Start(Segment),
    /// The heads of the segments come, behind what a snapshot set.
    Heads(PlainStore, Heads),
    /// All segments so far came whole.
    Between(Recovered),
    /// A segment comes.
    Within(Segment),
    /// All came. This was found of entries, without those that were given as pieces of a snapshot.
    Found(Snapshot),
}

/// A log that is read again.
#[derive(Drop)]
pub struct Reading {
    pub(crate) stage: Stage,
    /// The number of the first frame of the segments.
    pub(crate) first: u64,
    /// The last segment whose head came.
    pub(crate) last: u64,
    /// The last segment of which bytes came that may count.
    pub(crate) segment: u64,
    /// The last segment without a head of which bytes came, and how many zeros end them.
    pub(crate) left: u64,
    pub(crate) zeros: u64,
    /// The number of the frame that would follow, once all came.
    pub(crate) next: u64,
    /// The number of the next piece of a snapshot.
    pub(crate) pieces: u64,
}

/// What was read.
#[repr(C)]
#[derive(Clone, Copy)]
pub struct ReadCounts {
    /// The frames that count, and the commands that they say.
    pub frames: u64,
    pub commands: u64,
    /// The keys that are there.
    pub keys: u64,
    /// The number of the frame that would follow.
    pub next: u64,
    /// Where the frames that count end.
    pub segment: u64,
    pub place: u64,
    /// The bytes behind that count for nothing.
    pub dropped: u64,
    /// 1 where a whole frame stands at that place that says no works, else 0.
    pub damaged: u64,
}

/// Why all begins anew.
#[derive(Clone, Copy)]
pub(crate) enum Anew {
    /// There was no memory.
    Memory,
    /// What came is no snapshot.
    NoSnapshot,
}

impl From<AllocError> for Anew {
    ghost use Rattle.std.specs.Prelude.{◌≡◌};
    ghost use Rattle.sk_handles.specs.declared.reading.Anew.TheVariants.{Memory};

    ghost from_gives = { λ _ why. why ≡ Memory };

    fn from(_error: AllocError) -> Anew {
        Anew::Memory
    }
}

/// What a call is told where all begins anew.
fn anew_told(why: Anew) -> Told
    ensures { result ≡ anew_told why }
{
    match why {
        Anew::Memory => Told::of(MEMORY, 0),
        Anew::NoSnapshot => Told::of(REFUSED, DAMAGED),
    }
}

/// A call that is not of this part of a recovery.
fn order_refused() -> Told
    ensures { result ≡ order_refused }
{
    Told::of(REFUSED, 14)
}

/// Where a segment comes next.
enum Way {
    /// The piece is of the segment that comes.
    On(Segment),
    /// The segment has no head, and counts for nothing.
    Past(Recovered),
    /// Another segment comes first, or this one came already.
    Not(Stage),
}

/// Where a segment comes next behind segments that came whole.
fn next_way(read: Recovered, segment: u64) -> Way
    ensures { GoesOn segment read result }
{
    let Some(next) = read.next_segment() else {
        return Way::Past(read);
    };
    if next < segment {
        return Way::Not(Stage::Between(read));
    }
    if next > segment {
        return Way::Past(read);
    }
    match read.open() {
        Ok(now) => Way::On(now),
        Err(read) => Way::Not(Stage::Between(read)),
    }
}

/// What a snapshot sets, of which all came.
fn set_by(now: Segment) -> Result<PlainStore, Anew>
    ensures { Sets now result }
{
    let read = now.close()?;
    let found = read.end(0, 0);
    let is_damaged = found.is_damaged;
    if is_damaged {
        return Err(Anew::NoSnapshot);
    }
    Ok(found.store)
}

/// How many bytes there are up to the last that is not 0.
fn used_len(bytes: &[u8]) -> usize
    ensures within { result ≤ length bytes.now }
    ensures used { UsesFront result bytes.now }
{
    let mut len = bytes.len();
    while len > 0 && bytes[len - 1] == 0 {
        len -= 1;
    }
    len
}

/// How many bytes more are dropped with a piece, where so many zeros stand before it, and how many zeros end it then.
fn dropped_with(zeros: u64, piece: &[u8]) -> (u64, u64)
    ensures { (result.0 ≡ left_by zeros piece.now) × (result.1 ≡ zeros_by zeros piece.now) }
{
    let (used, len) = (used_len(piece), piece.len());
    if used == 0 {
        return (0, zeros.saturating_add(len as u64));
    }
    (zeros.saturating_add(used as u64), (len - used) as u64)
}

/// Why no piece of a snapshot is made.
#[derive(Clone, Copy)]
pub(crate) enum NoPiece {
    /// No entry is left.
    Done,
    /// The next entry has no room.
    Short,
}

/// What a call is told that makes no piece.
fn no_piece(why: NoPiece) -> Told
    ensures { result ≡ no_piece why }
{
    match why {
        NoPiece::Done => Told::of(ABSENT, 0),
        NoPiece::Short => Told::of(REFUSED, 9),
    }
}

/// How many bytes of entries a piece may have in a room of so many; none where this entry has no room in it.
fn most_of(entry: &(ByteString, ByteString), room: usize) -> Option<usize>
    ensures { MostIs entry.now room result }
{
    let room = room.min(PAYLOAD_LIMIT - 1);
    if room < ENTRY {
        return None;
    }
    if room - ENTRY < entry.0.len() {
        return None;
    }
    if room - ENTRY - entry.0.len() < entry.1.len() {
        return None;
    }
    Some(room - HEAD)
}

/// How many bytes of entries the next piece may have in a room of so many, or why there is none.
fn next_piece(entries: &Snapshot, room: usize) -> Result<usize, NoPiece>
    ensures { NextIs entries.now room result }
{
    let Some((next, _rest)) = entries.left().split_first() else {
        return Err(NoPiece::Done);
    };
    match most_of(next, room) {
        Some(most) => Ok(most),
        None => Err(NoPiece::Short),
    }
}

/// Writes bytes from a place on.
fn write_at(room: &mut [u8], place: usize, bytes: &[u8])
    requires { place + length bytes.now ≤ length room.old }
    ensures { room.new
        ≡ take place room.old ++ (bytes.now ++ drop (place + length bytes.now) room.old) }
{
    room[place..place + bytes.len()].copy_from_slice(bytes);
}

/// Makes the frame of a piece of a snapshot at the front of a room.
fn put_frame(room: &mut [u8], number: u64, payload: &[u8])
    requires { (24 + length payload.now ≤ length room.old) × (24 + length payload.now < 2 ^ 28) }
    ensures { room.new
        ≡ frame 0 number payload.now ++ drop (24 + length payload.now) room.old }
{
    write_at(room, HEAD, payload);
    seal(&mut room[..HEAD + payload.len()], SNAPSHOT, number);
}

/// Gives the next entries as a frame at the front of a room. Answers how long that is.
fn give(
    entries: &mut Snapshot,
    alloc: Global,
    number: u64,
    most: usize,
    room: &mut [u8],
) -> Result<usize, AllocError>
    requires { NextIs entries.old (length room.old) (Ok most) }
    ensures ok { IfOk result
        (λ len. IsGiven number most len entries.old entries.new room.old room.new) }
    ensures err { OnErr result ((entries.new ≡ entries.old) × (room.new ≡ room.old)) }
{
    let payload = entries.piece(alloc, most)?;
    put_frame(room, number, payload.as_slice());
    Ok(HEAD + payload.len())
}

impl Reading {
    /// Nothing came; of the segments the first frame has this number.
    pub fn new(first: u64) -> Reading
        ensures { result ≡ anew first }
    {
        Reading {
            stage: Stage::Nothing,
            first,
            last: 0,
            segment: 0,
            left: 0,
            zeros: 0,
            next: 0,
            pieces: FIRST_PIECE,
        }
    }

    /// Where a snapshot came it is done: the heads of the segments come, behind what it sets. Of what is no snapshot, and
    /// without memory, all begins anew.
    fn begin(&mut self, alloc: Global) -> Result<(), Anew>
        ensures { BeginsAt self.old.stage result self.old self.new }
    {
        match replace(&mut self.stage, Stage::Nothing) {
            Stage::Nothing => {
                self.stage = Stage::Heads(PlainStore::new(alloc), Heads::new(alloc));
                Ok(())
            }
            Stage::Start(now) => match set_by(now) {
                Ok(store) => {
                    self.stage = Stage::Heads(store, Heads::new(alloc));
                    Ok(())
                }
                Err(why) => {
                    *self = Reading::new(self.first);
                    Err(why)
                }
            },
            other => {
                self.stage = other;
                Ok(())
            }
        }
    }

    /// A piece of a snapshot comes, behind what came of it. Without memory all begins anew.
    fn feed_to(&mut self, now: Segment, piece: &[u8]) -> Told
        ensures { StartsOn (HasCome now) piece.now result self.old self.new }
    {
        match now.feed(piece) {
            Ok(now) => {
                self.stage = Stage::Start(now);
                Told::of(DONE, 0)
            }
            Err(_) => {
                *self = Reading::new(self.first);
                Told::of(MEMORY, 0)
            }
        }
    }

    /// A piece of a snapshot comes, and nothing else came. Without memory all begins anew.
    fn feed_snapshot(&mut self, alloc: Global, piece: &[u8]) -> Told
        ensures { TakesStartAt self.old.stage piece.now result self.old self.new }
    {
        match replace(&mut self.stage, Stage::Nothing) {
            Stage::Nothing => match Segment::of_snapshot(alloc) {
                Ok(now) => self.feed_to(now, piece),
                Err(AllocError) => {
                    *self = Reading::new(self.first);
                    Told::of(MEMORY, 0)
                }
            },
            Stage::Start(now) => self.feed_to(now, piece),
            other => {
                self.stage = other;
                order_refused()
            }
        }
    }

    /// The head of the next segment comes.
    pub fn head(&mut self, alloc: Global, segment: u64, bytes: &[u8]) -> Told
        ensures { TakesHead segment bytes.now result self.old self.new }
    {
        if segment <= self.last {
            return order_refused();
        }
        if let Err(why) = self.begin(alloc) {
            return anew_told(why);
        }
        self.add_head(segment, bytes)
    }

    /// The head of the next segment comes, and no piece of a snapshot any more.
    fn add_head(&mut self, segment: u64, bytes: &[u8]) -> Told
        ensures { AddsTo self.old.stage segment bytes.now result self.old self.new }
    {
        let Stage::Heads(_, heads) = &mut self.stage else {
            return order_refused();
        };
        match heads.add(segment, bytes) {
            Ok(is_whole) => {
                self.last = segment;
                Told::of(if is_whole { DONE } else { ABSENT }, 0)
            }
            Err(AllocError) => Told::of(MEMORY, 0),
        }
    }

    /// The heads are done, and so is the segment that comes, where one of a greater number is next.
    fn closed(&self, alloc: Global, stage: Stage, segment: u64) -> Result<Stage, AllocError>
        ensures { IfOk result (λ now. (start : Entries) (heads : List Head) (bytes : List (List ℕ))
            (left : ℕ) → HoldsFrom self.now.first stage start heads bytes left
            → HoldsFrom self.now.first now start heads bytes left) }
    {
        match stage {
            Stage::Heads(store, heads) => Ok(Stage::Between(Recovered::new(
                alloc, store, self.first, heads,
            ))),
            Stage::Within(now) if self.segment < segment => Ok(Stage::Between(now.close()?)),
            other => Ok(other),
        }
    }

    /// Where a segment comes.
    fn way_to(&self, stage: Stage, segment: u64) -> Way
        ensures { GoesTo self.now.segment segment stage result }
    {
        match stage {
            Stage::Within(now) if self.segment == segment => Way::On(now),
            Stage::Between(read) if self.segment < segment => next_way(read, segment),
            other => Way::Not(other),
        }
    }

    /// A piece of a segment comes, or one of a snapshot, whose number is 0. Without memory all begins anew.
    pub fn feed(&mut self, alloc: Global, segment: u64, piece: &[u8]) -> Told
        ensures { TakesPiece segment piece.now result self.old self.new }
    {
        if segment == SNAPSHOT {
            return self.feed_snapshot(alloc, piece);
        }
        if let Err(why) = self.begin(alloc) {
            return anew_told(why);
        }
        self.feed_segment(alloc, segment, piece)
    }

    /// A piece of a segment comes, and none of a snapshot any more. Without memory all begins anew.
    fn feed_segment(&mut self, alloc: Global, segment: u64, piece: &[u8]) -> Told
        ensures { TakesAt segment piece.now result self.old self.new }
    {
        let stage = replace(&mut self.stage, Stage::Nothing);
        let Ok(stage) = self.closed(alloc, stage, segment) else {
            *self = Reading::new(self.first);
            return Told::of(MEMORY, 0);
        };
        match self.way_to(stage, segment) {
            Way::On(now) => match now.feed(piece) {
                Ok(now) => {
                    self.stage = Stage::Within(now);
                    self.segment = segment;
                    Told::of(DONE, 0)
                }
                Err(_) => {
                    *self = Reading::new(self.first);
                    Told::of(MEMORY, 0)
                }
            },
            Way::Past(read) => {
                let read = self.without(read, segment, piece);
                self.stage = Stage::Between(read);
                Told::of(DONE, 0)
            }
            Way::Not(stage) => {
                self.stage = stage;
                order_refused()
            }
        }
    }

    /// How many zeros end what came of a segment.
    fn zeros_of(&self, segment: u64) -> u64
        ensures { result ≡ zeros_of self.now segment }
    {
        if self.left == segment { self.zeros } else { 0 }
    }

    /// A piece of a segment that has no head counts for nothing. Behind the last head it is dropped, up to the last byte that is
    /// not 0; what stands before a head was closed by that.
    fn without(&mut self, mut read: Recovered, segment: u64, piece: &[u8]) -> Recovered
        ensures { Lets (next_number read.heads read.opened) segment piece.now read result
            self.old self.new }
    {
        if read.next_segment().is_some() {
            return read;
        }
        let (dropped, zeros) = dropped_with(self.zeros_of(segment), piece);
        read.leave(dropped);
        self.left = segment;
        self.zeros = zeros;
        read
    }

    /// All came: what was found, where no more was dropped than may have been in flight, and no frame is missing that is known as
    /// synced.
    pub fn end(
        &mut self,
        alloc: Global,
        in_flight: u64,
        known: u64,
        counts: &mut ReadCounts,
    ) -> Told
        ensures { EndsWith in_flight known counts.old counts.new result self.old self.new }
    {
        if let Err(why) = self.begin(alloc) {
            return anew_told(why);
        }
        self.end_segments(alloc, in_flight, known, counts)
    }

    /// All segments came, and no piece of a snapshot comes any more: answers as `end` does.
    fn end_segments(
        &mut self,
        alloc: Global,
        in_flight: u64,
        known: u64,
        counts: &mut ReadCounts,
    ) -> Told
        ensures { EndsAt in_flight known counts.old counts.new result self.old self.new }
    {
        let stage = replace(&mut self.stage, Stage::Nothing);
        let read = match self.closed(alloc, stage, u64::MAX) {
            Ok(Stage::Between(read)) => read,
            Ok(other) => {
                self.stage = other;
                return order_refused();
            }
            Err(AllocError) => {
                *self = Reading::new(self.first);
                return Told::of(MEMORY, 0);
            }
        };
        let last = self.last;
        *self = Reading::new(self.first);
        self.find(read.end(in_flight, known), last, counts)
    }

    /// Keeps what was found, unless it is damaged.
    fn find(&mut self, found: Found, last: u64, counts: &mut ReadCounts) -> Told
        ensures { Keeps found last counts.old counts.new result self.old self.new }
    {
        let is_damaged = found.is_damaged;
        let next = found.number;
        let told = ReadCounts {
            frames: found.frames,
            commands: found.works,
            keys: 0,
            next,
            segment: found.segment,
            place: found.offset,
            dropped: found.dropped,
            damaged: u64::from(found.damage.is_some()),
        };
        let Ok(entries) = Snapshot::new(found.store) else {
            return Told::of(MEMORY, 0);
        };
        *counts = ReadCounts {
            keys: entries.left().len() as u64,
            ..told
        };
        if is_damaged {
            return Told::of(REFUSED, DAMAGED);
        }
        self.stage = Stage::Found(entries);
        self.last = last;
        self.next = next;
        Told::of(DONE, 0)
    }

    /// The next piece of a snapshot of what was found, as a frame at the front of the room.
    pub fn piece(&mut self, alloc: Global, room: &mut [u8]) -> Told
        ensures { GivesPiece room.old room.new result self.old self.new }
    {
        let Stage::Found(entries) = &mut self.stage else {
            return order_refused();
        };
        let most = match next_piece(entries, room.len()) {
            Ok(most) => most,
            Err(why) => return no_piece(why),
        };
        if self.pieces >= NUMBER_LIMIT {
            return Told::of(REFUSED, 8);
        }
        let Ok(len) = give(entries, alloc, self.pieces, most, room) else {
            return Told::of(MEMORY, 0);
        };
        self.pieces += 1;
        Told::of(SHOWN, 0).with_text(len)
    }
}
