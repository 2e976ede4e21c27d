//! A segment of a log, which is read in pieces of any size.
ghost use Rattle.std.specs.Prelude.{◌≡◌, ◌&&◌, ◌++◌, ◌∷◌, ℕ, List, [], length, if◌then◌else◌, IfOk, OnOk};
ghost use Rattle.sk_recovered.specs.Base.{Ends, Entries, Head};
ghost use Rattle.sk_recovered.specs.Segments.{is_below};
ghost use Rattle.sk_recovered.specs.Frames.{capped};
ghost use Rattle.sk_recovered.specs.Recovered.{drops, length_of, HasRecovered, IsWithin, StepPost};
ghost use Rattle.sk_recovered.specs.Snapshots.{snapshot_heads};

use crate::frames::Place;
use crate::heads::{Head, Heads};
use crate::recovered::Recovered;
use sk_log::{End, PieceRefusal, Recovery, Rest};
use sk_plain_store::PlainStore;
use std::alloc::{AllocError, Global};

/// The number of the segment that a snapshot is. No segment of a log has it.
pub const SNAPSHOT: u64 = 0;

/// The number of the first frame of a snapshot.
pub const FIRST_PIECE: u64 = 1;

/// A segment that is being read, and all before it.
#[derive(Drop)]
pub struct Segment {
    pub(crate) recovered: Recovered,
    pub(crate) log: Recovery,
    pub(crate) head: Head,
    /// The least number from which a later segment goes on.
    pub(crate) bound: Option<u64>,
    /// Whether its first frame is the next.
    pub(crate) counts: bool,
}

/// Whether a frame of this number is one that no later segment goes on from, nor from one before it.
fn is_below(bound: Option<u64>, number: u64) -> bool
    ensures { result ≡ is_below bound number }
{
    match bound {
        None => true,
        Some(bound) => number < bound,
    }
}

/// How many bytes these are.
fn len_of(rest: Rest) -> u64
    ensures { result ≡ length_of rest }
{
    match rest {
        Rest::Zeros => 0,
        Rest::Torn(len) | Rest::Damaged(len) => len,
    }
}

/// The first number where `so` holds, else the second.
fn choose(so: bool, first: u64, second: u64) -> u64
    ensures { result ≡ (if so then first else second) }
{
    if so { first } else { second }
}

impl Segment {
    /// Begins to read a snapshot: frames of a segment of its own, carried out in an empty store.
    pub fn of_snapshot(alloc: Global) -> Result<Segment, AllocError>
        ensures { IfOk result (λ now. IsWithin [] 1 snapshot_heads [] 0 [] now) }
    {
        let heads = Heads::one(alloc, SNAPSHOT, FIRST_PIECE)?;
        match Recovered::new(alloc, PlainStore::new(alloc), FIRST_PIECE, heads).open() {
            Ok(now) => Ok(now),
            Err(_) => Err(AllocError),
        }
    }

    /// Takes the next piece of the segment, and carries out the frames that came whole and count. After a refusal recovery begins
    /// anew: it has changed nothing on the disk.
    pub fn feed(mut self, piece: &[u8]) -> Result<Segment, PieceRefusal>
        ensures { IfOk result (λ now. (start : Entries) (first : ℕ) (heads : List Head)
            (bytes : List (List ℕ)) (left : ℕ) (came : List ℕ)
            → IsWithin start first heads bytes left came self
            → IsWithin start first heads bytes left (came ++ piece.now) now) }
    {
        self.log.feed(piece)?;
        self.run()?;
        Ok(self)
    }

    /// All bytes of the segment came.
    pub fn close(mut self) -> Result<Recovered, AllocError>
        ensures { IfOk result (λ now. (start : Entries) (first : ℕ) (heads : List Head)
            (bytes : List (List ℕ)) (left : ℕ) (came : List ℕ)
            → IsWithin start first heads bytes left came self
            → HasRecovered start first heads (bytes ++ came ∷ []) left now) }
    {
        self.run()?;
        let end = self.log.end(u64::MAX);
        let dropped = self.dropped(end);
        let ends = self.ends(end);
        let mut recovered = self.recovered;
        recovered.dropped = recovered.dropped.saturating_add(dropped);
        recovered.segment = choose(ends, self.head.segment, recovered.segment);
        recovered.offset = choose(ends, end.place, recovered.offset);
        Ok(recovered)
    }

    /// Whether the frames of the log end where those of this segment do, as far as is known.
    fn ends(&self, end: End) -> bool
        ensures { result ≡ (self.now.counts && is_below self.now.bound end.number) }
    {
        self.counts && is_below(self.bound, end.number)
    }

    /// How many bytes count for nothing, but for those that were cut off.
    fn dropped(&self, end: End) -> u64
        ensures { result ≡ capped (drops self.now end) }
    {
        if self.counts {
            if is_below(self.bound, end.number) {
                return len_of(end.rest);
            }
            return 0;
        }
        if is_below(self.bound, self.head.first) {
            return end.place.saturating_add(len_of(end.rest));
        }
        0
    }

    /// Carries out the frames that came whole and count.
    fn run(&mut self) -> Result<(), AllocError>
        ensures ok { OnOk result ((start : Entries) (first : ℕ) (heads : List Head)
            (bytes : List (List ℕ)) (left : ℕ) (came : List ℕ)
            → IsWithin start first heads bytes left came self.old
            → IsWithin start first heads bytes left came self.new) }
        ensures all { OnOk result (Ends self.new.log.segment self.new.log.number self.new.log.unread) }
    {
        while self.step()? {}
        Ok(())
    }

    /// Whether the next frame counts.
    fn takes(&self) -> bool
        ensures { result ≡ (self.now.counts && is_below self.now.bound self.now.log.number) }
    {
        self.counts && is_below(self.bound, self.log.number())
    }

    /// Goes past the next frame, if all of it came, and carries it out, if it counts.
    fn step(&mut self) -> Result<bool, AllocError>
        ensures { StepPost self.old result self.new }
    {
        let counts = self.takes();
        let place = Place {
            segment: self.head.segment,
            offset: self.log.place(),
            number: self.log.number(),
        };
        let Some(payload) = self.log.payload() else {
            return Ok(false);
        };
        self.recovered.frames.take_if(counts, place, payload)?;
        self.log.pass();
        self.recovered.next = choose(counts, self.log.number(), self.recovered.next);
        Ok(true)
    }
}
