//! A plain store again, behind the segments of a log that were read.
ghost use Rattle.std.specs.Prelude.{◌≡◌, ◌+◌, ℕ, List, []};
ghost use Rattle.sk_recovered.specs.Base.{slice_get, option_map, Entries, Head};
ghost use Rattle.sk_recovered.specs.Recovered.{is_damaged, is_missing, place_of, HasRecovered, IsFound, OpenPost};

use crate::frames::{Damage, Frames, Place};
use crate::heads::{Heads, least};
use crate::segment::Segment;
use sk_log::Recovery;
use sk_plain_store::PlainStore;
use std::alloc::Global;

/// What was found in a log.
#[derive(Drop)]
pub struct Found {
    pub store: PlainStore,
    /// The number of the frame that would follow, or of one that says no works.
    pub number: u64,
    /// How many frames were carried out.
    pub frames: u64,
    /// How many commands and queues were carried out.
    pub works: u64,
    /// Where it would stand, in this segment, so many bytes from its front; or where a frame stands that says no works.
    pub segment: u64,
    pub offset: u64,
    /// How many bytes count for nothing, up to the last that is not 0, but for those that were cut off.
    pub dropped: u64,
    /// A frame that says no works. Nothing from it on is carried out.
    pub damage: Option<Damage>,
    /// Whether there is such a frame, or more was dropped than may have been in flight, or a frame is missing that is known as
    /// synced: no crash left this.
    pub is_damaged: bool,
}

/// A plain store behind the segments of a log that were read whole.
#[derive(Drop)]
pub struct Recovered {
    alloc: Global,
    heads: Heads,
    /// How many segments were opened.
    opened: usize,
    /// The number of the first frame, and of the next.
    first: u64,
    pub(crate) next: u64,
    pub(crate) frames: Frames,
    pub(crate) dropped: u64,
    pub(crate) segment: u64,
    pub(crate) offset: u64,
}

/// Where the frame stands that says no works, or else where the frames end.
fn place_of(damage: Option<Damage>, end: Place) -> Place
    ensures { result ≡ place_of damage end }
{
    match damage {
        Some(damage) => damage.place,
        None => end,
    }
}

/// Whether the next frame is one of those that are known as synced, so that it is missing.
fn is_missing(known: u64, next: u64) -> bool
    ensures { result ≡ is_missing known next }
{
    0 < known && next <= known
}

impl Recovered {
    /// Begins to read the segments with these heads, the first frame of which has this number. The store has what is before them.
    pub fn new(alloc: Global, store: PlainStore, first: u64, heads: Heads) -> Recovered
        ensures { HasRecovered store first heads [] 0 result }
    {
        Recovered {
            alloc,
            heads,
            opened: 0,
            first,
            next: first,
            frames: Frames::new(alloc, store),
            dropped: 0,
            segment: 0,
            offset: 0,
        }
    }

    /// The number of the segment that is to be read next; `None` where all were read. The last may be left out.
    pub fn next_segment(&self) -> Option<u64>
        ensures { result ≡ option_map (λ h. h.segment) (slice_get self.now.heads self.now.opened) }
    {
        match self.heads.as_slice().get(self.opened) {
            Some(head) => Some(head.segment),
            None => None,
        }
    }

    /// So many bytes stand in a segment that has no whole head, up to the last that is not 0: they count for nothing.
    pub fn leave(&mut self, used: u64)
        ensures left { (start : Entries) (first : ℕ) (heads : List Head) (bytes : List (List ℕ)) (left : ℕ)
            → HasRecovered start first heads bytes left self.old
            → HasRecovered start first heads bytes (left + used) self.new }
        ensures next { (self.new.heads ≡ self.old.heads) × (self.new.opened ≡ self.old.opened) }
    {
        self.dropped = self.dropped.saturating_add(used);
    }

    /// Begins to read the next segment, if there is one.
    pub fn open(mut self) -> Result<Segment, Recovered>
        ensures { OpenPost self result }
    {
        let Some(head) = self.heads.as_slice().get(self.opened) else {
            return Err(self);
        };
        let head = *head;
        self.opened += 1;
        let bound = least(&self.heads.as_slice()[self.opened..]);
        let log = Recovery::new(self.alloc, head.segment, head.first);
        let counts = head.first == self.next;
        Ok(Segment {
            recovered: self,
            log,
            head,
            bound,
            counts,
        })
    }

    /// What was found, where so many bytes may have been in flight, and all frames up to one of this number are known as synced;
    /// 0 where none is.
    pub fn end(self, in_flight: u64, known: u64) -> Found
        ensures found { (start : Entries) (first : ℕ) (heads : List Head) (bytes : List (List ℕ)) (left : ℕ)
            → HasRecovered start first heads bytes left self
            → IsFound start first heads bytes left result }
        ensures damaged { result.is_damaged ≡ is_damaged in_flight known result }
    {
        let Frames {
            alloc: _,
            store,
            works,
            damage,
        } = self.frames;
        let end = Place {
            segment: self.segment,
            offset: self.offset,
            number: self.next,
        };
        let Place {
            segment,
            offset,
            number,
        } = place_of(damage, end);
        Found {
            store,
            number,
            frames: number.saturating_sub(self.first),
            works,
            segment,
            offset,
            dropped: self.dropped,
            damage,
            is_damaged: damage.is_some() || self.dropped > in_flight || is_missing(known, number),
        }
    }
}
