//! Where frames stand in the segments of a log.
ghost use Rattle.std.specs.Prelude.{◌≡◌, ◌≤◌, nat_le};
ghost use Rattle.sk_batches.specs.Places.{behind, end_of, has_room, next_segment, place_of, places_at, NextPost, TurnPost};

use crate::Refusal;
use sk_log::HEAD;
use sk_log::frame::{PAYLOAD_LIMIT, SEGMENT_LIMIT};
use std::marker::Model;

/// Where a frame stands: its segment, and the place of its first byte there.
#[derive(Clone, Copy, Debug, PartialEq, Eq)]
pub struct Place {
    pub segment: u64,
    pub offset: u64,
}

/// Where the next frame of a log stands, whose segments have so many bytes.
#[derive(Drop)]
pub struct Places {
    length: u64,
    segment: u64,
    offset: u64,
}

impl Model for Places {
    ghost use Rattle.sk_batches.specs.Places.{PlacesView};

    ghost Value = { PlacesView };

    ghost view = { λ p. record {
      length = p.length;
      segment = p.segment;
      offset = p.offset;
    } };
}

impl Places {
    /// The next frame stands at this place of this segment.
    pub fn new(length: u64, segment: u64, offset: u64) -> Places
        ensures { result ≡ places_at length segment offset }
    {
        Places {
            length,
            segment,
            offset,
        }
    }

    /// Whether a frame may have so many bytes of payload, and has room in its segment.
    pub fn has_room(&self, len: usize) -> bool
        ensures { result ≡ has_room self.now len }
    {
        len < PAYLOAD_LIMIT - HEAD && self.fits(len)
    }

    /// The place of the next frame, whose payload has so many bytes; `Full` where its segment has no room for it.
    pub fn next(&mut self, len: usize) -> Result<Place, Refusal>
        ensures { NextPost result len self.old self.new }
    {
        if !self.fits(len) {
            return Err(Refusal::Full);
        }
        Ok(self.advance(len))
    }

    /// Whether the segment has room for a frame with so many bytes of payload.
    fn fits(&self, len: usize) -> bool
        ensures { result ≡ nat_le (end_of self.now len) self.now.length }
    {
        let left = self.length.saturating_sub(self.offset);
        left >= HEAD as u64 && left - (HEAD as u64) >= len as u64
    }

    /// The place of the next frame, for which there is room.
    pub(crate) fn advance(&mut self, len: usize) -> Place
        requires { end_of self.old len ≤ self.old.length }
        ensures place { result ≡ place_of self.old }
        ensures left { self.new ≡ behind self.old len }
    {
        let place = Place {
            segment: self.segment,
            offset: self.offset,
        };
        self.offset += HEAD as u64 + len as u64;
        place
    }

    /// The number of the next segment, if there may be one.
    pub fn next_segment(&self) -> Option<u64>
        ensures { result ≡ next_segment self.now }
    {
        if self.segment >= SEGMENT_LIMIT - 1 {
            return None;
        }
        Some(self.segment + 1)
    }

    /// The log goes on in the next segment: behind the last frame of this one, or behind a cut, which is itself a frame
    /// without records at the head of the next.
    pub fn turn(&mut self, cut: bool) -> Result<(), Refusal>
        ensures { TurnPost cut result self.old self.new }
    {
        if self.segment >= SEGMENT_LIMIT - 1 {
            return Err(Refusal::NoNumber);
        }
        self.segment += 1;
        self.offset = if cut { HEAD as u64 } else { 0 };
        Ok(())
    }
}
