//! The reading of a segment, piece by piece.
ghost use Rattle.std.specs.Prelude.{◌≡◌, ◌+◌, ◌<◌, ◌≤◌, ◌^◌, ◌++◌, ◌∷◌, ◌↔◌, ℕ, List, [], length, OnOk, OnErr, IfSome};
ghost use Rattle.sk_log.specs.Frame.{Ends};
ghost use Rattle.sk_log.specs.Reading.{HasRead, IsNext, Settles, RestIs, EndsAt};
ghost use Rattle.sk_log.specs.Crash.{Crashed, ReadsPrefix, UsesFront};

use crate::bytes::HEAD;
use crate::front::{Front, front_of};
use crate::unread::Unread;
use std::alloc::{AllocError, Global};
use std::marker::Model;
use thiserror::Error;

/// A segment has at most so many bytes.
pub const LENGTH_LIMIT: u64 = 1 << 62;

/// Why a piece was not taken.
#[derive(Clone, Copy, Debug, PartialEq, Eq, Error)]
pub enum PieceRefusal {
    /// The segment is longer than a segment may be.
    #[error("a segment has at most 2^62 bytes")]
    TooLong,
    /// There was no memory.
    #[error("out of memory")]
    Memory,
}

impl From<AllocError> for PieceRefusal {
    ghost use Rattle.std.specs.Prelude.{◌≡◌};
    ghost use Rattle.sk_log.specs.declared.recovery.PieceRefusal.TheVariants.{Memory};

    ghost from_gives = { λ _ refusal. refusal ≡ Memory };

    fn from(_error: AllocError) -> PieceRefusal {
        PieceRefusal::Memory
    }
}

/// What stands behind the frames that were read.
#[derive(Clone, Copy, Debug, PartialEq, Eq)]
pub enum Rest {
    /// Nothing but zeros.
    Zeros,
    /// So many bytes, the last of which is not 0: a crash may leave them.
    Torn(u64),
    /// So many bytes, the last of which is not 0: more than may have been in flight, so no crash left them.
    Damaged(u64),
}

/// Where the frames of a segment end.
#[derive(Clone, Copy, Debug, PartialEq, Eq)]
pub struct End {
    /// The number of the frame that would follow.
    pub number: u64,
    /// Where it would begin, in bytes from the front of the segment.
    pub place: u64,
    /// What stands behind the frames.
    pub rest: Rest,
}

/// Reads the bytes of a segment, which come in pieces of any size.
#[derive(Drop)]
pub struct Recovery {
    segment: u64,
    number: u64,
    place: u64,
    fed: u64,
    used: u64,
    unread: Unread,
    front: Front,
}

impl Model for Recovery {
    ghost use Rattle.sk_log.specs.Reading.{Reading, IsReading};

    ghost Value = { Reading };

    ghost view = { λ r. record {
      segment = r.segment;
      number = r.number;
      place = r.place;
      fed = r.fed;
      used = r.used;
      unread = r.unread;
      front = r.front;
    } };

    ghost invariant = { λ r. IsReading r.segment r.number r.place r.fed r.unread r.front };
}

/// How many bytes there are up to the last that is not 0.
fn used_len(bytes: &[u8]) -> usize
    ensures within { result ≤ length bytes.now }
    ensures used { UsesFront result bytes.now }
{
    let mut len = bytes.len();
    while len > 0 && bytes[len - 1] == 0 {
        len -= 1;
    }
    len
}

/// Looks at what the unread bytes begin with. Where no frame can come any more, they are counted and let go.
fn settle(unread: &mut Unread, segment: u64, number: u64) -> (Front, u64)
    ensures { Settles segment number unread.old unread.new result.0 result.1 }
{
    let front = front_of(unread.as_slice(), segment, number);
    if let Front::Other = front {
        let used = used_len(unread.as_slice());
        unread.clear();
        return (front, used as u64);
    }
    (front, 0)
}

/// How many bytes there are up to the last that is not 0, once a piece stands behind some that were counted so.
fn used_with(used: u64, behind: u64, piece: &[u8]) -> u64
    requires { behind + length piece.now < 2 ^ 64 }
    ensures { (rest : List ℕ) → length rest ≡ behind → UsesFront used rest
        → UsesFront result (rest ++ piece.now) }
{
    let more = used_len(piece);
    if more == 0 {
        used
    } else {
        behind + more as u64
    }
}

/// What so many bytes are, where some may have been in flight.
fn rest_of(used: u64, in_flight: u64) -> Rest
    ensures { (rest : List ℕ) → UsesFront used rest → RestIs in_flight rest result }
{
    if used == 0 {
        Rest::Zeros
    } else if used <= in_flight {
        Rest::Torn(used)
    } else {
        Rest::Damaged(used)
    }
}

impl Recovery {
    /// Begins to read a segment, whose first frame has this number.
    pub fn new(alloc: Global, segment: u64, number: u64) -> Recovery
        ensures { HasRead segment number [] [] result }
    {
        Recovery {
            segment,
            number,
            place: 0,
            fed: 0,
            used: 0,
            unread: Unread::new(alloc),
            front: front_of(&[], segment, number),
        }
    }

    /// Takes the next piece of the segment.
    pub fn feed(&mut self, piece: &[u8]) -> Result<(), PieceRefusal>
        ensures ok { OnOk result ((segment first : ℕ) (payloads : List (List ℕ)) (bytes : List ℕ)
            → HasRead segment first payloads bytes self.old
            → HasRead segment first payloads (bytes ++ piece.now) self.new) }
        ensures err { OnErr result (self.new ≡ self.old) }
        ensures too_long { (result ≡ Err PieceRefusal.TooLong)
            ↔ (2 ^ 62 < self.old.fed + length piece.now) }
    {
        let len = piece.len() as u64;
        if len > LENGTH_LIMIT - self.fed {
            return Err(PieceRefusal::TooLong);
        }
        if let Front::Other = self.front {
            self.used = used_with(self.used, self.fed - self.place, piece);
            self.fed += len;
            return Ok(());
        }
        self.unread.push(piece)?;
        let (front, used) = settle(&mut self.unread, self.segment, self.number);
        self.front = front;
        self.used = used;
        self.fed += len;
        Ok(())
    }

    /// The number of the next frame. Where it is that from which the next segment goes on, no frame
    /// from here on counts.
    pub fn number(&self) -> u64
        ensures { result ≡ self.now.number }
    {
        self.number
    }

    /// Where the next frame begins, in bytes from the front of the segment.
    pub fn place(&self) -> u64
        ensures { result ≡ self.now.place }
    {
        self.place
    }

    /// The payload of the next frame, where all of it came.
    pub fn payload(&self) -> Option<&[u8]>
        ensures some { IfSome result (λ payload. IsNext self.now payload.now) }
        ensures none { result ≡ None → Ends self.now.segment self.now.number self.now.unread }
    {
        match self.front {
            Front::Whole(len) => Some(&self.unread.as_slice()[HEAD..HEAD + len]),
            Front::Short(_) | Front::Other => None,
        }
    }

    /// Goes past the next frame, where all of it came.
    pub fn pass(&mut self)
        ensures passed { (segment first : ℕ) (payloads : List (List ℕ)) (bytes payload : List ℕ)
            → HasRead segment first payloads bytes self.old → IsNext self.old payload
            → HasRead segment first (payloads ++ payload ∷ []) bytes self.new }
        ensures shorter { (payload : List ℕ) → IsNext self.old payload
            → length self.new.unread < length self.old.unread }
        ensures none { Ends self.old.segment self.old.number self.old.unread → self.new ≡ self.old }
    {
        if let Front::Whole(len) = self.front {
            self.unread.pass(HEAD + len);
            self.number += 1;
            self.place += (HEAD + len) as u64;
            let (front, used) = settle(&mut self.unread, self.segment, self.number);
            self.front = front;
            self.used = used;
        }
    }

    /// Where the frames end, and what follows, where so many bytes may have been in flight. All bytes
    /// came, and no frame waits.
    pub fn end(&self, in_flight: u64) -> End
        ensures log { (segment first : ℕ) (payloads : List (List ℕ)) (bytes : List ℕ)
            → HasRead segment first payloads bytes self.now
            → Ends self.now.segment self.now.number self.now.unread
            → EndsAt segment first payloads bytes in_flight result }
        ensures crash { (segment first synced : ℕ) (payloads written : List (List ℕ))
            (bytes : List ℕ)
            → HasRead segment first payloads bytes self.now
            → Ends self.now.segment self.now.number self.now.unread
            → Crashed segment first written synced bytes → ReadsPrefix written synced payloads }
    {
        let used = if let Front::Other = self.front {
            self.used
        } else {
            used_len(self.unread.as_slice()) as u64
        };
        End {
            number: self.number,
            place: self.place,
            rest: rest_of(used, in_flight),
        }
    }
}
