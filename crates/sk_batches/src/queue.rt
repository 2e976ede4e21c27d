//! A queue of batches.
ghost use Rattle.std.specs.Prelude.{◌≡◌, ◌+◌, ◌<◌, ◌≤◌, ◌^◌, ◌++◌, length, drop, None, Some, OnOk, IfErr};
ghost use Rattle.sk_batches.specs.Base.{non_zero_u16_get, list_any, Synced, Failed};
ghost use Rattle.sk_batches.specs.Records.{but_last, payload};
ghost use Rattle.sk_batches.specs.Queue.{cut_due, decided, in_flight, is_refused, kept_records, left, next_records, past, undecided};
ghost use Rattle.sk_batches.specs.Calls.{append_refused, cause_of, new_queue, take_refused, AppendPost, CutPost, TakePost, WordPost};

use crate::Refusal;
use crate::batch::{Batch, Stage};
use crate::list::{
    bytes_of, cut_all, decided, first_failed, first_taken, has_no_kept, is_any_awaited,
    is_any_failed, is_any_refused, is_any_sent, kept_len, send_all, tell_all, write_kept,
};
use crate::record::Record;
use crate::records::Records;
use sk_log::HEAD;
use sk_log::frame::NUMBER_LIMIT;
use std::alloc::Global;
use std::marker::Model;
use std::num::NonZeroU16;

/// A frame that was taken.
#[derive(Clone, Copy, Debug, PartialEq, Eq)]
pub struct Taken {
    /// Its number in the log.
    pub frame: u64,
    /// How many bytes its payload has.
    pub len: usize,
}

/// A batch that is decided, by its number.
#[derive(Clone, Copy, Debug, PartialEq, Eq)]
pub enum Decision {
    /// Its frame and all before it were told as synced.
    Logged(u64),
    /// Its frame failed and was cut off.
    Refused(u64),
}

/// A frame that failed and is to be cut off, with all behind it.
#[derive(Clone, Copy, Debug, PartialEq, Eq)]
pub struct Cut {
    /// Its number in the log.
    pub frame: u64,
    /// The number of its first batch.
    pub first: u64,
    /// The number of its last batch.
    pub last: u64,
}

/// Batches of records, each with a number: one is open, and those before it were sent in frames, or are to be sent again behind
/// a cut.
#[derive(Drop)]
pub struct Queue {
    alloc: Global,
    most: NonZeroU16,
    most_bytes: u32,
    number: u64,
    frame: u64,
    stopped: bool,
    batches: Vec<Batch>,
    records: Records,
}

impl Model for Queue {
    ghost use Rattle.std.specs.Prelude.{◌≤◌};
    ghost use Rattle.std.specs.Int.NonZero.{non_zero_u16_get};
    ghost use Rattle.sk_batches.specs.Queue.{undecided_of, QueueView};

    ghost Value = { QueueView };

    ghost view = { λ q. record {
      most = non_zero_u16_get q.most;
      most_bytes = q.most_bytes;
      number = q.number;
      frame = q.frame;
      stopped = q.stopped;
      batches = q.batches.items;
      records = q.records;
    } };

    ghost invariant = { λ q. undecided_of q.batches.items q.records ≤ q.most_bytes };
}

impl Queue {
    /// Nothing has happened. So many frames may be in flight, and so many bytes undecided; the next frame has this number.
    pub fn new(alloc: Global, most: NonZeroU16, most_bytes: u32, frame: u64) -> Queue
        ensures { result ≡ new_queue (non_zero_u16_get most) most_bytes frame }
    {
        Queue {
            alloc,
            most,
            most_bytes,
            number: 1,
            frame,
            stopped: false,
            batches: Vec::new(alloc),
            records: Records::new(alloc),
        }
    }

    /// The number of the open batch.
    pub fn number(&self) -> u64
        ensures { result ≡ self.now.number }
    {
        self.number
    }

    /// How many frames were sent and are not decided.
    pub fn in_flight(&self) -> u64
        ensures { result ≡ in_flight self.now }
    {
        match first_taken(self.batches.as_slice()) {
            Some(first) => self.frame.saturating_sub(first),
            None => 0,
        }
    }

    /// How many bytes are undecided.
    pub fn undecided(&self) -> usize
        ensures { result ≡ undecided self.now }
    {
        bytes_of(self.batches.as_slice(), self.most_bytes) + self.records.len()
    }

    /// Adds a record to the open batch: its bytes, and the numbers of the batches that it depends on beside the open one. Answers
    /// the number of the open batch.
    pub fn append(&mut self, rests: &[u64], bytes: &[u8]) -> Result<u64, Refusal>
        ensures { AppendPost result rests.now bytes.now self.old self.new }
    {
        self.may_append(bytes.len())?;
        let record = Record::new(self.alloc, rests, bytes)?;
        self.records.push(record)?;
        Ok(self.number)
    }

    /// Takes back the last record of the open batch.
    pub fn withdraw(&mut self)
        ensures { self.new ≡ record self.old { records = but_last self.old.records } }
    {
        self.records.drop_last();
    }

    /// How many bytes the next frame has.
    pub fn next_len(&self) -> usize
        ensures { result ≡ length (payload (next_records self.now)) }
    {
        kept_len(self.batches.as_slice(), self.most_bytes) + self.records.len()
    }

    /// How many bytes the next frame has with its head.
    pub fn next_frame_len(&self) -> usize
        ensures { result ≡ 24 + length (payload (next_records self.now)) }
    {
        HEAD + (kept_len(self.batches.as_slice(), self.most_bytes) + self.records.len())
    }

    /// Sends the open batch, and those that are to be sent again before it, in one frame, whose payload is written into a room.
    pub fn take(&mut self, room: &mut [u8]) -> Result<Taken, Refusal>
        ensures { TakePost result self.old room.old self.new room.new }
    {
        let len = self.next_len();
        self.may_take(room.len())?;
        self.batches.reserve(1)?;
        fill(
            self.batches.as_slice(),
            &self.records,
            self.most_bytes,
            room,
        );
        let batch = Batch {
            number: self.number,
            frame: self.frame,
            stage: Stage::Kept,
            records: std::mem::replace(&mut self.records, Records::new(self.alloc)),
        };
        self.batches.push_reserved(batch);
        send_all(&mut self.batches, self.frame);
        let taken = Taken {
            frame: self.frame,
            len,
        };
        self.number += 1;
        self.frame += 1;
        Ok(taken)
    }

    /// The host says that a frame is synced. It is decided once all before it are.
    pub fn synced(&mut self, frame: u64) -> Result<(), Refusal>
        ensures { WordPost Synced result frame self.old self.new }
    {
        self.told(frame, Stage::Synced)
    }

    /// The host says that a frame failed. Nothing is decided past it.
    pub fn failed(&mut self, frame: u64) -> Result<(), Refusal>
        ensures { WordPost Failed result frame self.old self.new }
    {
        self.told(frame, Stage::Failed)
    }

    /// The oldest batch, if it is decided: it is let go of.
    pub fn next_decided(&mut self) -> Option<Decision>
        ensures answer { result ≡ decided self.old.batches }
        ensures left { self.new ≡ record self.old { batches = left self.old.batches } }
    {
        let decision = decided(self.batches.as_slice())?;
        self.batches.remove(0);
        Some(decision)
    }

    /// Whether a batch was cut off and is not told as decided yet. What depends on one must not be added.
    pub fn has_refused(&self) -> bool
        ensures { result ≡ list_any (λ b. is_refused b.stage) self.now.batches }
    {
        is_any_refused(self.batches.as_slice())
    }

    /// The cut that is to be made: once a frame failed, and all that were sent were told of.
    pub fn cut_due(&self) -> Option<Cut>
        ensures { result ≡ cut_due self.now }
    {
        if is_any_sent(self.batches.as_slice()) {
            return None;
        }
        first_failed(self.batches.as_slice())
    }

    /// The host says whether the cut that is due was made. If not, the queue stops.
    pub fn cut(&mut self, made: bool) -> Result<(), Refusal>
        ensures { CutPost made result self.old self.new }
    {
        if self.stopped {
            return Err(Refusal::Stopped);
        }
        let Some(cut) = self.cut_due() else {
            return Err(Refusal::NoCut);
        };
        if !made {
            self.stopped = true;
            return Ok(());
        }
        cut_all(&mut self.batches, &cut);
        self.records.keep(cut.first, cut.last);
        self.frame = past(cut.frame);
        Ok(())
    }

    /// Why no record of so many bytes is added, whatever memory there is.
    pub fn may_append(&self, len: usize) -> Result<(), Refusal>
        ensures ok { OnOk result (append_refused self.now len ≡ None) }
        ensures err { IfErr result
            (λ why. (append_refused self.now len ≡ Some why) × (cause_of why ≡ Some why)) }
        ensures room { OnOk result (undecided self.now + len ≤ self.now.most_bytes) }
    {
        if self.stopped {
            return Err(Refusal::Stopped);
        }
        let most = u64::from(self.most_bytes);
        if (self.undecided() as u64).saturating_add(len as u64) > most {
            return Err(Refusal::Full);
        }
        Ok(())
    }

    /// Why no frame is taken into so much room, whatever memory there is.
    pub fn may_take(&self, room: usize) -> Result<(), Refusal>
        ensures ok { OnOk result (take_refused self.now room ≡ None) }
        ensures err { IfErr result
            (λ why. (take_refused self.now room ≡ Some why) × (cause_of why ≡ Some why)) }
        ensures number { OnOk result (self.now.number < NUMBER_LIMIT) }
        ensures frame { OnOk result (self.now.frame < NUMBER_LIMIT) }
        ensures room { OnOk result (length (payload (next_records self.now)) ≤ room) }
    {
        if self.stopped {
            return Err(Refusal::Stopped);
        }
        if self.records.is_empty() && has_no_kept(self.batches.as_slice()) {
            return Err(Refusal::Nothing);
        }
        if is_any_failed(self.batches.as_slice())
            || self.in_flight() >= u64::from(self.most.get())
        {
            return Err(Refusal::Busy);
        }
        if self.number >= NUMBER_LIMIT || self.frame >= NUMBER_LIMIT {
            return Err(Refusal::NoNumber);
        }
        if room < self.next_len() {
            return Err(Refusal::Short);
        }
        Ok(())
    }

    /// A frame was told of.
    fn told(&mut self, frame: u64, stage: Stage) -> Result<(), Refusal>
        ensures { WordPost stage result frame self.old self.new }
    {
        if self.stopped {
            return Err(Refusal::Stopped);
        }
        if !is_any_awaited(self.batches.as_slice(), frame) {
            return Err(Refusal::Unknown);
        }
        tell_all(&mut self.batches, frame, stage);
        Ok(())
    }
}

/// Writes the payload of the next frame to the front of a room.
fn fill(batches: &[Batch], records: &Records, most: u32, room: &mut [u8])
    requires room { length (payload (kept_records batches.now)) + length (payload records.now)
        ≤ length room.old }
    requires small { length (payload (kept_records batches.now)) ≤ most }
    ensures { room.new ≡ payload (kept_records batches.now ++ records.now)
        ++ drop (length (payload (kept_records batches.now ++ records.now))) room.old }
{
    write_kept(batches, room);
    records.write(room, kept_len(batches, most));
}

/// The number of the frame behind a cut.
fn past(frame: u64) -> u64
    ensures { result ≡ past frame }
{
    if frame < NUMBER_LIMIT {
        frame + 1
    } else {
        frame
    }
}
