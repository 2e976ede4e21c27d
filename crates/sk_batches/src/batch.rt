//! A batch that was sent, or that is to be sent again.
ghost use Rattle.std.specs.Prelude.{◌≡◌, ◌+◌, ◌≤◌, ◌==◌, ◌++◌, length, take, drop};
ghost use Rattle.sk_batches.specs.Records.{payload};
ghost use Rattle.sk_batches.specs.Queue.{awaits, cut_off, decision_of, is_failed, is_kept, is_refused, kept_of, is_sent, is_taken, send, tell};

use crate::queue::{Cut, Decision};
use crate::records::Records;

/// How far a batch is.
#[derive(Clone, Copy, Debug, PartialEq, Eq)]
pub(crate) enum Stage {
    /// It was cut off, and is to be sent again with the next frame.
    Kept,
    /// Its frame was sent.
    Sent,
    /// Its frame was told as synced.
    Synced,
    /// Its frame was told as failed.
    Failed,
    /// Its frame failed and was cut off.
    Refused,
}

/// The records that were run under one guess, and the frame that they were sent with.
#[derive(Drop)]
pub(crate) struct Batch {
    pub(crate) number: u64,
    pub(crate) frame: u64,
    pub(crate) stage: Stage,
    pub(crate) records: Records,
}

impl Batch {
    pub(crate) fn is_kept(&self) -> bool
        ensures { result ≡ is_kept self.now.stage }
    {
        matches!(self.stage, Stage::Kept)
    }

    pub(crate) fn is_sent(&self) -> bool
        ensures { result ≡ is_sent self.now.stage }
    {
        matches!(self.stage, Stage::Sent)
    }

    pub(crate) fn is_failed(&self) -> bool
        ensures { result ≡ is_failed self.now.stage }
    {
        matches!(self.stage, Stage::Failed)
    }

    pub(crate) fn is_refused(&self) -> bool
        ensures { result ≡ is_refused self.now.stage }
    {
        matches!(self.stage, Stage::Refused)
    }

    /// How many bytes it has that are to be sent again.
    pub(crate) fn kept_len(&self) -> usize
        ensures { result ≡ length (payload (kept_of self.now)) }
    {
        if self.is_kept() {
            self.records.len()
        } else {
            0
        }
    }

    /// Whether it has no record that is to be sent again.
    pub(crate) fn has_none_kept(&self) -> bool
        ensures { result ≡ (length (kept_of self.now) == 0) }
    {
        if self.is_kept() {
            self.records.is_empty()
        } else {
            true
        }
    }

    /// Writes the bytes that are to be sent again from a place on.
    pub(crate) fn write_kept(&self, room: &mut [u8], place: usize)
        requires { place + length (payload (kept_of self.now)) ≤ length room.old }
        ensures { room.new ≡ take place room.old ++ (payload (kept_of self.now)
            ++ drop (place + length (payload (kept_of self.now))) room.old) }
    {
        if self.is_kept() {
            self.records.write(room, place);
        }
    }

    /// Whether its frame was sent and is not decided.
    pub(crate) fn is_taken(&self) -> bool
        ensures { result ≡ is_taken self.now.stage }
    {
        match self.stage {
            Stage::Sent | Stage::Synced | Stage::Failed => true,
            Stage::Kept | Stage::Refused => false,
        }
    }

    /// What is decided of it, where it is the oldest.
    pub(crate) fn decision(&self) -> Option<Decision>
        ensures { result ≡ decision_of self.now.stage self.now.number }
    {
        match self.stage {
            Stage::Synced => Some(Decision::Logged(self.number)),
            Stage::Refused => Some(Decision::Refused(self.number)),
            Stage::Kept | Stage::Sent | Stage::Failed => None,
        }
    }

    /// Whether the batch is in this frame, of which nothing was told.
    pub(crate) fn awaits(&self, frame: u64) -> bool
        ensures { result ≡ awaits frame self.now }
    {
        self.is_sent() && self.frame == frame
    }

    /// The batch goes out with this frame, if it was cut off and is to be sent again.
    pub(crate) fn send(&mut self, frame: u64)
        ensures { self.new ≡ send frame self.old }
    {
        if self.is_kept() {
            self.frame = frame;
            self.stage = Stage::Sent;
        }
    }

    /// The host told of a frame: the batch comes to this stage, if it is in that frame.
    pub(crate) fn tell(&mut self, frame: u64, stage: Stage)
        ensures { self.new ≡ tell frame stage self.old }
    {
        if self.awaits(frame) {
            self.stage = stage;
        }
    }

    /// The log was cut: a batch of the frame that failed is refused, and one behind it is to be sent again, with the records that
    /// don't depend on what was cut off.
    pub(crate) fn cut_off(&mut self, cut: &Cut)
        ensures { self.new ≡ cut_off cut.now self.old }
    {
        if self.frame < cut.frame {
            return;
        }
        if self.frame == cut.frame {
            self.stage = Stage::Refused;
            return;
        }
        self.stage = Stage::Kept;
        self.records.keep(cut.first, cut.last);
    }
}
