//! The batches of a queue, one after another.
ghost use Rattle.std.specs.Prelude.{◌≡◌, ◌+◌, ◌<◌, ◌≤◌, ◌^◌, ◌++◌, ◌==◌, map, length, drop};
ghost use Rattle.std.specs.List.{list_any, sum_by};
ghost use Rattle.sk_batches.specs.Records.{payload};
ghost use Rattle.sk_batches.specs.Queue.{awaits, cut_off, decided, first_failed, first_taken, is_failed, is_refused, is_sent, kept_records, last_in, send, tell};

use crate::batch::{Batch, Stage};
use crate::queue::{Cut, Decision};

/// Those that are to be sent again are sent.
pub(crate) fn send_all(batches: &mut Vec<Batch>, frame: u64)
    ensures { batches.new.items ≡ map (send frame) batches.old.items }
{
    for place in 0..batches.len() {
        batches[place].send(frame);
    }
}

/// A frame was told of.
pub(crate) fn tell_all(batches: &mut Vec<Batch>, frame: u64, stage: Stage)
    ensures { batches.new.items ≡ map (tell frame stage) batches.old.items }
{
    for place in 0..batches.len() {
        batches[place].tell(frame, stage);
    }
}

/// The log was cut, and each batch is told so.
pub(crate) fn cut_all(batches: &mut Vec<Batch>, cut: &Cut)
    ensures { batches.new.items ≡ map (cut_off cut.now) batches.old.items }
{
    for place in 0..batches.len() {
        batches[place].cut_off(cut);
    }
}

/// Whether some batch is in this frame, of which nothing was told.
pub(crate) fn is_any_awaited(batches: &[Batch], frame: u64) -> bool
    ensures { result ≡ list_any (awaits frame) batches.now }
{
    for batch in batches {
        if batch.awaits(frame) {
            return true;
        }
    }
    false
}

/// Whether nothing was told of the frame of one.
pub(crate) fn is_any_sent(batches: &[Batch]) -> bool
    ensures { result ≡ list_any (λ b. is_sent b.stage) batches.now }
{
    for batch in batches {
        if batch.is_sent() {
            return true;
        }
    }
    false
}

/// Whether the frame of one failed.
pub(crate) fn is_any_failed(batches: &[Batch]) -> bool
    ensures { result ≡ list_any (λ b. is_failed b.stage) batches.now }
{
    for batch in batches {
        if batch.is_failed() {
            return true;
        }
    }
    false
}

/// Whether one was cut off, and is not decided.
pub(crate) fn is_any_refused(batches: &[Batch]) -> bool
    ensures { result ≡ list_any (λ b. is_refused b.stage) batches.now }
{
    for batch in batches {
        if batch.is_refused() {
            return true;
        }
    }
    false
}

/// The frame of the first that was sent and is not decided.
pub(crate) fn first_taken(batches: &[Batch]) -> Option<u64>
    ensures { result ≡ first_taken batches.now }
{
    for batch in batches {
        if batch.is_taken() {
            return Some(batch.frame);
        }
    }
    None
}

/// The number of the last batch that is in a frame; this number, where none is.
fn last_in(batches: &[Batch], frame: u64, number: u64) -> u64
    ensures { result ≡ last_in frame number batches.now }
{
    let mut last = number;
    for batch in batches {
        if batch.frame == frame {
            last = batch.number;
        }
    }
    last
}

/// What is decided of the oldest batch, if anything is.
pub(crate) fn decided(batches: &[Batch]) -> Option<Decision>
    ensures { result ≡ decided batches.now }
{
    match batches {
        [] => None,
        [oldest, ..] => oldest.decision(),
    }
}

/// The first frame that failed, with its batches from the first to the last.
pub(crate) fn first_failed(batches: &[Batch]) -> Option<Cut>
    ensures { result ≡ first_failed batches.now }
{
    for place in 0..batches.len() {
        let batch = &batches[place];
        if batch.is_failed() {
            return Some(Cut {
                frame: batch.frame,
                first: batch.number,
                last: last_in(&batches[place + 1..], batch.frame, batch.number),
            });
        }
    }
    None
}

/// How many bytes they have, where no more than so many.
pub(crate) fn bytes_of(batches: &[Batch], most: u32) -> usize
    requires { sum_by (λ b. length (payload b.records)) batches.now ≤ most }
    ensures { result ≡ sum_by (λ b. length (payload b.records)) batches.now }
{
    let mut bytes = 0;
    for batch in batches {
        bytes += batch.records.len();
    }
    bytes
}

/// Whether there is a record that is to be sent again.
pub(crate) fn has_no_kept(batches: &[Batch]) -> bool
    ensures { result ≡ (length (kept_records batches.now) == 0) }
{
    for batch in batches {
        if !batch.has_none_kept() {
            return false;
        }
    }
    true
}

/// How many bytes are to be sent again, where no more than so many.
pub(crate) fn kept_len(batches: &[Batch], most: u32) -> usize
    requires { length (payload (kept_records batches.now)) ≤ most }
    ensures { result ≡ length (payload (kept_records batches.now)) }
{
    let mut len = 0;
    for batch in batches {
        len += batch.kept_len();
    }
    len
}

/// Writes the bytes that are to be sent again to the front of a room.
pub(crate) fn write_kept(batches: &[Batch], room: &mut [u8])
    requires { length (payload (kept_records batches.now)) ≤ length room.old }
    ensures { room.new ≡ payload (kept_records batches.now)
        ++ drop (length (payload (kept_records batches.now))) room.old }
{
    let mut place = 0;
    for batch in batches {
        batch.write_kept(room, place);
        place += batch.kept_len();
    }
}
