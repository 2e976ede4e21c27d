//! The making of frames.
ghost use Rattle.std.specs.Prelude.{◌≡◌, ◌+◌, ◌<◌, ◌≤◌, ◌^◌, ◌++◌, ◌↔◌, length, drop, vec_capacity, OnOk, OnErr};
ghost use Rattle.sk_log.specs.Frame.{frame};

use crate::bytes::{HEAD, head_bytes, sum_of};
use std::alloc::AllocError;
use thiserror::Error;

/// No frame has a payload of so many bytes.
pub const PAYLOAD_LIMIT: usize = 1 << 28;

/// No frame has this number.
pub const NUMBER_LIMIT: u64 = 1 << 56;

/// No segment has this number.
pub const SEGMENT_LIMIT: u64 = 1 << 28;

/// Why no frame was made.
#[derive(Clone, Copy, Debug, PartialEq, Eq, Error)]
pub enum FrameRefusal {
    /// The payload is as long as none may be.
    #[error("a payload has less than 268,435,456 bytes")]
    TooLong,
    /// There was no memory.
    #[error("out of memory")]
    Memory,
}

impl From<AllocError> for FrameRefusal {
    ghost use Rattle.std.specs.Prelude.{◌≡◌};
    ghost use Rattle.sk_log.specs.declared.frame.FrameRefusal.TheVariants.{Memory};

    ghost from_gives = { λ _ refusal. refusal ≡ Memory };

    fn from(_error: AllocError) -> FrameRefusal {
        FrameRefusal::Memory
    }
}

/// Makes a frame of the payload that stands behind room for its head.
pub fn seal(room: &mut [u8], segment: u64, number: u64)
    requires { (24 ≤ length room.old) × (length room.old < 2 ^ 28) }
    ensures { room.new ≡ frame segment number (drop 24 room.old) }
{
    let payload = &room[HEAD..];
    let head = head_bytes(segment, number, payload.len(), sum_of(payload));
    room[..HEAD].copy_from_slice(&head);
}

/// Appends a frame to a log's bytes, into room that is reserved for it first.
pub fn append(
    log: &mut Vec<u8>,
    segment: u64,
    number: u64,
    payload: &[u8],
) -> Result<(), FrameRefusal>
    ensures ok { OnOk result (log.new.items ≡ log.old.items ++ frame segment number payload.now) }
    ensures err { OnErr result (log.new.items ≡ log.old.items) }
    ensures too_long { (result ≡ Err FrameRefusal.TooLong) ↔ (2 ^ 28 ≤ length payload.now) }
{
    if payload.len() >= PAYLOAD_LIMIT {
        return Err(FrameRefusal::TooLong);
    }
    log.reserve(HEAD + payload.len())?;
    let head = head_bytes(segment, number, payload.len(), sum_of(payload));
    append_reserved(log, &head);
    append_reserved(log, payload);
    Ok(())
}

/// Appends bytes, into room that is there.
fn append_reserved(log: &mut Vec<u8>, bytes: &[u8])
    requires { length log.old.items + length bytes.now ≤ vec_capacity log.old }
    ensures items { log.new.items ≡ log.old.items ++ bytes.now }
    ensures capacity { vec_capacity log.old ≤ vec_capacity log.new }
{
    let _appended = log.extend_from_slice(bytes);
}
